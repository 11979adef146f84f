//! A small store tried at every power cut, and at every cut inside the recovery from one: a right one, and four that each have one line
//! wrong.
//!
//! It is for authors who want to see the explorer at work before they try a store of their own. The store and its recovery are in
//! `store`; how their events happen is in `running` and `recovering`. Proved here: that the text of each store is that of the explorer's
//! answer over it, from its beginning on ([`finding::find`]). What these answers are is not: the program's output has them, worked out by
//! hand.
#![tactic(auto)]

mod event;
mod finding;
mod mistake;
mod recovering;
mod running;
mod store;
mod telling;

use finding::find;
use mistake::Mistake;

fn main(rt: HostRuntime) -> anyhow::Result<()> {
    let alloc = rt.alloc();
    for mistake in [
        Mistake::None,
        Mistake::RecordFirst,
        Mistake::Unfenced,
        Mistake::EpochEarly,
        Mistake::RecoveryEarly,
    ] {
        let text = find(alloc, mistake)?;
        print!(rt; "{text}")?;
    }
    Ok(())
}
