//! A store of 16 lines, tried at each power cut with so many survivors: what a recovery costs the tester for stores is seen by it.
//!
//! The store and its recovery are in `store`. Nothing is claimed of them that the explorer does not say; the output has how many
//! recoveries were tried, worked out by hand.
#![tactic(auto)]

mod store;

use crash_explorer::{Answer, Plan, Silent, explore};
use store::Running;

/// The choices that are drawn for one cut, beside those that keep all and nothing.
const DRAWN: u64 = 2000;

fn main(rt: HostRuntime) -> anyhow::Result<()> {
    let alloc = rt.alloc();
    let mut seeds = Vec::new(alloc);
    for seed in 0..DRAWN {
        seeds.push(seed)?;
    }
    let plan = Plan {
        events: 1000,
        budget: 1,
        seeds,
        steps: 100,
        depth: 0,
    };
    let mut store = Running::of(alloc)?;
    match explore(alloc, &mut store, &plan, &mut Silent)? {
        Answer::Right(tally) => println!(rt;
            "{} recoveries from the cuts behind {} events, all allowed",
            tally.survivors, tally.events
        )?,
        Answer::Wrong(_) => println!(rt; "a survivor is wrong")?,
    }
    Ok(())
}
