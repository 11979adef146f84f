//! What the explorer finds of a store.

ghost use Rattle.std.specs.Prelude.{IfOk};
ghost use Rattle.std.specs.String.{string_bytes};
ghost use Rattle.explore_example.specs.Findings.{IsFinding};

use crate::mistake::Mistake;
use crate::running::Running;
use crate::store::events_of;
use crate::telling::push_answer;
use crash_explorer::{Plan, Silent, explore};
use std::alloc::{AllocError, Global};

/// Tries the store with this mistake at every power cut, and at every cut inside the recovery from one, and tells in words what was found. It refuses for want of memory alone.
pub fn find(alloc: Global, mistake: Mistake) -> Result<String, AllocError>
    ensures { IfOk result (λ text. IsFinding mistake (string_bytes text)) }
{
    let mut store = Running::of(alloc, mistake, events_of(alloc, mistake)?)?;
    let plan = Plan {
        events: 1000,
        budget: 1000,
        seeds: Vec::new(alloc),
        steps: 100,
        depth: 1,
    };
    let mut out = format!(in alloc; "{mistake}\n")?;
    let answer = explore(alloc, &mut store, &plan, &mut Silent)?;
    push_answer(&mut out, &store, &answer)?;
    Ok(out)
}
