//! The search for the first survivor of a cut that is wrong.

ghost use Rattle.std.specs.Prelude.{◌≡◌, ◌<◌, ◌^◌, IfOk, IsTrue, ◌↔◌, length, sum};
ghost use Rattle.crash_explorer.specs.Better.{IsFewer, IsBetter, IsFoundBy, IsWeighed, verdict_of};

use crate::counts::{copied, stores};
use crate::effort::Effort;
use crate::verdict::{CutVerdict, Found, LeftVerdict, Miss};
use std::alloc::{AllocError, Global};

/// What a search met: the best survivor that is wrong, and how much was tried while there was none.
#[derive(Debug, Drop)]
pub(crate) struct Search {
    pub(crate) best: Option<Found>,
    pub(crate) effort: Effort,
}

/// A survivor that is wrong.
pub(crate) fn found_by(kept: Vec<u32>, miss: Miss) -> Found
    requires { length kept.items < 2 ^ 32 }
    ensures { IsFoundBy kept.items miss result }
{
    let stores = stores(kept.as_slice());
    Found { kept, stores, miss }
}

/// Whether so many stores are fewer than those of the best that was found.
fn is_fewer(stores: u64, best: &Option<Found>) -> bool
    ensures { IsTrue result ↔ IsFewer stores best.now }
{
    match best {
        Some(found) => stores < found.stores,
        None => true,
    }
}

/// The better of what was found and a survivor that is wrong: the one that keeps fewer stores, and of equal ones the earlier.
fn better(
    alloc: Global,
    best: Option<Found>,
    kept: &[u32],
    miss: Miss,
) -> Result<Option<Found>, AllocError>
    requires { length kept.now < 2 ^ 32 }
    ensures { IfOk result (IsBetter best kept.now miss) }
{
    let stores = stores(kept);
    if !is_fewer(stores, &best) {
        return Ok(best);
    }
    let kept = copied(alloc, kept)?;
    Ok(Some(Found { kept, stores, miss }))
}

/// The search behind one more survivor.
pub(crate) fn weighed(
    alloc: Global,
    search: Search,
    kept: &[u32],
    verdict: LeftVerdict,
) -> Result<Search, AllocError>
    requires { length kept.now < 2 ^ 32 }
    ensures { IfOk result (IsWeighed search kept.now verdict) }
{
    let Search { best, effort } = search;
    match verdict {
        LeftVerdict::Clean(inside) => Ok(Search {
            best,
            effort: effort.and_survivor(inside),
        }),
        LeftVerdict::Wrong(miss) => {
            let best = better(alloc, best, kept, miss)?;
            Ok(Search { best, effort })
        }
    }
}

/// What a search that met all survivors found.
pub(crate) fn of_search(search: Search) -> CutVerdict
    ensures { result ≡ verdict_of search.best search.effort }
{
    let Search { best, effort } = search;
    match best {
        Some(found) => CutVerdict::Wrong(found),
        None => CutVerdict::Clean(effort),
    }
}
