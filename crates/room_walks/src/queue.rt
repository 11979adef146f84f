//! The items of a queue room.

ghost use Rattle.std.specs.Prelude.{◌≡◌, IfOk};
ghost use Rattle.room_model.specs.Walks.{items_from};

use crate::reads_words::ReadsWords;
use crate::walk::Walk;
use std::alloc::{AllocError, Global};

/// The line and the word that name the first node of a queue room.
const ENDS: u64 = 1;

const FIRST: u32 = 0;

/// The words of a node that have its item, and name the next node.
const ITEM: u32 = 0;

const NEXT: u32 = 1;

/// The items of a queue room from front to back, over at most so many nodes. The cause of a refusal is want of memory.
pub fn items<R: ReadsWords>(alloc: Global, room: &R, most: u32) -> Result<Vec<u64>, AllocError>
    ensures { IfOk result (λ items. items.items ≡ items_from (R.words room.now) most (R.words room.now 1 0)) }
{
    let mut items = Vec::new(alloc);
    let mut walk = Walk::from(room.read(ENDS, FIRST), NEXT, most);
    while let Some(line) = walk.next(room) {
        items.push(room.read(line, ITEM))?;
    }
    Ok(items)
}
