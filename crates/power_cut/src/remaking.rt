//! A memory of an image: its words in the lines, and nothing pending.

ghost use Rattle.std.specs.Prelude.{◌≡◌, IfOk};
ghost use Rattle.line_memory.specs.Line.{IsQuiet};
ghost use Rattle.power_cut.specs.Image.{rooms_in, IsWhole};
ghost use Rattle.power_cut.specs.Cut.{quiet_memory};

use crate::image::Image;
use line_memory::{Bank, Memory};
use std::alloc::{AllocError, Global};

/// The memory with the words of a whole image in its lines, and nothing pending. Want of memory is the one refusal; the
/// image is then given up.
pub fn image_memory(alloc: Global, image: Image) -> Result<Memory, AllocError>
    requires { IsWhole image }
    ensures is { IfOk result (λ memory. memory ≡ quiet_memory (rooms_in image)) }
    ensures quiet { IfOk result IsQuiet }
{
    let Image { rooms, .. } = image;
    let mut banks = Vec::with_capacity(alloc, rooms.len())?;
    for lines in rooms {
        banks.push(Bank::of(alloc, lines)?)?;
    }
    Ok(Memory::of(banks))
}
