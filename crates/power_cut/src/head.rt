//! What stands before the words of an image's bytes: eight bytes that every image begins with, the version, and the sizes.

ghost use Rattle.std.specs.Prelude.{◌≡◌};
ghost use Rattle.seq_object.specs.Sizes.{AreValid};
ghost use Rattle.power_cut.specs.Bytes.{image_length};

use seq_object::Sizes;

/// The bytes that an image begins with.
pub const MAGIC: [u8; 8] = *b"RESPCTIM";

/// The version of the bytes of an image.
pub const VERSION: u32 = 1;

/// How many bytes stand before the words.
pub const HEAD: usize = 24;

/// How many bytes a line has.
pub const LINE: usize = 64;

/// How many bytes an image of these sizes has.
pub fn image_length(sizes: Sizes) -> usize
    requires { AreValid sizes }
    ensures { result ≡ image_length sizes }
{
    HEAD + LINE * sizes.line_total() as usize
}
