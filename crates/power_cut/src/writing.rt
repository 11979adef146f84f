//! The bytes of an image, written front to back into one vector that has the image's size from the start.

ghost use Rattle.std.specs.Prelude.{◌≡◌, ◌++◌, IfOk, OnOk};
ghost use Rattle.seq_object.specs.Sizes.{AreValid};
ghost use Rattle.byteorder.specs.Endian.{little_bytes};
ghost use Rattle.power_cut.specs.Image.{sizes_in, rooms_in};
ghost use Rattle.power_cut.specs.Bytes.{head_bytes, line_bytes, room_bytes, image_bytes_of};

use crate::head::{MAGIC, VERSION, image_length};
use crate::image::Image;
use byteorder::{ByteOrder, LittleEndian};
use seq_object::Sizes;
use std::alloc::{AllocError, Global};

/// The bytes of an image whose sizes are within their limits. Want of memory is the one refusal.
pub fn image_bytes(alloc: Global, image: &Image) -> Result<Vec<u8>, AllocError>
    requires { AreValid (sizes_in image.now) }
    ensures { IfOk result (λ bytes. bytes.items ≡ image_bytes_of (sizes_in image.now) (rooms_in image.now)) }
{
    let sizes = image.sizes();
    let mut bytes = Vec::with_capacity(alloc, image_length(sizes))?;
    put_head(&mut bytes, sizes)?;
    for room in &image.rooms {
        put_room(&mut bytes, room)?;
    }
    Ok(bytes)
}

/// Appends what stands before the words.
fn put_head(bytes: &mut Vec<u8>, sizes: Sizes) -> Result<(), AllocError>
    ensures { OnOk result (bytes.new.items ≡ bytes.old.items ++ head_bytes sizes) }
{
    bytes.extend_from_slice(&MAGIC)?;
    put_number(bytes, VERSION)?;
    put_number(bytes, sizes.threads)?;
    put_number(bytes, sizes.shards)?;
    put_number(bytes, sizes.lines)
}

/// Appends a number of 32 bits.
fn put_number(bytes: &mut Vec<u8>, number: u32) -> Result<(), AllocError>
    ensures { OnOk result (bytes.new.items ≡ bytes.old.items ++ little_bytes 4 number) }
{
    let mut four = [0u8; 4];
    LittleEndian::write_u32(&mut four, number);
    bytes.extend_from_slice(&four)
}

/// Appends the lines of a room.
fn put_room(bytes: &mut Vec<u8>, lines: &Vec<[u64; 8]>) -> Result<(), AllocError>
    ensures { OnOk result (bytes.new.items ≡ bytes.old.items ++ room_bytes lines.now.items) }
{
    for line in lines {
        put_line(bytes, line)?;
    }
    Ok(())
}

/// Appends the words of a line.
fn put_line(bytes: &mut Vec<u8>, line: &[u64; 8]) -> Result<(), AllocError>
    ensures { OnOk result (bytes.new.items ≡ bytes.old.items ++ line_bytes line.now) }
{
    let mut words = [0u8; 64];
    LittleEndian::write_u64_into(line, &mut words);
    bytes.extend_from_slice(&words)
}
