//! Images from bytes. First the faults are looked for, in their order and without memory; then the words are read in one
//! pass.

ghost use Rattle.std.specs.Prelude.{◌≡◌, ◌+◌, ◌*◌, ◌≤◌, ◌<◌, ◌↔◌, length, All, IfOk, IfErr, Some, None, Err};
ghost use Rattle.seq_object.specs.Sizes.{AreValid, line_total};
ghost use Rattle.room_model.specs.Image.{HasShape, ImageRooms as Rooms};
ghost use Rattle.power_cut.specs.Image.{sizes_in, rooms_in, lists_of, IsLineOfWords, AreWhole, IsWhole};
ghost use Rattle.power_cut.specs.Bytes.{line_bytes, room_bytes, rooms_bytes, image_bytes_of, number_at, sizes_at, first_fault};
ghost use Rattle.power_cut.specs.declared.fault.ReadImageRefusal.TheVariants.{Fault};
ghost use Rattle.seq_object.specs.declared.sizes.Sizes.{Sizes};

use crate::fault::{ImageFault, ReadImageRefusal};
use crate::head::{HEAD, LINE, MAGIC, VERSION, image_length};
use crate::image::Image;
use byteorder::{ByteOrder, LittleEndian};
use seq_object::Sizes;
use std::alloc::{AllocError, Global};

/// The image that these bytes spell. A fault is the first in this order: fewer bytes than a head (`Short`), other bytes at
/// the beginning than an image has (`Magic`), another version (`Version`), sizes beyond their limits (`Settings`), fewer or
/// more bytes than an image of these sizes has (`Short`, `Long`). Want of memory comes only where there is no fault.
pub fn read_image(alloc: Global, bytes: &[u8]) -> Result<Image, ReadImageRefusal>
    ensures found { IfOk result IsWhole }
    ensures spelled { IfOk result (λ image. bytes.now ≡ image_bytes_of (sizes_in image) (rooms_in image)) }
    ensures only { (z : Sizes) (rooms : Rooms) → AreWhole z rooms → bytes.now ≡ image_bytes_of z rooms → IfOk result (λ image. (sizes_in image ≡ z) × (rooms_in image ≡ rooms)) }
    ensures first { (fault : ImageFault) → (result ≡ Err (Fault fault)) ↔ (first_fault bytes.now ≡ Some fault) }
{
    let sizes = match read_head(bytes) {
        Ok(sizes) => sizes,
        Err(fault) => return Err(ReadImageRefusal::Fault(fault)),
    };
    let rooms = read_rooms(alloc, sizes, &bytes[HEAD..])?;
    Ok(Image {
        threads: sizes.threads,
        shards: sizes.shards,
        lines: sizes.lines,
        rooms,
    })
}

/// The sizes that the bytes state, or the first fault of the bytes.
fn read_head(bytes: &[u8]) -> Result<Sizes, ImageFault>
    ensures faultless { IfOk result (λ sizes. first_fault bytes.now ≡ None) }
    ensures sizes { IfOk result (λ sizes. sizes ≡ sizes_at bytes.now) }
    ensures fault { IfErr result (λ fault. first_fault bytes.now ≡ Some fault) }
{
    if bytes.len() < HEAD {
        return Err(ImageFault::Short);
    }
    if !bytes.starts_with(&MAGIC) {
        return Err(ImageFault::Magic);
    }
    if number_at(bytes, 8) != VERSION {
        return Err(ImageFault::Version);
    }
    let sizes = Sizes {
        threads: number_at(bytes, 12),
        shards: number_at(bytes, 16),
        lines: number_at(bytes, 20),
    };
    if !sizes.valid() {
        return Err(ImageFault::Settings);
    }
    if bytes.len() < image_length(sizes) {
        return Err(ImageFault::Short);
    }
    if bytes.len() > image_length(sizes) {
        return Err(ImageFault::Long);
    }
    Ok(sizes)
}

/// The number in the four bytes from a place on.
fn number_at(bytes: &[u8], at: usize) -> u32
    requires { at + 4 ≤ length bytes.now }
    ensures { result ≡ number_at bytes.now at }
{
    LittleEndian::read_u32(&bytes[at..])
}

/// The rooms of an image of these sizes, from the bytes of their words.
fn read_rooms(alloc: Global, sizes: Sizes, bytes: &[u8]) -> Result<Vec<Vec<[u64; 8]>>, AllocError>
    requires valid { AreValid sizes }
    requires size { length bytes.now ≡ 64 * line_total sizes }
    ensures shape { IfOk result (λ rooms. AreWhole sizes (lists_of rooms.items)) }
    ensures spelled { IfOk result (λ rooms. bytes.now ≡ rooms_bytes (lists_of rooms.items)) }
{
    let mut rooms = Vec::with_capacity(alloc, sizes.room_count() as usize)?;
    let mut rest = bytes;
    for room in 0..sizes.room_count() {
        let lines = sizes.lines_of(room) as usize;
        let (own, others) = rest.split_at(LINE * lines);
        rooms.push(read_room(alloc, lines, own)?)?;
        rest = others;
    }
    Ok(rooms)
}

/// So many lines of a room, from the bytes of their words.
fn read_room(alloc: Global, lines: usize, bytes: &[u8]) -> Result<Vec<[u64; 8]>, AllocError>
    requires { length bytes.now ≡ 64 * lines }
    ensures many { IfOk result (λ room. length room.items ≡ lines) }
    ensures words { IfOk result (λ room. All IsLineOfWords room.items) }
    ensures spelled { IfOk result (λ room. bytes.now ≡ room_bytes room.items) }
{
    let mut room = Vec::with_capacity(alloc, lines)?;
    let mut rest = bytes;
    for _line in 0..lines {
        let (own, others) = rest.split_at(LINE);
        room.push(read_line(own))?;
        rest = others;
    }
    Ok(room)
}

/// The words of a line, from their bytes.
fn read_line(bytes: &[u8]) -> [u64; 8]
    requires { length bytes.now ≡ 64 }
    ensures words { IsLineOfWords result }
    ensures spelled { bytes.now ≡ line_bytes result }
{
    let mut words = [0u64; 8];
    LittleEndian::read_u64_into(bytes, &mut words);
    words
}
