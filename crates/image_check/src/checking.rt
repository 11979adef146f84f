//! The first fault of an image, in the order of the checks: its epoch, the tags of its cells, its map rooms, its queue room.

ghost use Rattle.std.specs.Prelude.{◌≡◌, ◌<◌, ◌^◌, None, length, IfOk};
ghost use Rattle.std.specs.FinMap.{empty};
ghost use Rattle.image_check.specs.Cells.{rooms_of, layout_of_view, IsView};
ghost use Rattle.image_check.specs.Keyed.{pairs_in};
ghost use Rattle.image_check.specs.ImageFaults.{epoch_fault, room_tag_fault, tags_fault, maps_fault, queue_room_fault, with_room, image_fault};
ghost use Rattle.image_check.specs.Recovered.{HasAllPairs};

use crate::cells::Cells;
use crate::room_checks::{check_map, check_queue};
use crate::room_fault::RoomFault;
use crate::view::View;
use power_cut::ImageFault;
use room_model::TAG;
use std::alloc::{AllocError, Global};
use std::collections::BTreeMap;

impl RoomFault {
    /// The fault of an image that this one of a room is.
    fn in_room(self, room: u32) -> ImageFault
        ensures { result ≡ with_room room self }
    {
        match self {
            RoomFault::BadHeader => ImageFault::Header { room },
            RoomFault::BadChain => ImageFault::Chain { room },
            RoomFault::BadEnds => ImageFault::Ends { room },
            RoomFault::BadFreeList => ImageFault::FreeList { room },
            RoomFault::BadCount => ImageFault::Count { room },
        }
    }
}

/// The fault of an epoch, which is to be from 1 to the greatest number of 32 bits.
fn check_epoch(epoch: u64) -> Option<ImageFault>
    ensures { result ≡ epoch_fault epoch }
{
    if 1 <= epoch && epoch < 1 << 32 {
        None
    } else {
        Some(ImageFault::Epoch)
    }
}

/// The first tag of a room's lines that is ahead of the epoch.
fn check_room_tags(cells: Cells, room: u32) -> Option<ImageFault>
    requires { length cells.lines.now < 2 ^ 32 }
    ensures { result ≡ room_tag_fault cells.entry.epoch room cells.entry.lines.now }
{
    for line in 0..cells.lines.len() as u32 {
        if cells.lines[line as usize][TAG as usize] > cells.epoch {
            return Some(ImageFault::TagAhead { room, line });
        }
    }
    None
}

/// The first tag that is ahead of the epoch, in all rooms but the super room.
fn check_tags(view: View) -> Option<ImageFault>
    requires { IsView view }
    ensures { result ≡ tags_fault view.entry.sizes (rooms_of view.entry) }
{
    for room in 0..view.sizes.super_room() {
        if let Some(fault) = check_room_tags(view.cells(room), room) {
            return Some(fault);
        }
    }
    None
}

/// The first fault of the map rooms. Where there is none, their pairs are kept.
fn check_maps(
    alloc: Global,
    view: View,
    pairs: &mut BTreeMap<u64, u64>,
) -> Result<Option<ImageFault>, AllocError>
    requires view { IsView view }
    requires none { pairs_in pairs.old.entries ≡ empty }
    ensures fault { IfOk result (λ fault. fault ≡ maps_fault (layout_of_view view.entry) view.entry.sizes (rooms_of view.entry)) }
    ensures pairs { IfOk result (λ fault. fault ≡ None → HasAllPairs (layout_of_view view.entry) view.entry.sizes (rooms_of view.entry) (pairs_in pairs.new.entries)) }
{
    for room in 0..view.sizes.shards {
        let cells = view.cells(room);
        if let Some(fault) = check_map(alloc, cells, view.heads, u64::from(room), pairs)? {
            return Ok(Some(fault.in_room(room)));
        }
    }
    Ok(None)
}

/// The first fault of the queue room.
fn check_queue_room(alloc: Global, view: View) -> Result<Option<ImageFault>, AllocError>
    requires { IsView view }
    ensures { IfOk result (λ fault. fault ≡ queue_room_fault view.entry.sizes (rooms_of view.entry)) }
{
    let room = view.sizes.queue_room();
    match check_queue(alloc, view.cells(room))? {
        Some(fault) => Ok(Some(fault.in_room(room))),
        None => Ok(None),
    }
}

/// The first fault of a whole image. Where there is none, the pairs of all shards are kept. Want of memory is the one
/// refusal.
pub(crate) fn first_fault(
    alloc: Global,
    view: View,
    pairs: &mut BTreeMap<u64, u64>,
) -> Result<Option<ImageFault>, AllocError>
    requires view { IsView view }
    requires none { pairs_in pairs.old.entries ≡ empty }
    ensures fault { IfOk result (λ fault. fault ≡ image_fault (layout_of_view view.entry) view.entry.sizes (rooms_of view.entry)) }
    ensures pairs { IfOk result (λ fault. fault ≡ None → HasAllPairs (layout_of_view view.entry) view.entry.sizes (rooms_of view.entry) (pairs_in pairs.new.entries)) }
{
    if let Some(fault) = check_epoch(view.epoch) {
        return Ok(Some(fault));
    }
    if let Some(fault) = check_tags(view) {
        return Ok(Some(fault));
    }
    if let Some(fault) = check_maps(alloc, view, pairs)? {
        return Ok(Some(fault));
    }
    check_queue_room(alloc, view)
}
