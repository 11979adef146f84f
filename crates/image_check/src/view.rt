//! An image as it is checked: its rooms, with what is asked of each of them.

ghost use Rattle.std.specs.Prelude.{◌≡◌, ◌<◌, [], length, slice_index, slice_index_or};
ghost use Rattle.room_model.specs.MapRoom.{live_layout};
ghost use Rattle.room_model.specs.Image.{lines_at, triples_at};
ghost use Rattle.power_cut.specs.Image.{sizes_in, rooms_in, IsWhole};
ghost use Rattle.image_check.specs.Cells.{words_of, rooms_of, layout_of_view, IsView};

use crate::cells::Cells;
use power_cut::Image;
use room_model::{Heads, LIVE_HEADS};
use seq_object::Sizes;

/// The rooms of an image, its sizes, its epoch, and where its map rooms have the heads of their buckets.
#[derive(Clone, Copy)]
pub(crate) struct View<'a> {
    pub rooms: &'a [Vec<[u64; 8]>],
    pub sizes: Sizes,
    pub epoch: u64,
    pub heads: Heads,
}

impl<'a> View<'a> {
    /// The view of a whole image. The epoch is word 0 of the super room's line, whatever it is.
    pub(crate) fn of(image: &'a Image) -> View<'a>
        requires { IsWhole image.now }
        ensures rooms { rooms_of result ≡ rooms_in image.now }
        ensures sizes { result.sizes ≡ sizes_in image.now }
        ensures layout { layout_of_view result ≡ live_layout }
        ensures view { IsView result }
    {
        let sizes = image.sizes();
        let rooms = image.rooms.as_slice();
        let super_lines = rooms[sizes.super_room() as usize].as_slice();
        View {
            rooms,
            sizes,
            epoch: first_word(super_lines),
            heads: LIVE_HEADS,
        }
    }

    /// The lines of a room.
    pub(crate) fn cells(self, room: u32) -> Cells<'a>
        requires { room < length self.rooms.now }
        ensures lines { result.lines.now ≡ lines_at (rooms_of self.entry) room }
        ensures words { words_of result ≡ triples_at self.entry.epoch (lines_at (rooms_of self.entry) room) }
        ensures epoch { result.epoch ≡ self.entry.epoch }
        ensures sizes { result.sizes ≡ self.entry.sizes }
    {
        Cells {
            lines: self.rooms[room as usize].as_slice(),
            epoch: self.epoch,
            sizes: self.sizes,
        }
    }
}

/// Word 0 of line 0.
fn first_word(lines: &[[u64; 8]]) -> u64
    requires { 0 < length lines.now }
    ensures { result ≡ slice_index (slice_index_or lines.now 0 []) 0 }
{
    lines[0][0]
}
