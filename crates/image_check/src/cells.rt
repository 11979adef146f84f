//! A room of an image, whose cells are read as they recover at the image's epoch.

ghost use Rattle.std.specs.Prelude.{◌≡◌, ◌<◌, ◌≤◌, length};
ghost use Rattle.room_model.specs.MapRoom.{head, layout_of};
ghost use Rattle.image_check.specs.Cells.{words_of};
ghost use Rattle.image_check.specs.QueueFaults.{header_of};

use crate::room_fault::Header;
use room_model::{COUNT, FREE, FRESH, HEADER, Heads, TAG};
use room_walks::ReadsWords;
use seq_object::Sizes;

/// The lines of a room, the epoch at which they recover, and the sizes of the image.
#[derive(Clone, Copy)]
pub(crate) struct Cells<'a> {
    pub lines: &'a [[u64; 8]],
    pub epoch: u64,
    pub sizes: Sizes,
}

impl<'a> Cells<'a> {
    /// A word of the record that a line recovers to.
    pub(crate) fn word(self, line: usize, word: usize) -> u64
        requires line { line < length self.lines.now }
        requires word { word < 3 }
        ensures { result ≡ words_of self.entry line word }
    {
        let words = &self.lines[line];
        if words[TAG as usize] == self.epoch {
            words[word + 3]
        } else {
            words[word]
        }
    }

    /// The header of a room.
    pub(crate) fn header(self) -> Header
        requires { 0 < length self.lines.now }
        ensures { result ≡ header_of (words_of self.entry) }
    {
        Header {
            free: self.word(HEADER as usize, FREE as usize),
            fresh: self.word(HEADER as usize, FRESH as usize),
            count: self.word(HEADER as usize, COUNT as usize),
        }
    }

    /// The line of a bucket's first node, or 0.
    pub(crate) fn head(self, heads: Heads, bucket: u32) -> u64
        requires bucket { bucket < 8 }
        requires lines { 9 ≤ length self.lines.now }
        ensures { result ≡ head (layout_of heads) (words_of self.entry) bucket }
    {
        self.word(
            heads.head_line(bucket) as usize,
            heads.head_word(bucket) as usize,
        )
    }
}

impl<'a> ReadsWords for Cells<'a> {
    ghost words = { words_of };

    fn read(&self, line: u64, word: u32) -> u64 {
        let index = line as usize;
        if index < self.lines.len() {
            self.word(index, word as usize)
        } else {
            0
        }
    }
}
