//! The image of a memory: what stands in it when nothing is pending any more. It owns its words.

ghost use Rattle.std.specs.Prelude.{◌≡◌};
ghost use Rattle.power_cut.specs.Image.{sizes_in};

use seq_object::Sizes;

/// The sizes of a memory, and the words of all its lines.
#[derive(Debug, PartialEq, Eq, Drop)]
pub struct Image {
    /// How many threads there are, from 1 to 16.
    pub threads: u32,
    /// How many shards the map has, from 1 to 8.
    pub shards: u32,
    /// How many lines each map room and the queue room have, from 16 to 65,536.
    pub lines: u32,
    /// The lines of each room: the map rooms, the queue room, a room of one line for each thread, and the super room, which
    /// has one line too.
    pub rooms: Vec<Vec<[u64; 8]>>,
}

impl Image {
    /// The sizes that the image states.
    pub fn sizes(&self) -> Sizes
        ensures { result ≡ sizes_in self.now }
    {
        Sizes {
            threads: self.threads,
            shards: self.shards,
            lines: self.lines,
        }
    }
}
