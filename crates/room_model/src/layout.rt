//! Where rooms of cells have what they have, as values that run: the words of a cell and of a header, the first node lines,
//! and the heads of buckets.

/// The word of a cell that has its tag. Its record is words 0 to 2, its backup words 3 to 5.
pub const TAG: u32 = 6;

/// The line of the header of a map room and of the queue room.
pub const HEADER: u32 = 0;

/// The word of a header that names the first free line, and of a free line that names the next one; 0 is none.
pub const FREE: u32 = 0;

/// The word of a header that names the first line that was never given out.
pub const FRESH: u32 = 1;

/// The word of a header that counts the pairs or items.
pub const COUNT: u32 = 2;

/// How many buckets a map room has.
pub const BUCKETS: u32 = 8;

/// The first node line of the queue room, as the header of a formatted room names it.
pub const QUEUE_FIRST: u64 = 2;

/// The epoch in which a life over formatted memory begins.
pub const FIRST_EPOCH: u32 = 1;

/// The layout of the map rooms on which lives run.
pub const LIVE_HEADS: Heads = Heads::OneALine;

/// Where a map room has the heads of its buckets.
#[derive(Clone, Copy, Debug, PartialEq, Eq)]
pub enum Heads {
    /// Each is word 0 of a line of its own.
    OneALine,
    /// Three lie in a line.
    ThreeALine,
}

impl Heads {
    ghost use Rattle.std.specs.Prelude.{◌≡◌, ◌<◌, ◌≤◌};
    ghost use Rattle.room_model.specs.MapRoom.{layout_of};

    /// The first node line of a map room, as the header of a formatted room names it. The lines before it are the header and
    /// the heads.
    pub fn first_node(self) -> u64
        ensures { result ≡ (layout_of self).first }
    {
        match self {
            Heads::OneALine => 9,
            Heads::ThreeALine => 4,
        }
    }

    /// The line of the head of a bucket, by the bucket's number from 0 to 7.
    pub fn head_line(self, bucket: u32) -> u32
        requires { bucket < 8 }
        ensures is { result ≡ (layout_of self).head_line bucket }
        ensures few { result ≤ 8 }
    {
        match self {
            Heads::OneALine => bucket + 1,
            Heads::ThreeALine => bucket / 3 + 1,
        }
    }

    /// The word of that line that names the first node of the bucket, or is 0.
    pub fn head_word(self, bucket: u32) -> u32
        ensures is { result ≡ (layout_of self).head_word bucket }
        ensures few { result < 3 }
    {
        match self {
            Heads::OneALine => 0,
            Heads::ThreeALine => bucket % 3,
        }
    }
}
