//! What is wrong with an image. The first five faults are those of its bytes; the others are those of its words, in the
//! order in which they are looked for.

ghost use Rattle.std.specs.Prelude.{◌≡◌};
ghost use Rattle.power_cut.specs.declared.fault.ReadImageRefusal.TheVariants.{OutOfMemory};

use std::alloc::AllocError;
use std::error::Error;
use std::fmt;

/// The first fault of an image.
#[derive(Clone, Copy, Debug, PartialEq, Eq)]
pub enum ImageFault {
    /// There are fewer bytes than an image has, or fewer than its head.
    Short,
    /// There are more bytes than the image has.
    Long,
    /// The bytes do not begin as those of an image.
    Magic,
    /// The image has another version than 1.
    Version,
    /// The sizes are beyond their limits.
    Settings,
    /// The epoch is 0, or too large.
    Epoch,
    /// A cell is ahead of the epoch.
    TagAhead {
        /// The number of its room, from 0.
        room: u32,
        /// The number of its line in the room, from 0.
        line: u32,
    },
    /// The first lines of this room do not fit.
    Header {
        /// The number of the room, from 0.
        room: u32,
    },
    /// A chain of this room leads astray.
    Chain {
        /// The number of the room, from 0.
        room: u32,
    },
    /// The list of free lines of this room leads astray.
    FreeList {
        /// The number of the room, from 0.
        room: u32,
    },
    /// The lines of this room are not all there, or miscounted.
    Count {
        /// The number of the room, from 0.
        room: u32,
    },
    /// The last line of this queue is not the one that is named.
    Ends {
        /// The number of the room, from 0.
        room: u32,
    },
}

impl fmt::Display for ImageFault {
    ghost use Rattle.std.specs.Prelude.{Some};
    ghost use Rattle.power_cut.specs.FaultText.{fault_text};

    ghost output = { λ fault. Some (fault_text fault) };

    /// The text of the fault, as it stands on standard error behind `image: `.
    fn fmt<W: fmt::Write>(&self, f: &mut fmt::Formatter<W>) -> fmt::Result {
        match self {
            ImageFault::Short => write!(f, "short"),
            ImageFault::Long => write!(f, "long"),
            ImageFault::Magic => write!(f, "magic"),
            ImageFault::Version => write!(f, "version"),
            ImageFault::Settings => write!(f, "settings"),
            ImageFault::Epoch => write!(f, "epoch"),
            ImageFault::TagAhead { room, line } => write!(f, "tag ahead, room {room}, line {line}"),
            ImageFault::Header { room } => write!(f, "header, room {room}"),
            ImageFault::Chain { room } => write!(f, "chain, room {room}"),
            ImageFault::FreeList { room } => write!(f, "free list, room {room}"),
            ImageFault::Count { room } => write!(f, "count, room {room}"),
            ImageFault::Ends { room } => write!(f, "ends, room {room}"),
        }
    }
}

impl Error for ImageFault {}

/// Why an image is not read.
#[derive(Clone, Copy, Debug, PartialEq, Eq)]
pub enum ReadImageRefusal {
    /// It is none, by this first fault.
    Fault(ImageFault),
    /// The memory of the machine did not suffice.
    OutOfMemory,
}

impl From<AllocError> for ReadImageRefusal {
    ghost from_gives = { λ _ refusal. refusal ≡ OutOfMemory };

    fn from(_e: AllocError) -> ReadImageRefusal {
        ReadImageRefusal::OutOfMemory
    }
}
