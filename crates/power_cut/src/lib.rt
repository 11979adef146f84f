//! Images: what a power cut leaves of a whole memory, as lists of words, as bytes, and as a memory again.
//!
//! An image has the sizes of a memory and the words of each line of each room. `cut` makes one of a memory by a choice of
//! which pending stores are kept. `image_bytes` spells an image as bytes and `read_image` reads it back, or names the first
//! fault of bytes that spell none. `image_memory` makes a memory of an image, with nothing pending.
//!
//! A contract sees an image as its sizes and its rooms as lists of lists of words. It is whole where its sizes are within
//! their limits, it has the rooms and lines of these sizes, and each line has eight words of 64 bits. Proved here: that `cut`
//! leaves exactly what the choice keeps, that bytes and images are tied one to one both ways, that each fault comes exactly
//! where it is the first in the stated order, and that an image's memory leaves that image under every choice. That an
//! image is lawful, and the faults of words that are not, is said and judged above; the texts of the faults are only tested.
#![tactic(auto)]

mod cutting;
mod fault;
mod head;
mod image;
mod laws;
mod reading;
mod remaking;
mod writing;

pub use cutting::cut;
pub use fault::{ImageFault, ReadImageRefusal};
pub use image::Image;
pub use laws::image_laws;
pub use reading::read_image;
pub use remaking::image_memory;
pub use writing::image_bytes;

#[cfg(test)]
mod tests;
