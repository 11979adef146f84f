//! The laws of images and of lives, over plain data. Each law is the contract of a function that does nothing, so that the gate proves it.
//!
//! The crate keeps no state, has no code and nothing to test. `images` says what a power cut leaves of a memory and what that recovers
//! to. `life` says which steps keep a life legal and when its memory is safe, `ends` how it ends, and `work` how much is done and how many
//! lines the stores of a command make pending. `lives` has the law on lists of lives: what is left of lives, each resumed from an image
//! that the one before left, holds the kept prefixes of their histories, joined in order. `examples` and `cuts` try the definitions on
//! lives, rooms, memories and reports that were worked out by hand: some that meet them, and for a clause one that meets the others and not
//! this one. That a program's memory and history meet the premises of these laws is proved in the crates above.
#![tactic(auto)]

pub mod cuts;
pub mod ends;
pub mod examples;
pub mod images;
pub mod life;
pub mod lives;
pub mod work;
