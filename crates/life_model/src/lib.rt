//! What a life is: how it begins, when its history and marks are legal, how it ends, and what a power cut leaves of it.
#![tactic(auto)]

mod life;

pub use life::{Life, Mark, Outcome};
