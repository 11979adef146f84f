//! What recovery came to.

/// What recovery of the words that a cut left came to.
#[derive(Debug, Drop)]
pub enum Outcome {
    /// A state, in words of the author's choice, as the values of the variables.
    State(Vec<u64>),
    /// The words are not those of a store: recovery gave up.
    Refused,
    /// Recovery would have taken more steps than it may.
    Endless,
}
