//! The words after the program's name, and what they ask for.
//!
//! Nothing here keeps a state. The words are first tested against the forms, by comparing texts; what passes is read with `clap`, and
//! what a form says comes from its matches. All else has no form, also words that `clap` would take: no words at all, a name that is
//! empty or begins with a dash, a number with a plus or with zeros in front, two dashes alone or before a number.
//!
//! A contract sees words as their texts, and a form as its kind with a name or a number. Proved here: that `form_of` gives the form that the
//! words have, and none exactly where they have none; that `clap` takes the words of each form, and finds the stated values; and
//! that memory is wanted only for words that have a form. Only tested: that memory suffices.
#![tactic(auto)]

mod command;
mod form;
mod form_test;
mod matching;

pub use form::{Form, form_of};

#[cfg(test)]
mod tests;
