//! Seats are split among threads, and joined again when a life ends.

use crate::known::Known;
use atomic_table::{Join, Split};
use std::collections::LinkedList;

/// What is known of the first thread goes to the new seat.
pub(crate) struct First;

impl Split<LinkedList<Known>> for First {
    ghost use Rattle.shared_yard.specs.Seats.{first_known, rest_knowns};

    ghost left = { rest_knowns };

    ghost right = { first_known };
}

/// The seat has what is known at both.
pub(crate) struct Both;

impl Join<LinkedList<Known>> for Both {
    ghost use Rattle.std.specs.Prelude.{[], ◌++◌};

    ghost both = { λ l m. l ++ m };

    ghost spent = { [] };
}
