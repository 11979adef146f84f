//! The rule of the table: its words and slots, and the views at its seats, make a lawful yard.

use crate::known::Known;
use atomic_table::{Seat, Table, TableRule};
use std::alloc::Global;
use std::collections::LinkedList;
use std::snapshot::Snapshot;
use yard_model::{Beginning, Room};

/// What the life begins with, told when the table is made.
pub type YardKey = Snapshot<Beginning>;

/// The rule.
pub struct YardRule;

impl TableRule<Option<Room>, LinkedList<Known>, YardKey> for YardRule {
    ghost use Rattle.shared_yard.specs.Rule.{IsLawfulTable, opening_knowns};

    ghost holds = { λ _. IsLawfulTable };

    ghost first = { λ key. opening_knowns key.value };
}

/// The words and the rooms.
pub type YardTable = Table<Option<Room>, LinkedList<Known>, YardKey, YardRule, Global>;

/// A seat at the table, of some threads.
pub type TableSeat = Seat<Option<Room>, LinkedList<Known>>;
