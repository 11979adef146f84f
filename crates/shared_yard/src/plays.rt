//! The steps on the table: what each tells of the seat, by the word that it found.
ghost use Rattle.shared_yard.specs.Plays.{Locks, Unlocks, Retreats, Draws, Stands, Looks, Leaves, Claims, Notes, Releases, Powers, Ticks, Offs};

use crate::known::Known;
use atomic_table::Play;
use std::collections::LinkedList;
use std::marker::{Brand, PhantomData};
use yard_model::Room;

/// Takes a room out of its slot, or finds its lock taken.
pub(crate) struct Lock;

impl Play<Option<Room>, LinkedList<Known>> for Lock {
    ghost then = { Locks };
}

/// Gives the room in the slot back, free.
pub(crate) struct Unlock;

impl Play<Option<Room>, LinkedList<Known>> for Unlock {
    ghost then = { Unlocks };
}

/// Gives the room in the slot back, dead.
pub(crate) struct Retreat;

impl Play<Option<Room>, LinkedList<Known>> for Retreat {
    ghost then = { Retreats };
}

/// Names the entry that is drawn.
pub trait Drawn {
    ghost use Rattle.seq_object.specs.declared.history.Entry.{Entry};

    ghost entry: { Entry };
}

impl Drawn for Brand {
    ghost use Rattle.shared_yard.specs.Plays.{no_entry};

    ghost entry = { no_entry };
}

/// Draws an entry, which the type names.
pub(crate) struct Draw<D> {
    of: PhantomData<D>,
}

impl<D: Drawn> Play<Option<Room>, LinkedList<Known>> for Draw<D> {
    ghost then = { Draws D.entry };
}

/// Sets the thread's bit of the arrival word.
pub(crate) struct Stand;

impl Play<Option<Room>, LinkedList<Known>> for Stand {
    ghost then = { Stands };
}

/// Looks at a word.
pub(crate) struct Look;

impl Play<Option<Room>, LinkedList<Known>> for Look {
    ghost then = { Looks };
}

/// Clears the thread's bit of the arrival word, or looks at it.
pub(crate) struct Leave;

impl Play<Option<Room>, LinkedList<Known>> for Leave {
    ghost then = { Leaves };
}

/// Sets the closing bit of the arrival word, or looks at it.
pub(crate) struct Claim;

impl Play<Option<Room>, LinkedList<Known>> for Claim {
    ghost then = { Claims };
}

/// Notes how many entries are drawn.
pub(crate) struct Note;

impl Play<Option<Room>, LinkedList<Known>> for Note {
    ghost then = { Notes };
}

/// Writes the arrival word of the next epoch.
pub(crate) struct Release;

impl Play<Option<Room>, LinkedList<Known>> for Release {
    ghost then = { Releases };
}

/// Looks whether the power is on.
pub(crate) struct Power;

impl Play<Option<Room>, LinkedList<Known>> for Power {
    ghost then = { Powers };
}

/// Counts an event.
pub(crate) struct Tick;

impl Play<Option<Room>, LinkedList<Known>> for Tick {
    ghost then = { Ticks };
}

/// Turns the power off.
pub(crate) struct Off;

impl Play<Option<Room>, LinkedList<Known>> for Off {
    ghost then = { Offs };
}
