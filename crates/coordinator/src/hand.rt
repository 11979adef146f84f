//! What a thread that closes an epoch has in hand.

ghost use Rattle.std.specs.Prelude.{◌≡◌};

use epoch_word::{EpochStage, SuperRoom};
use rooms::Room;
use std::mem;

/// How far a closing has come: the room in hand, and what its next event is.
#[derive(Drop)]
pub enum Hand {
    /// No room is in hand, and not all are done: the next is taken.
    Empty,
    /// Lines are left to be written back.
    Flushing(Room),
    /// All lines are written back, and a fence is due.
    Flushed(Room),
    /// The room is in memory, and goes home.
    Shut(Room),
    /// The super room, and how far the write of the next epoch has come. Once that is in memory the room goes home.
    Epoch(EpochStage, SuperRoom),
    /// All rooms are done, and the epoch is released.
    AllDone,
    /// The epoch was released, or a room in hand was given up.
    Over,
}

/// Puts this in hand, where a closing is over or its hand was taken out of it.
pub fn put_in(slot: &mut Hand, hand: Hand)
    requires { slot.old ≡ Hand.Over }
    ensures { slot.new ≡ hand }
{
    let old = mem::replace(slot, hand);
    match old {
        Hand::Over => {}
        Hand::Empty | Hand::AllDone => unreachable!(),
        Hand::Flushing(_) | Hand::Flushed(_) | Hand::Shut(_) | Hand::Epoch(_, _) => unreachable!(),
    }
}

/// Ends a closing of which all rooms are done.
pub fn end_hand(slot: &mut Hand)
    requires { slot.old ≡ Hand.AllDone }
    ensures { slot.new ≡ Hand.Over }
{
    let old = mem::replace(slot, Hand::Over);
    match old {
        Hand::AllDone => {}
        Hand::Empty | Hand::Over => unreachable!(),
        Hand::Flushing(_) | Hand::Flushed(_) | Hand::Shut(_) | Hand::Epoch(_, _) => unreachable!(),
    }
}
