//! What a worker has in hand is put into its place.

ghost use Rattle.std.specs.Prelude.{◌≡◌};

use std::mem;
use worker_model::Hand;

/// Puts this in hand, where nothing was.
pub(crate) fn put_in(slot: &mut Hand, hand: Hand)
    requires { slot.old ≡ Hand.Empty }
    ensures { slot.new ≡ hand }
{
    let old = mem::replace(slot, hand);
    match old {
        Hand::Empty => {}
        Hand::Commands(_, _) | Hand::Drawn(_) | Hand::NoItem(_) => unreachable!(),
        Hand::Own(_) | Hand::Closes(_) | Hand::Refused(_) => unreachable!(),
    }
}
