//! A thread's seat at the yard.

ghost use Rattle.std.specs.Prelude.{◌≡◌, ◌∷◌, []};
ghost use Rattle.shared_yard.specs.Rule.{one_known, one_view};
ghost use Rattle.shared_yard.specs.Hands.{IsHand, slots_out};

use crate::rule::TableSeat;
use yard_model::Phase;

/// A thread's seat, while no handle has it. It may be sent to another thread.
#[derive(Drop)]
pub struct YardSeat {
    pub(crate) seat: TableSeat,
    pub(crate) thread: u32,
    pub(crate) phase: Phase,
    pub(crate) room: Option<u32>,
    pub(crate) ran: u32,
    pub(crate) off: bool,
    ghost hand: { IsHand seat.me (one_view seat.me.0).beginning thread phase room ran off },
}

impl YardSeat {
    /// The thread's number.
    pub fn thread(&self) -> u32
        ensures { result ≡ (one_view self.now.seat.me.0).thread }
    {
        self.thread
    }

    /// The seat at the table. It takes no memory.
    pub(crate) fn into_table_seat(self) -> TableSeat
        ensures table { result.table_id ≡ self.seat.table_id }
        ensures known { result.me.0 ≡ one_known self.seat.me.0 ∷ [] }
        ensures slots { result.me.1 ≡ slots_out self.room }
    {
        let YardSeat {
            seat,
            thread: _,
            phase: _,
            room: _,
            ran: _,
            off: _,
        } = self;
        seat
    }
}
