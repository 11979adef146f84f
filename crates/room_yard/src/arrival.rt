//! What an arrival word allows a thread, and the word with which an epoch begins.

ghost use Rattle.std.specs.Prelude.{◌≡◌, ◌≤◌, ◌↔◌, IsTrue};
ghost use Rattle.room_yard.specs.Calls.{AllowsLeave, AllowsClaim};
ghost use Rattle.room_yard.specs.Answers.{next_word};

use block_allow::may_leave;
use restart_point::{Arrival, ThreadEnd};

/// Whether a thread of this end, which last ran in this epoch, may leave by this word.
pub fn allows_leave(word: u64, end: ThreadEnd, ran: u32) -> bool
    ensures { IsTrue result ↔ AllowsLeave end ran word }
{
    let arrival = Arrival::of(word);
    !arrival.closing && !arrival.over && ran < arrival.epoch && may_leave(end, arrival.fed)
}

/// Whether one of so many threads, which last ran in this epoch, may claim the closing of it by this word: all of them stand.
pub fn allows_claim(word: u64, threads: u32, ran: u32) -> bool
    ensures { IsTrue result ↔ AllowsClaim threads ran word }
{
    let arrival = Arrival::of(word);
    arrival.all_stand(threads) && !arrival.closing && !arrival.over && arrival.epoch == ran
}

/// The arrival word with which an epoch begins: each of so many threads, at most 16, stands, and none closes.
pub fn word_of_epoch(threads: u32, over: bool, fed: bool, epoch: u32) -> u64
    requires { threads ≤ 16 }
    ensures { result ≡ next_word threads over fed epoch }
{
    let arrival = Arrival {
        mask: ((1_u32 << threads) - 1) as u16,
        closing: false,
        over,
        fed,
        epoch,
    };
    arrival.word()
}
