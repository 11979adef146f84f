//! What a closing learns of the rooms that are done.

ghost use Rattle.std.specs.Prelude.{◌≡◌, ◌+◌, ◌<◌, ◌^◌};
ghost use Rattle.coordinator.specs.Learnts.{learnt_with, verdict_with};

use block_allow::Verdict;
use restart_point::ThreadEnd;
use rooms::Room;

/// What a closing has learnt of the rooms that are done.
#[derive(Clone, Copy, Debug, PartialEq, Eq)]
pub struct Learnt {
    /// How many rooms are done. They are done in the order of their numbers.
    pub rooms: u32,
    /// Whether the queue has an item, once the queue room is done.
    pub fed: bool,
    /// What the ends of the threads say whose rooms are done.
    pub verdict: Verdict,
}

impl Learnt {
    /// With one more room done.
    pub fn with(self, room: &Room) -> Learnt
        requires { self.rooms + 1 < 2 ^ 32 }
        ensures { result ≡ learnt_with self room.now }
    {
        let mut next = self;
        next.rooms += 1;
        match room {
            Room::Map(_) | Room::Super(_) => {}
            Room::Queue(queue) => next.fed = !queue.is_empty(),
            Room::Thread(thread) => next.verdict = with_end(self.verdict, thread.end(), self.fed),
        }
        next
    }
}

/// What the ends of threads say with one end more.
fn with_end(so_far: Verdict, end: ThreadEnd, fed: bool) -> Verdict
    ensures { result ≡ verdict_with so_far end fed }
{
    match end {
        ThreadEnd::Ready => Verdict::Goes,
        ThreadEnd::Waits => {
            if fed || matches!(so_far, Verdict::Goes) {
                Verdict::Goes
            } else {
                Verdict::Stalled
            }
        }
        ThreadEnd::Ended => so_far,
    }
}
