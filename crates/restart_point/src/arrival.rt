//! What the arrival word says. Threads read and change this one word to begin an epoch, to stand at its end, and to learn
//! whether it is being closed.

ghost use Rattle.std.specs.Prelude.{◌≡◌, ◌↔◌, ◌≤◌, ◌<◌, IsTrue, IsBitSet};
ghost use Rattle.restart_point.specs.ArrivalWord.{arrival_of, word_of, is_set, bit_at, AllStand};

/// What the arrival word says.
#[derive(Clone, Copy, Debug, PartialEq, Eq)]
pub struct Arrival {
    /// The threads that stand, one bit each: bit i is that of thread i, from 0 to 15.
    pub mask: u16,
    /// Whether one thread closes the epoch. All threads stand then.
    pub closing: bool,
    /// Whether the life is over. No thread leaves or closes then.
    pub over: bool,
    /// Whether the epoch began with an item in the queue.
    pub fed: bool,
    /// The epoch that runs.
    pub epoch: u32,
}

impl Arrival {
    /// What a word says: bits 0 to 15 are the mask, bit 16 is closing, bit 17 over, bit 18 fed, and bits 32 to 63 are the
    /// epoch. Bits 19 to 31 say nothing.
    pub fn of(word: u64) -> Arrival
        ensures { result ≡ arrival_of word }
    {
        Arrival {
            mask: (word % (1 << 16)) as u16,
            closing: has_bit(word, 16),
            over: has_bit(word, 17),
            fed: has_bit(word, 18),
            epoch: (word >> 32) as u32,
        }
    }

    /// The word that says this. Its bits 19 to 31 are 0.
    pub fn word(&self) -> u64
        ensures { result ≡ word_of self.now }
    {
        let marks = bit(16, self.closing) + bit(17, self.over) + bit(18, self.fed);
        u64::from(self.mask) + marks + (u64::from(self.epoch) << 32)
    }

    /// Whether each of the threads 0 to `threads - 1` stands. Of more than 16 threads this is never so.
    pub fn all_stand(&self, threads: u32) -> bool
        ensures { IsTrue result ↔ AllStand self.now.mask threads }
    {
        for thread in 0..threads {
            if !self.stands(thread) {
                return false;
            }
        }
        true
    }

    /// Whether this thread stands.
    fn stands(&self, thread: u32) -> bool
        ensures { IsTrue result ↔ IsBitSet self.now.mask thread }
    {
        let mask = u32::from(self.mask);
        thread < 16 && (mask >> thread) & 1 == 1
    }
}

/// Whether the bit of this number, from 0 to 63, is set in the word.
fn has_bit(word: u64, number: u32) -> bool
    requires { number < 64 }
    ensures { result ≡ is_set word number }
{
    (word >> number) % 2 == 1
}

/// The word that has this one bit, of a number from 0 to 31, or none.
fn bit(number: u32, is: bool) -> u64
    requires { number < 32 }
    ensures { result ≡ bit_at number is }
{
    if is { 1 << number } else { 0 }
}
