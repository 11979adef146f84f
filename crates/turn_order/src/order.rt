//! The turns of a mode, given one after the other.

ghost use Rattle.std.specs.Prelude.{◌≡◌, ◌<◌, slice_get};
ghost use Rattle.script_text.specs.Program.{turns_of};
ghost use Rattle.script_text.specs.Schedules.{schedule_of};
ghost use Rattle.turn_order.specs.Orders.{first_turn, IsOrderOf, IsBehind};

use rand_core::SeedableRng;
use rand_core::utils::NextWord;
use rand_xoshiro::SplitMix64;
use script_text::Mode;
use std::marker::Model;

/// How many turns were given, and the generator of a seed behind them. A turn is given only where there is one, so the count stays within
/// what a mode can have of them, which is the length of a list at the most.
#[derive(Drop)]
pub struct TurnOrder {
    threads: u32,
    given: usize,
    words: SplitMix64,
}

impl Model for TurnOrder {
    ghost use Rattle.turn_order.specs.Orders.{OrderState};

    ghost Value = { OrderState };

    ghost view = { λ a. record { threads = a.threads; given = a.given; words = a.words } };
}

impl TurnOrder {
    /// No turn of this mode is given yet, for so many threads. No word of a seed is drawn yet.
    pub fn of(threads: u32, mode: &Mode) -> TurnOrder
        ensures is { result ≡ first_turn threads result.words }
        ensures order { IsOrderOf (turns_of mode.now) result }
    {
        let seed = match *mode {
            Mode::Seeded(seed, _) => seed,
            Mode::RoundRobin(_) | Mode::Listed(_) | Mode::Live(_) => 0,
        };
        TurnOrder {
            threads,
            given: 0,
            words: SplitMix64::seed_from_u64(seed),
        }
    }

    /// The thread of the next turn, from 0 on. There is none where all turns were given, and never one where threads run by themselves;
    /// then nothing is counted. `mode` is the one with which the order began. Each turn costs the same, however many were given: it draws
    /// one word at the most, and looks at one place of a list at the most.
    #[tactic(auto, using(crate::proofs::Turns::no_turn))]
    pub fn next(&mut self, mode: &Mode) -> Option<u32>
        requires threads { 0 < self.old.threads }
        requires order { IsOrderOf (turns_of mode.now) self.old }
        ensures thread { result ≡ slice_get (schedule_of self.old.threads (turns_of mode.now)) self.old.given }
        ensures order { IsOrderOf (turns_of mode.now) self.new }
        ensures behind { IsBehind result self.old self.new }
    {
        let turn = self.given;
        let thread = match mode {
            Mode::RoundRobin(n) if turn < *n as usize => (turn % self.threads as usize) as u32,
            Mode::Seeded(_, n) if turn < *n as usize => {
                (self.words.next_word() % u64::from(self.threads)) as u32
            }
            Mode::Listed(threads) if turn < threads.len() => threads[turn],
            _ => return None,
        };
        self.given += 1;
        Some(thread)
    }
}
