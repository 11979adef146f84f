//! The lines that a choice leaves of a bank, by one loop for each form of choice.

ghost use Rattle.std.specs.Prelude.{◌≡◌, ◌+◌, ◌<◌, ◌^◌, IfOk, OnOk, length};
ghost use Rattle.room_model.specs.Image.{surviving_lines};
ghost use Rattle.store_order.specs.Choice.{kept_of, state_after, IsDrawnTo};
ghost use Rattle.rand_xoshiro.specs.SplitMix64.{mix_u64, next_state};
ghost use Rattle.store_order.specs.declared.choice.Choice.TheVariants.{Nothing, All as AllOfThem, Seed};

use crate::choice::{Choice, Kept};
use crate::left::line_left;
use crate::listed::counts_listed;
use line_memory::Bank;
use rand_core::SeedableRng;
use rand_core::utils::NextWord;
use rand_xoshiro::SplitMix64;
use std::alloc::{AllocError, Global};

/// The lines that the choice leaves of the bank, where `first` is the number through all rooms of the bank's first line.
/// Want of memory is the one refusal; it leaves the bank as it was. The sum of `first` and the number of the lines is
/// below 2^32.
pub fn survive(
    alloc: Global,
    bank: &Bank,
    choice: &Choice,
    first: u32,
) -> Result<Vec<[u64; 8]>, AllocError>
    requires { first + length bank.now.lines < 2 ^ 32 }
    ensures { IfOk result (λ v. v.items ≡ surviving_lines (kept_of choice.now first bank.now.lines) 0 bank.now.lines) }
{
    match choice {
        Choice::Nothing => left_of_nothing(alloc, bank),
        Choice::All => left_of_all(alloc, bank),
        Choice::Seed(seed) => {
            left_of_seed(alloc, bank, *seed, first, &mut words_from(*seed, first))
        }
        Choice::List(entries) => left_of_list(alloc, bank, entries, first),
    }
}

/// The generator from which a choice draws, before its first word. A choice without a seed does not draw.
pub fn generator_of(choice: &Choice) -> SplitMix64
    ensures { IsDrawnTo choice.now 0 result }
{
    match choice {
        Choice::Seed(seed) => words_from(*seed, 0),
        _ => words_from(0, 0),
    }
}

/// The lines that the choice leaves of the bank, where the generator has drawn for the lines before it, and then for those of
/// the bank too. So a walk over the banks of a memory draws each word once. `first` and the refusal are as for one bank; after
/// a refusal the generator is of no use.
pub fn survive_next(
    alloc: Global,
    bank: &Bank,
    choice: &Choice,
    first: u32,
    words: &mut SplitMix64,
) -> Result<Vec<[u64; 8]>, AllocError>
    requires lines { first + length bank.now.lines < 2 ^ 32 }
    requires drawn { IsDrawnTo choice.now first words.old }
    ensures left { IfOk result (λ v. v.items ≡ surviving_lines (kept_of choice.now first bank.now.lines) 0 bank.now.lines) }
    ensures drawn { OnOk result (IsDrawnTo choice.now (first + length bank.now.lines) words.new) }
{
    match choice {
        Choice::Seed(seed) => left_of_seed(alloc, bank, *seed, first, words),
        Choice::Nothing => left_of_nothing(alloc, bank),
        Choice::All => left_of_all(alloc, bank),
        Choice::List(entries) => left_of_list(alloc, bank, entries, first),
    }
}

/// The bases of the lines.
fn left_of_nothing(alloc: Global, bank: &Bank) -> Result<Vec<[u64; 8]>, AllocError>
    ensures { IfOk result (λ v. v.items ≡ surviving_lines (kept_of Nothing 0 bank.now.lines) 0 bank.now.lines) }
{
    let mut made = Vec::with_capacity(alloc, bank.lines() as usize)?;
    for line in 0..bank.lines() {
        made.push(line_left(bank, line, 0))?;
    }
    Ok(made)
}

/// The lines with all their pending stores made.
fn left_of_all(alloc: Global, bank: &Bank) -> Result<Vec<[u64; 8]>, AllocError>
    ensures { IfOk result (λ v. v.items ≡ surviving_lines (kept_of AllOfThem 0 bank.now.lines) 0 bank.now.lines) }
{
    let mut made = Vec::with_capacity(alloc, bank.lines() as usize)?;
    for line in 0..bank.lines() {
        made.push(line_left(bank, line, bank.pending(line)))?;
    }
    Ok(made)
}

/// The lines with so many of their pending stores made as the words of this seed's generator say, which has drawn `first` of
/// them.
fn left_of_seed(
    alloc: Global,
    bank: &Bank,
    seed: u64,
    first: u32,
    words: &mut SplitMix64,
) -> Result<Vec<[u64; 8]>, AllocError>
    requires { words.old ≡ state_after first seed }
    ensures drawn { OnOk result (words.new ≡ state_after (first + length bank.now.lines) seed) }
    ensures left { IfOk result (λ v. v.items ≡ surviving_lines (kept_of (Seed seed) first bank.now.lines) 0 bank.now.lines) }
{
    let mut made = Vec::with_capacity(alloc, bank.lines() as usize)?;
    for line in 0..bank.lines() {
        let pending = bank.pending(line);
        let kept = next_drawn(words) % (u64::from(pending) + 1);
        made.push(line_left(bank, line, kept as u32))?;
    }
    Ok(made)
}

/// The generator of this seed after its first `skipped` words.
pub fn words_from(seed: u64, skipped: u32) -> SplitMix64
    ensures { result ≡ state_after skipped seed }
{
    let mut words = SplitMix64::seed_from_u64(seed);
    for _i in 0..skipped {
        next_drawn(&mut words);
    }
    words
}

/// Draws the next word.
pub fn next_drawn(words: &mut SplitMix64) -> u64
    ensures word { result ≡ (mix_u64 words.old).0 }
    ensures state { words.new ≡ next_state words.old }
{
    words.next_word()
}

/// The lines with so many of their pending stores made as the list names, where so many are pending.
fn left_of_list(
    alloc: Global,
    bank: &Bank,
    entries: &Vec<Kept>,
    first: u32,
) -> Result<Vec<[u64; 8]>, AllocError>
    ensures { IfOk result (λ v. v.items ≡ surviving_lines (kept_of (Choice.List entries.now) first bank.now.lines) 0 bank.now.lines) }
{
    let counts = counts_listed(alloc, entries.as_slice(), first, bank.lines())?;
    let mut made = Vec::with_capacity(alloc, bank.lines() as usize)?;
    for (i, count) in counts.iter().enumerate() {
        let line = i as u32;
        let kept = (*count).min(bank.pending(line));
        made.push(line_left(bank, line, kept))?;
    }
    Ok(made)
}
