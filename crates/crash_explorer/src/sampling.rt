//! A sample of a cut's survivors: that which keeps nothing, that which keeps all, and those that seeds draw.

ghost use Rattle.std.specs.Prelude.{◌≡◌, ◌<◌, ◌+◌, IfOk, length};
ghost use Rattle.store_order.specs.declared.choice.Choice.TheVariants.{Seed};
ghost use Rattle.crash_explorer.specs.Sample.{AreKeptBy, sample};
ghost use Rattle.rand_xoshiro.specs.SplitMix64.{mix_u64, next_state};

use crate::counts::{copied, zeros};
use rand_core::utils::NextWord;
use rand_xoshiro::SplitMix64;
use std::alloc::{AllocError, Global};
use store_order::{Choice, generator_of};

/// How many stores each line keeps, as this seed draws them.
fn drawn(alloc: Global, most: &[u32], seed: u64) -> Result<Vec<u32>, AllocError>
    ensures { IfOk result (λ kept. AreKeptBy (Seed seed) most.now kept.items) }
{
    let mut words = generator_of(&Choice::Seed(seed));
    let mut kept = Vec::with_capacity(alloc, most.len())?;
    for m in most {
        kept.push((next_drawn(&mut words) % (u64::from(*m) + 1)) as u32)?;
    }
    Ok(kept)
}

/// The counts of choice number `j` of a sample.
pub(crate) fn sampled(
    alloc: Global,
    most: &[u32],
    seeds: &[u64],
    j: usize,
) -> Result<Vec<u32>, AllocError>
    requires { j < length seeds.now + 2 }
    ensures { IfOk result (λ kept. AreKeptBy (sample seeds.now j) most.now kept.items) }
{
    match j {
        0 => zeros(alloc, most.len()),
        1 => copied(alloc, most),
        _ => drawn(alloc, most, seeds[j - 2]),
    }
}

/// Draws the next word.
fn next_drawn(words: &mut SplitMix64) -> u64
    ensures word { result ≡ (mix_u64 words.old).0 }
    ensures state { words.new ≡ next_state words.old }
{
    words.next_word()
}
