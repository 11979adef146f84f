//! The summary of a drill: what is left of its commands, and how its last life ended.

ghost use Rattle.std.specs.Prelude.{◌≡◌, ◌++◌, ◌∷◌, [], ◌+◌, ◌%◌, ◌<◌, ◌^◌, sum, sum_by, IfOk, OnOk};
ghost use Rattle.std.specs.String.{string_bytes};
ghost use Rattle.script_text.specs.Text.{ended};
ghost use Rattle.script_text.specs.ReportText.{end_line};
ghost use Rattle.drill.specs.Summaries.{summary_over, count_lines, summary_bytes};

use image_check::Recovered;
use life_model::Outcome;
use seq_object::Pair;
use std::alloc::{AllocError, Global};

/// What is told of a drill.
#[derive(Clone, Copy, Debug, PartialEq, Eq)]
pub struct Summary {
    /// The number of the drill.
    pub number: u64,
    /// How many commands of all threads are kept: the sum of their positions.
    pub kept: u64,
    /// The epoch of the last image.
    pub epoch: u32,
    /// How many pairs the map has.
    pub pairs: u64,
    /// How many items the queue has.
    pub items: u64,
    /// The sum of the values of all pairs and items, modulo 2^64.
    pub values: u64,
    /// How the last life ended.
    pub outcome: Outcome,
}

/// The summary of a drill of this number whose last life ended so, over what its image recovers to. The positions together are below 2^64;
/// those of a drill are at most 200 each.
pub fn summary_of(number: u64, outcome: Outcome, found: &Recovered) -> Summary
    requires { sum found.now.positions.items < 2 ^ 64 }
    ensures { result ≡ summary_over number outcome found.now }
{
    Summary {
        number,
        kept: found.positions.iter().sum(),
        epoch: found.epoch,
        pairs: found.pairs.len() as u64,
        items: found.items.len() as u64,
        values: value_sum(found.pairs.as_slice(), found.items.as_slice()),
        outcome,
    }
}

/// The sum of the values of pairs and items, modulo 2^64.
fn value_sum(pairs: &[Pair], items: &[u64]) -> u64
    ensures { result ≡ (sum_by (λ p. p.value) pairs.now + sum items.now) % 2 ^ 64 }
{
    pair_sum(pairs).wrapping_add(item_sum(items))
}

/// The sum of the values of pairs, modulo 2^64.
fn pair_sum(pairs: &[Pair]) -> u64
    ensures { result ≡ sum_by (λ p. p.value) pairs.now % 2 ^ 64 }
{
    let mut all = 0u64;
    for pair in pairs {
        all = all.wrapping_add(pair.value);
    }
    all
}

/// The sum of items, modulo 2^64.
fn item_sum(items: &[u64]) -> u64
    ensures { result ≡ sum items.now % 2 ^ 64 }
{
    let mut all = 0u64;
    for item in items {
        all = all.wrapping_add(*item);
    }
    all
}

/// The text of a summary, each line with its line feed. Want of memory is the one refusal.
pub fn summary_text(alloc: Global, summary: &Summary) -> Result<Vec<u8>, AllocError>
    ensures { IfOk result (λ text. text.items ≡ summary_bytes summary.now) }
{
    let mut out = String::new(alloc);
    writeln!(out, "drill {}", summary.number)?;
    writeln!(out, "lives 9")?;
    push_counts(&mut out, summary)?;
    push_end(&mut out, summary.outcome)?;
    Ok(out.into_bytes())
}

/// Writes the lines of what is left at the end.
fn push_counts(out: &mut String, summary: &Summary) -> Result<(), AllocError>
    ensures { OnOk result (string_bytes out.new ≡ string_bytes out.old ++ ended (count_lines summary.now)) }
{
    writeln!(out, "kept {}", summary.kept)?;
    writeln!(out, "epoch {}", summary.epoch)?;
    writeln!(out, "pairs {}", summary.pairs)?;
    writeln!(out, "items {}", summary.items)?;
    writeln!(out, "sum {}", summary.values)
}

/// Writes the line of how a life ended at the end.
fn push_end(out: &mut String, outcome: Outcome) -> Result<(), AllocError>
    ensures { OnOk result (string_bytes out.new ≡ string_bytes out.old ++ (end_line outcome ++ 10 ∷ [])) }
{
    match outcome {
        Outcome::Finished => writeln!(out, "end finished"),
        Outcome::Stalled => writeln!(out, "end stalled"),
        Outcome::Cut => writeln!(out, "end cut"),
        Outcome::Starved => writeln!(out, "end starved"),
    }
}
