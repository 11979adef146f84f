//! The text of a state: its epoch, the threads' positions, the pairs and the items.
//! It says what a memory recovers to.

ghost use Rattle.std.specs.Prelude.{◌≡◌, ◌++◌, map, OnOk, IfOk};
ghost use Rattle.std.specs.String.{string_bytes};
ghost use Rattle.script_text.specs.Text.{ended};
ghost use Rattle.script_text.specs.StateText.{thread_lines, pair_line, item_line, state_bytes};

use seq_object::Pair;
use std::alloc::{AllocError, Global};

/// The text of a state, each line with its line feed.
///
/// The positions are those of the threads from thread 0 on, the pairs come in the order of their keys, and the items from front to
/// back; the text has them as they are given.
pub fn state_text(
    alloc: Global,
    epoch: u32,
    positions: &[u64],
    pairs: &[Pair],
    items: &[u64],
) -> Result<Vec<u8>, AllocError>
    ensures { IfOk result (λ text. text.items ≡ state_bytes epoch positions.now pairs.now items.now) }
{
    let mut out = String::new(alloc);
    writeln!(out, "respct-state 1")?;
    writeln!(out, "epoch {epoch}")?;
    push_positions(&mut out, positions)?;
    push_pairs(&mut out, pairs)?;
    push_values(&mut out, items)?;
    writeln!(out, "end")?;
    Ok(out.into_bytes())
}

// Writes the lines of the threads at the end.
fn push_positions(out: &mut String, positions: &[u64]) -> Result<(), AllocError>
    ensures { OnOk result (string_bytes out.new ≡ string_bytes out.old ++ ended (thread_lines 0 positions.now)) }
{
    for (thread, position) in positions.iter().enumerate() {
        writeln!(out, "thread {thread} {position}")?;
    }
    Ok(())
}

// Writes the lines of pairs at the end.
fn push_pairs(out: &mut String, pairs: &[Pair]) -> Result<(), AllocError>
    ensures { OnOk result (string_bytes out.new ≡ string_bytes out.old ++ ended (map pair_line pairs.now)) }
{
    for pair in pairs {
        writeln!(out, "map {} {}", pair.key, pair.value)?;
    }
    Ok(())
}

// Writes the lines of values at the end.
fn push_values(out: &mut String, items: &[u64]) -> Result<(), AllocError>
    ensures { OnOk result (string_bytes out.new ≡ string_bytes out.old ++ ended (map item_line items.now)) }
{
    for value in items {
        writeln!(out, "item {value}")?;
    }
    Ok(())
}
