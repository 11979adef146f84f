//! Survivors of one line, and whether lines may be left of a bank. Nothing here takes memory.

ghost use Rattle.std.specs.Prelude.{◌≡◌, ◌<◌, ◌≤◌, ◌↔◌, IsTrue, length, slice_set};
ghost use Rattle.line_memory.specs.Line.{survivor, line_at};
ghost use Rattle.store_order.specs.Survivors.{IsSurvivor, MayBeLeft};

use line_memory::{Bank, WORDS};

/// The line's base with its first `k` pending stores made.
pub fn line_left(bank: &Bank, line: u32, k: u32) -> [u64; 8]
    requires line { line < length bank.now.lines }
    requires few { k ≤ length (line_at bank.now.lines line).pending }
    ensures { result ≡ survivor (line_at bank.now.lines line) k }
{
    let mut words = bank.base(line);
    for i in 0..k {
        let (word, value) = bank.pending_at(line, i);
        put_word(&mut words, word, value);
    }
    words
}

/// Whether the words are a survivor of the line. It makes one pending store after the other, and looks after each.
fn is_survivor(bank: &Bank, line: u32, words: &[u64; 8]) -> bool
    requires { line < length bank.now.lines }
    ensures { IsTrue result ↔ IsSurvivor (line_at bank.now.lines line) words.now }
{
    let pending = bank.pending(line);
    let mut now = bank.base(line);
    for k in 0..pending {
        if now == *words {
            return true;
        }
        let (word, value) = bank.pending_at(line, k);
        put_word(&mut now, word, value);
    }
    now == *words
}

/// Whether a power cut may leave these lines of the bank: there are as many, and each is its line's base with some first
/// part of its pending stores made. It takes no memory, and time by the lines and their pending stores.
pub fn may_be_left(bank: &Bank, lines: &[[u64; 8]]) -> bool
    ensures { IsTrue result ↔ MayBeLeft bank.now lines.now }
{
    if lines.len() != bank.lines() as usize {
        return false;
    }
    for (i, words) in lines.iter().enumerate() {
        if !is_survivor(bank, i as u32, words) {
            return false;
        }
    }
    true
}

/// Writes one word; a word that the line does not have changes nothing.
fn put_word(words: &mut [u64; 8], word: u32, value: u64)
    ensures { words.new ≡ slice_set words.old word value }
{
    if word < WORDS {
        words[word as usize] = value;
    }
}
