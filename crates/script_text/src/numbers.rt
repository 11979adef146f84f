//! Numbers of a text, which may have no zero in front.
//! They are read from bytes, since a text need not be UTF-8 to have a first fault.

ghost use Rattle.std.specs.Prelude.{◌≡◌, ◌≤◌, IfOk};
ghost use Rattle.script_text.specs.Reading.{number_at, limited_at};
ghost use Rattle.script_text.specs.Numbers.{number_of, digits_read};

use crate::fault::{NUMBER, RANGE, ScriptFault};

/// The number that a word of a line stands for.
pub fn number(word: &[u8], line: u32) -> Result<u64, ScriptFault>
    ensures { result ≡ number_at line word.now }
{
    match number_of_word(word) {
        Some(number) => Ok(number),
        None => Err(ScriptFault { line, kind: NUMBER }),
    }
}

/// The number that a word of a line stands for, from low to high.
pub fn limited(word: &[u8], line: u32, low: u32, high: u32) -> Result<u32, ScriptFault>
    ensures within { IfOk result (λ number. (low ≤ number) × (number ≤ high)) }
    ensures reads { result ≡ limited_at line low high word.now }
{
    let number = number(word, line)?;
    if u64::from(low) <= number && number <= u64::from(high) {
        return Ok(number as u32);
    }
    Err(ScriptFault { line, kind: RANGE })
}

// The number that a word stands for: digits with no zero in front, or `0`, below 2 to the 64.
fn number_of_word(word: &[u8]) -> Option<u64>
    ensures { result ≡ number_of word.now }
{
    match word {
        [] => None,
        [b'0', _, ..] => None,
        _ => digits_of_word(word),
    }
}

// The number that digits stand for.
fn digits_of_word(word: &[u8]) -> Option<u64>
    ensures { result ≡ digits_read 0 word.now }
{
    let mut number: u64 = 0;
    for byte in word {
        if !byte.is_ascii_digit() {
            return None;
        }
        let Some(tens) = number.checked_mul(10) else {
            return None;
        };
        let Some(sum) = tens.checked_add(u64::from(*byte - b'0')) else {
            return None;
        };
        number = sum;
    }
    Some(number)
}
