//! A memory: banks, one for each room. It hands its banks out to be read, and as a whole to be worked on.

ghost use Rattle.std.specs.Prelude.{◌≡◌, ◌<◌, ◌^◌, [], length, slice_get, Some};
ghost use Rattle.line_memory.specs.Line.{bank_at, all_lines, all_write_backs, AreLines, AreBanks};

use crate::bank::Bank;
use std::alloc::Global;
use std::marker::Model;

/// Banks, one for each room.
#[derive(Drop)]
pub struct Memory {
    banks: Vec<Bank>,
}

impl Model for Memory {
    ghost use Rattle.std.specs.Prelude.{List, length, ◌<◌, ◌^◌};
    ghost use Rattle.line_memory.specs.Line.{BankState, all_lines};

    ghost Value = { List BankState };

    ghost view = { λ a. a.banks.items };

    ghost invariant = { λ a. (length a.banks.items < 2 ^ 32) × (all_lines a.banks.items < 2 ^ 32) };
}

impl Memory {
    /// A memory without rooms. It takes no memory of the program's.
    pub fn empty(alloc: Global) -> Memory
        ensures { result ≡ [] }
    {
        Memory {
            banks: Vec::new(alloc),
        }
    }

    /// A memory of these banks; the room of a bank is its place in the list.
    pub fn of(banks: Vec<Bank>) -> Memory
        requires rooms { length banks.items < 2 ^ 32 }
        requires lines { all_lines banks.items < 2 ^ 32 }
        ensures { result ≡ banks.items }
    {
        Memory { banks }
    }

    /// How many rooms there are.
    pub fn rooms(&self) -> u32
        ensures { result ≡ length self.now }
    {
        self.banks.len() as u32
    }

    /// The bank of a room. Its lines are whole.
    pub fn bank(&self, room: u32) -> &Bank
        requires { room < length self.now }
        ensures is { result.now ≡ bank_at self.now room }
        ensures got { slice_get self.now room ≡ Some result.now }
        ensures whole { AreLines result.now.lines }
    {
        let bank = &self.banks[room as usize];
        let _lines = bank.lines();
        bank
    }

    /// The banks, in the order of their rooms.
    pub fn into_banks(self) -> Vec<Bank>
        ensures { result.items ≡ self }
    {
        let Memory { banks } = self;
        banks
    }

    /// How many lines the rooms have together. It looks at each room once, and tells that all of them are whole.
    pub fn lines(&self) -> u32
        ensures count { result ≡ all_lines self.now }
        ensures whole { AreBanks self.now }
    {
        lines_in(self.banks.as_slice())
    }

    /// How many write-backs were made in all rooms together, or 2^64 - 1 where they were more.
    pub fn write_backs(&self) -> u64
        ensures { result ≡ all_write_backs self.now }
    {
        write_backs_in(self.banks.as_slice())
    }
}

/// How many lines these banks have together.
fn lines_in(banks: &[Bank]) -> u32
    requires { all_lines banks.now < 2 ^ 32 }
    ensures count { result ≡ all_lines banks.now }
    ensures whole { AreBanks banks.now }
{
    let mut sum = 0u32;
    for bank in banks {
        sum += bank.lines();
    }
    sum
}

/// How many write-backs were made in these banks together, or 2^64 - 1 where they were more.
fn write_backs_in(banks: &[Bank]) -> u64
    ensures { result ≡ all_write_backs banks.now }
{
    let mut sum = 0u64;
    for bank in banks {
        sum = sum.saturating_add(bank.write_backs());
    }
    sum
}
