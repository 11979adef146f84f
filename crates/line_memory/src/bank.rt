//! A bank: a list of lines with stores, write-backs and a fence. Lines are numbered from 0; a caller hands in only
//! numbers of lines and words that are there. A bank keeps the numbers of the lines with something asked for, with a
//! place for each line, so that a fence looks at no other line.

ghost use Rattle.std.specs.Prelude.{◌≡◌, ◌<◌, ◌≤◌, ◌^◌, ◌++◌, [], ◌∷◌, IsTrue, length, slice_get, Some, map, if◌then◌else◌, OnOk, OnErr, IfOk, vec_len, vec_capacity};
ghost use Rattle.line_memory.specs.Line.{bank_load, bank_stored, bank_written_back, bank_fenced, bank_with_spare, quiet_bank, quiet_line, fenced, store_to, line_at, AreLines};
ghost use Rattle.line_memory.specs.Asked.{AreWithin, AreAllAsked};

use crate::line::Line;
use std::alloc::{AllocError, Global};
use std::marker::Model;

/// Lines, how often one of them was written back, and which of them have something asked for.
#[derive(Drop)]
pub struct Bank {
    lines: Vec<Line>,
    write_backs: u64,
    asked: Vec<u32>,
}

impl Model for Bank {
    ghost use Rattle.std.specs.Prelude.{length, ◌<◌, ◌^◌, vec_capacity};
    ghost use Rattle.line_memory.specs.Line.{BankState, AreLines};
    ghost use Rattle.line_memory.specs.Asked.{HasAsked};

    ghost Value = { BankState };

    ghost view = { λ a. record { lines = a.lines.items; write_backs = a.write_backs } };

    ghost invariant = { λ a. (length a.lines.items < 2 ^ 32) × AreLines a.lines.items × HasAsked a.lines.items a.asked.items (vec_capacity a.asked) };
}

impl Bank {
    /// A bank with these words in memory and nothing pending, whose lines have no room for stores yet. Want of memory
    /// is its one refusal; the words are then given up.
    pub fn of(alloc: Global, base: Vec<[u64; 8]>) -> Result<Bank, AllocError>
        requires { length base.items < 2 ^ 32 }
        ensures is { IfOk result (λ bank. bank ≡ quiet_bank base.items) }
        ensures whole { IfOk result (λ bank. AreLines bank.lines) }
    {
        Ok(Bank {
            lines: lines_of(alloc, base.as_slice())?,
            write_backs: 0,
            asked: Vec::with_capacity(alloc, base.len())?,
        })
    }

    /// How many lines there are.
    pub fn lines(&self) -> u32
        ensures count { result ≡ length self.now.lines }
        ensures whole { AreLines self.now.lines }
    {
        self.lines.len() as u32
    }

    /// The last store that is pending on the word, else the base word. Its time is the same however many are pending.
    pub fn load(&self, line: u32, word: u32) -> u64
        requires line { line < length self.now.lines }
        requires word { word < 8 }
        ensures { result ≡ bank_load self.now line word }
    {
        self.lines[line as usize].load(word)
    }

    /// The words of the line that memory holds.
    pub fn base(&self, line: u32) -> [u64; 8]
        requires { line < length self.now.lines }
        ensures { result ≡ (line_at self.now.lines line).base }
    {
        self.lines[line as usize].base()
    }

    /// How many stores are pending on the line.
    pub fn pending(&self, line: u32) -> u32
        requires { line < length self.now.lines }
        ensures { result ≡ length (line_at self.now.lines line).pending }
    {
        self.lines[line as usize].pending()
    }

    /// The store of number `k` that is pending on the line, counted from 0 from the oldest on, as its word and its value.
    pub fn pending_at(&self, line: u32, k: u32) -> (u32, u64)
        requires line { line < length self.now.lines }
        requires store { k < length (line_at self.now.lines line).pending }
        ensures { slice_get (line_at self.now.lines line).pending k ≡ Some (store_to result.0 result.1) }
    {
        self.lines[line as usize].pending_at(k)
    }

    /// How many of the stores that are pending on the line were asked for by a write-back; these are the oldest.
    pub fn asked(&self, line: u32) -> u32
        requires { line < length self.now.lines }
        ensures { result ≡ (line_at self.now.lines line).asked }
    {
        self.lines[line as usize].asked()
    }

    /// How many more stores can be made to the line as it is.
    pub fn spare(&self, line: u32) -> u32
        requires { line < length self.now.lines }
        ensures { result ≡ (line_at self.now.lines line).spare }
    {
        self.lines[line as usize].spare()
    }

    /// Makes room for `n` more stores to the line at least, and takes no room away. It refuses for want of memory, and
    /// where the stores of the line would be more than 2^32 - 1 with those that are pending. Refused, it leaves the bank
    /// as it was.
    pub fn reserve(&mut self, line: u32, n: u32) -> Result<(), AllocError>
        requires { line < length self.old.lines }
        ensures enough { OnOk result (n ≤ (line_at self.new.lines line).spare) }
        ensures same { self.new ≡ bank_with_spare self.old line (line_at self.new.lines line).spare }
        ensures kept { (line_at self.old.lines line).spare ≤ (line_at self.new.lines line).spare }
        ensures refused { OnErr result (self.new ≡ self.old) }
        ensures whole { AreLines self.new.lines }
    {
        self.lines[line as usize].reserve(n)
    }

    /// Makes a store pending on the line, behind those that are. It takes no memory, and one of the line's spare places.
    pub fn store(&mut self, line: u32, word: u32, value: u64)
        requires line { line < length self.old.lines }
        requires word { word < 8 }
        requires room { 0 < (line_at self.old.lines line).spare }
        ensures is { self.new ≡ bank_stored self.old line word value }
        ensures whole { AreLines self.new.lines }
    {
        self.lines[line as usize].store(word, value);
    }

    /// Asks for all stores that are pending on the line now. It counts also where none is pending; the count stands
    /// still at 2^64 - 1.
    pub fn write_back(&mut self, line: u32)
        requires { line < length self.old.lines }
        ensures is { self.new ≡ bank_written_back self.old line }
        ensures whole { AreLines self.new.lines }
    {
        let is_first = self.lines[line as usize].is_first_ask();
        self.lines[line as usize].write_back();
        note(&mut self.asked, line, is_first);
        self.write_backs = self.write_backs.saturating_add(1);
    }

    /// Moves the stores that were asked for into memory, on each line in their order. It takes no memory, and the places
    /// of these stores are spare again. It looks only at lines with something asked for.
    pub fn fence(&mut self)
        ensures is { self.new ≡ bank_fenced self.old }
        ensures whole { AreLines self.new.lines }
    {
        fence_lines(&mut self.lines, self.asked.as_slice());
        self.asked.clear();
    }

    /// How many write-backs were made, or 2^64 - 1 where they were more.
    pub fn write_backs(&self) -> u64
        ensures { result ≡ self.now.write_backs }
    {
        self.write_backs
    }
}

/// Lines with these words in memory, and nothing pending.
fn lines_of(alloc: Global, base: &[[u64; 8]]) -> Result<Vec<Line>, AllocError>
    ensures is { IfOk result (λ lines. lines.items ≡ map quiet_line base.now) }
    ensures whole { IfOk result (λ lines. AreLines lines.items) }
{
    let mut lines = Vec::new(alloc);
    for words in base {
        lines.push(Line::of(alloc, *words))?;
    }
    Ok(lines)
}

/// Notes the line, in the room that was made, where this is its first ask.
fn note(asked: &mut Vec<u32>, line: u32, is_first: bool)
    requires { IsTrue is_first → vec_len asked.old < vec_capacity asked.old }
    ensures noted { asked.new.items ≡ (if is_first then asked.old.items ++ line ∷ [] else asked.old.items) }
    ensures room { vec_capacity asked.new ≡ vec_capacity asked.old }
{
    if is_first {
        asked.push_reserved(line);
    }
}

/// Fences these lines, and so each line.
fn fence_each(lines: &mut [Line], asked: &[u32])
    requires within { AreWithin lines.old asked.now }
    requires all { AreAllAsked lines.old asked.now }
    ensures { lines.new ≡ map fenced lines.old }
{
    for line in asked {
        lines[*line as usize].fence();
    }
}

/// Fences these lines of the list, and so each of it.
fn fence_lines(lines: &mut Vec<Line>, asked: &[u32])
    requires within { AreWithin lines.old.items asked.now }
    requires all { AreAllAsked lines.old.items asked.now }
    ensures { lines.new.items ≡ map fenced lines.old.items }
{
    fence_each(lines.as_mut_slice(), asked);
}
