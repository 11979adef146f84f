//! One line: its base words and its pending stores, and beside them its words by loads, so that a load reads one word
//! and looks at no store. A store, a write-back and a fence take no memory, since the room for the stores is made before.

ghost use Rattle.std.specs.Prelude.{◌≡◌, ◌+◌, ◌-◌, ◌<◌, ◌≤◌, ◌^◌, length, slice_index, slice_set, slice_get, Some, OnOk, OnErr};
ghost use Rattle.line_memory.specs.Line.{applied, loaded, stored, store_to, written_back, fenced, quiet_line, with_spare, IsLine};
ghost use Rattle.line_memory.specs.Asked.{is_first_ask};

use crate::store::{Store, WORDS};
use std::alloc::{AllocError, Global};
use std::marker::Model;

/// A line: what memory holds, the stores that it does not hold yet, and the words that loads give: the base with all
/// pending stores made.
#[derive(Drop)]
pub struct Line {
    base: [u64; 8],
    pending: Vec<Store>,
    words: [u64; 8],
    asked: usize,
    room: u32,
}

impl Model for Line {
    ghost use Rattle.std.specs.Prelude.{◌≡◌, ◌+◌, ◌<◌, ◌≤◌, ◌^◌, length, vec_len, vec_capacity};
    ghost use Rattle.line_memory.specs.Line.{LineState, applied};

    ghost Value = { LineState };

    ghost view = { λ a. record { base = a.base; pending = a.pending.items; asked = a.asked; spare = a.room } };

    ghost invariant = { λ a. (a.asked ≤ vec_len a.pending) × (vec_len a.pending + a.room ≤ vec_capacity a.pending) × (vec_len a.pending + a.room < 2 ^ 32) × (length a.base ≡ 8) × (a.words ≡ applied a.base a.pending.items) };
}

impl Line {
    /// A line with these words in memory, and nothing pending. It takes no memory yet.
    pub fn of(alloc: Global, base: [u64; 8]) -> Line
        ensures is { result ≡ quiet_line base }
        ensures whole { IsLine result }
    {
        Line {
            base,
            pending: Vec::new(alloc),
            words: base,
            asked: 0,
            room: 0,
        }
    }

    /// The last store that is pending on the word, else the base word. Its time is the same however many are pending.
    pub fn load(&self, word: u32) -> u64
        requires { word < 8 }
        ensures { result ≡ loaded self.now word }
    {
        self.words[word as usize]
    }

    /// The words that memory holds.
    pub fn base(&self) -> [u64; 8]
        ensures { result ≡ self.now.base }
    {
        self.base
    }

    /// How many stores are pending.
    pub fn pending(&self) -> u32
        ensures { result ≡ length self.now.pending }
    {
        self.pending.len() as u32
    }

    /// The pending store of number `k`, counted from 0 in the order of the stores, as its word and its value.
    pub fn pending_at(&self, k: u32) -> (u32, u64)
        requires { k < length self.now.pending }
        ensures { slice_get self.now.pending k ≡ Some (store_to result.0 result.1) }
    {
        let store = self.pending[k as usize];
        (store.word, store.value)
    }

    /// How many of the pending stores were asked for.
    pub fn asked(&self) -> u32
        ensures { result ≡ self.now.asked }
    {
        self.asked as u32
    }

    /// How many stores can be made before more room is needed.
    pub fn spare(&self) -> u32
        ensures { result ≡ self.now.spare }
    {
        self.room
    }

    /// Whether a write-back asks for a first store: one is pending, and none is asked for.
    pub fn is_first_ask(&self) -> bool
        ensures { result ≡ is_first_ask self.now }
    {
        self.asked == 0 && !self.pending.is_empty()
    }

    /// Makes room for `n` more stores. It refuses also where the stores would be too many to count.
    pub fn reserve(&mut self, n: u32) -> Result<(), AllocError>
        ensures enough { OnOk result (n ≤ self.new.spare) }
        ensures same { self.new ≡ with_spare self.old self.new.spare }
        ensures kept { self.old.spare ≤ self.new.spare }
        ensures few { length self.new.pending + self.new.spare < 2 ^ 32 }
        ensures refused { OnErr result (self.new ≡ self.old) }
    {
        if self.room >= n {
            return Ok(());
        }
        if self.pending.len() > (u32::MAX - n) as usize {
            return Err(AllocError);
        }
        self.pending.reserve(n as usize)?;
        self.room = n;
        Ok(())
    }

    /// Makes a store pending, behind those that are. Loads give it from now on.
    pub fn store(&mut self, word: u32, value: u64)
        requires { 0 < self.old.spare }
        ensures { self.new ≡ stored self.old word value }
    {
        self.pending.push(Store { word, value }).unwrap();
        put_word(&mut self.words, word, value);
        self.room -= 1;
    }

    /// Asks for all stores that are pending now.
    pub fn write_back(&mut self)
        ensures { self.new ≡ written_back self.old }
    {
        self.asked = self.pending.len();
    }

    /// Moves the stores that were asked for into the base, in order. What loads give stays.
    pub fn fence(&mut self)
        ensures { self.new ≡ fenced self.old }
    {
        let asked = self.asked;
        if asked == 0 {
            return;
        }
        apply(&mut self.base, &self.pending.as_slice()[..asked]);
        self.pending.rotate_left(asked);
        self.pending.truncate(self.pending.len() - asked);
        self.room += asked as u32;
        self.asked = 0;
    }
}

/// Makes these stores, in order.
fn apply(words: &mut [u64; 8], stores: &[Store])
    ensures { words.new ≡ applied words.old stores.now }
{
    for store in stores {
        put_word(words, store.word, store.value);
    }
}

/// Writes one word; a word that the line does not have changes nothing.
fn put_word(words: &mut [u64; 8], word: u32, value: u64)
    ensures { words.new ≡ slice_set words.old word value }
{
    if word < WORDS {
        words[word as usize] = value;
    }
}
