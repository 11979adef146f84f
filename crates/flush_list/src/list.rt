//! The list of lines. It has room of its own for more lines, so that what must take no memory can still mark. The first
//! line has its place in the list itself, so that a list of one line takes no memory at all.

ghost use Rattle.std.specs.Prelude.{◌≡◌, ◌<◌, ◌≤◌, ◌+◌, ◌^◌, false, nat_eq, length, slice_get, Some, OnOk, OnErr};
ghost use Rattle.std.specs.List.{IsDistinct};
ghost use Rattle.flush_list.specs.Lists.{unmarked, is_listed, marked, next_line, is_all_given, passed, cleared};

use indexmap::IndexSet;
use std::alloc::{AllocError, Global};
use std::marker::Model;

/// Lines that are to be flushed, each once, in the order of their first marks.
#[derive(Drop)]
pub struct FlushList {
    first: Option<u32>,
    others: IndexSet<u32>,
    given: u32,
    spare: u32,
}

impl Model for FlushList {
    ghost use Rattle.std.specs.Prelude.{◌+◌, ◌<◌, ◌≤◌, ◌^◌, nat_eq, length};
    ghost use Rattle.std.specs.List.{IsDistinct};
    ghost use Rattle.indexmap.specs.IndexSet.{spare as set_spare};
    ghost use Rattle.flush_list.specs.Lists.{FlushListState, HasLines, lines_of};

    ghost Value = { FlushListState };

    ghost view = { λ f. record { lines = lines_of f.first f.others.keys; given = f.given; spare = f.spare } };

    ghost invariant = { λ f. HasLines f.first f.others.keys (set_spare f.others) (record { lines = lines_of f.first f.others.keys; given = f.given; spare = f.spare }) };
}

impl FlushList {
    /// The empty list. It has room for one line and takes no memory yet.
    pub fn new(alloc: Global) -> FlushList
        ensures { result ≡ unmarked 1 }
    {
        FlushList {
            first: None,
            others: IndexSet::new(alloc),
            given: 0,
            spare: 1,
        }
    }

    /// How many lines are listed. Each is listed once, no more of them were given than are listed, and lines and room are
    /// together at most 2^32 - 1.
    pub fn len(&self) -> u32
        ensures len { result ≡ length self.now.lines }
        ensures once { IsDistinct nat_eq self.now.lines }
        ensures given { self.now.given ≤ length self.now.lines }
        ensures few { length self.now.lines + self.now.spare < 2 ^ 32 }
    {
        let _given = self.given;
        let _spare = self.spare;
        match self.first {
            None => 0,
            Some(_) => 1 + self.others.len() as u32,
        }
    }

    /// How many lines were given.
    pub fn given(&self) -> u32
        ensures { result ≡ self.now.given }
    {
        self.given
    }

    /// Whether each line was given.
    pub fn is_all_given(&self) -> bool
        ensures { result ≡ is_all_given self.now }
    {
        !(self.given < self.len())
    }

    /// How many more lines can be marked without memory.
    pub fn spare(&self) -> u32
        ensures { result ≡ self.now.spare }
    {
        self.spare
    }

    /// Whether the line is listed.
    pub fn is_listed(&self, line: u32) -> bool
        ensures { result ≡ is_listed self.now.lines line }
    {
        match self.first {
            None => false,
            Some(first) => line == first || self.others.contains(&line),
        }
    }

    /// The line of number `place`, counted from 0 in the order of the first marks.
    pub fn line_at(&self, place: u32) -> u32
        requires { place < length self.now.lines }
        ensures { slice_get self.now.lines place ≡ Some result }
    {
        match self.first {
            Some(first) if place == 0 => first,
            _ => *self.others.get_index(place as usize - 1).unwrap(),
        }
    }

    /// Makes room for `n` more lines at least, and takes no room away; the listed lines stay. It refuses for want of
    /// memory, and where the lines would be more than 2^32 - 1. Refused, it leaves the list as it was.
    pub fn reserve(&mut self, n: u32) -> Result<(), AllocError>
        ensures enough { OnOk result (n ≤ self.new.spare) }
        ensures same { self.new ≡ record self.old { spare = self.new.spare } }
        ensures kept { self.old.spare ≤ self.new.spare }
        ensures refused { OnErr result (self.new ≡ self.old) }
    {
        if self.spare >= n {
            return Ok(());
        }
        if self.len() > u32::MAX - n {
            return Err(AllocError);
        }
        self.others.reserve(n as usize)?;
        self.spare = n;
        Ok(())
    }

    /// Lists the line at the end, in the room that was made, where it is not listed yet. A listed line keeps its place.
    pub fn mark(&mut self, line: u32)
        requires { is_listed self.old.lines line ≡ false → 0 < self.old.spare }
        ensures { self.new ≡ marked self.old line }
    {
        if self.is_listed(line) {
            return;
        }
        self.spare -= 1;
        if self.first.is_none() {
            self.first = Some(line);
            return;
        }
        self.others.insert(line).unwrap();
    }

    /// Gives the first line that was not given yet. It is `None` exactly where each line was given.
    pub fn next(&mut self) -> Option<u32>
        ensures line { result ≡ next_line self.old }
        ensures passed { self.new ≡ passed self.old }
    {
        if self.is_all_given() {
            return None;
        }
        let line = self.line_at(self.given);
        self.given += 1;
        Some(line)
    }

    /// Empties the list. The places that its lines had are room again.
    pub fn clear(&mut self)
        ensures { self.new ≡ cleared self.old }
    {
        self.spare += self.len();
        self.first = None;
        self.others.clear();
        self.given = 0;
    }
}
