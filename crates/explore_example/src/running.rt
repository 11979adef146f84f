//! A store as it runs: its events happen one after the other.

ghost use Rattle.std.specs.Prelude.{◌≡◌, IfOk};
ghost use Rattle.explore_example.specs.Runs.{cut_of, next, goes_on, happened, last_event};
ghost use Rattle.explore_example.specs.Findings.{IsFresh};

use crate::event::Event;
use crate::mistake::Mistake;
use crate::recovering::recovered;
use crash_explorer::{Recovered, Subject};
use line_memory::Bank;
use std::alloc::{AllocError, Global};

/// A store of two variables on three lines: what was made of its events so far.
#[derive(Drop)]
pub struct Running {
    mistake: Mistake,
    bank: Bank,
    events: Vec<Event>,
    at: usize,
    values: [u64; 2],
    saved: [u64; 2],
    is_closing: bool,
}

impl Running {
    /// A store with this mistake and these events, of which none has happened: its variables are 0, its epoch is 1, and each line has room for eight stores.
    pub fn of(alloc: Global, mistake: Mistake, events: Vec<Event>) -> Result<Running, AllocError>
        ensures { IfOk result (IsFresh mistake events.items) }
    {
        let mut base = Vec::new(alloc);
        base.push([1, 0, 0, 0, 0, 0, 0, 0])?;
        base.push([0; 8])?;
        base.push([0; 8])?;
        let mut bank = Bank::of(alloc, base)?;
        bank.reserve(0, 8)?;
        bank.reserve(1, 8)?;
        bank.reserve(2, 8)?;
        Ok(Running {
            mistake,
            bank,
            events,
            at: 0,
            values: [0, 0],
            saved: [0, 0],
            is_closing: false,
        })
    }

    /// The event that happened last, if there was one.
    pub fn last(&self) -> Option<Event>
        ensures { result ≡ last_event self.now }
    {
        if self.at == 0 {
            return None;
        }
        self.events.get(self.at - 1).copied()
    }

    /// The values of the last checkpoint.
    pub fn saved(&self) -> &[u64]
        ensures { result.now ≡ self.now.saved }
    {
        self.saved.as_slice()
    }

    /// The values of the next checkpoint.
    pub fn values(&self) -> &[u64]
        ensures { result.now ≡ self.now.values }
    {
        self.values.as_slice()
    }

    /// Whether a closing is under way.
    pub fn is_closing(&self) -> bool
        ensures { result ≡ self.now.is_closing }
    {
        self.is_closing
    }

    /// An event happens.
    pub fn happen(&mut self, event: Event)
        ensures { self.new ≡ happened event self.old }
    {
        match event {
            Event::Write(variable, value) => {
                if variable < 2 {
                    self.values[variable as usize] = value;
                }
            }
            Event::Store(line, word, value) => {
                if line < self.bank.lines() && word < 8 && self.bank.spare(line) > 0 {
                    self.bank.store(line, word, value);
                }
            }
            Event::WriteBack(line) => {
                if line < self.bank.lines() {
                    self.bank.write_back(line);
                }
            }
            Event::Fence => self.bank.fence(),
            Event::Closing => self.is_closing = true,
            Event::Closed => {
                self.saved = self.values;
                self.is_closing = false;
            }
        }
    }
}

impl Subject for Running {
    ghost cut = { cut_of };

    ghost next = { next };

    ghost goes_on = { goes_on };

    fn step(&mut self) -> Result<bool, AllocError> {
        if self.at >= self.events.len() {
            return Ok(false);
        }
        let event = self.events[self.at];
        self.at += 1;
        self.happen(event);
        Ok(true)
    }

    fn bank(&self) -> &Bank {
        &self.bank
    }

    fn recover(
        &self,
        alloc: Global,
        left: Vec<[u64; 8]>,
        steps: u32,
    ) -> Result<Recovered, AllocError> {
        recovered(alloc, self.mistake, left, steps)
    }

    fn is_allowed(&self, state: &[u64]) -> bool {
        state == self.saved.as_slice() || (self.is_closing && state == self.values.as_slice())
    }
}
