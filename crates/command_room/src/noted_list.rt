//! The entries of a room's commands, in the order in which they were done. Room for an entry is made before its command
//! begins, so that ending a command takes no memory.

ghost use Rattle.std.specs.Prelude.{◌≡◌, ◌<◌, ◌≤◌, OnOk, OnErr};
ghost use Rattle.command_room.specs.Noted.{none_noted, with_entry};

use seq_object::Noted;
use std::alloc::{AllocError, Global};
use std::marker::Model;

/// Entries of commands that are done, and room for more.
#[derive(Drop)]
pub struct NotedList {
    entries: Vec<Noted>,
    spare: u32,
}

impl Model for NotedList {
    ghost use Rattle.std.specs.Prelude.{vec_len, ◌+◌, ◌≤◌};
    ghost use Rattle.std.specs.Vec.{vec_capacity};
    ghost use Rattle.command_room.specs.Noted.{NotedState};

    ghost Value = { NotedState };

    ghost view = { λ a. record { entries = a.entries.items; spare = a.spare } };

    ghost invariant = { λ a. vec_len a.entries + a.spare ≤ vec_capacity a.entries };
}

impl NotedList {
    /// No entry, and no room. It takes no memory yet.
    pub fn new(alloc: Global) -> NotedList
        ensures { result ≡ none_noted }
    {
        NotedList {
            entries: Vec::new(alloc),
            spare: 0,
        }
    }

    /// The entries, in order.
    pub fn as_slice(&self) -> &[Noted]
        ensures { result.now ≡ self.now.entries }
    {
        let _spare = self.spare;
        self.entries.as_slice()
    }

    /// Makes room for one more entry at least. Refused, for want of memory, it leaves the list as it was.
    pub fn reserve(&mut self) -> Result<(), AllocError>
        ensures enough { OnOk result (0 < self.new.spare) }
        ensures same { self.new ≡ record self.old { spare = self.new.spare } }
        ensures kept { self.old.spare ≤ self.new.spare }
        ensures refused { OnErr result (self.new ≡ self.old) }
    {
        if self.spare == 0 {
            self.entries.reserve(1)?;
            self.spare = 1;
        }
        Ok(())
    }

    /// Appends an entry, in the room that was made. It takes no memory.
    pub fn push(&mut self, noted: Noted)
        requires { 0 < self.old.spare }
        ensures { self.new ≡ with_entry self.old noted }
    {
        self.entries.push(noted).unwrap();
        self.spare -= 1;
    }
}
