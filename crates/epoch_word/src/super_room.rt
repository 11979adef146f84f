//! The super room and its calls.

ghost use Rattle.std.specs.Prelude.{◌≡◌, ◌+◌, ◌<◌, ◌^◌, [], OnOk, IfOk};
ghost use Rattle.line_memory.specs.Line.{bank_stored, bank_written_back, bank_fenced, bank_with_spare};
ghost use Rattle.epoch_word.specs.SuperLine.{IsSuperRoom, HoldsEpoch, IsAsked, IsInMemory, SurvivorLaw, NextLaw};
ghost use Rattle.room_model.specs.EpochLine.{epoch_line, loaded_epoch};

use line_memory::Bank;
use std::alloc::AllocError;
use std::marker::Model;

/// The line of the memory epoch.
#[derive(Drop)]
pub struct SuperRoom {
    bank: Bank,
}

impl Model for SuperRoom {
    ghost use Rattle.line_memory.specs.Line.{BankState};
    ghost use Rattle.epoch_word.specs.SuperLine.{IsSuperRoom};

    ghost Value = { BankState };

    ghost view = { λ a. a.bank };

    ghost invariant = { λ a. IsSuperRoom a.bank };
}

impl SuperRoom {
    /// The super room of a bank of one line on which nothing is pending, whose word 0 is from 1 to 2^32 - 1. It makes room
    /// for one store. Want of memory is its one refusal; the bank is then given up.
    pub fn of(bank: Bank) -> Result<SuperRoom, AllocError>
        requires { HoldsEpoch bank }
        ensures is { IfOk result (λ room. room ≡ bank_with_spare bank 0 (epoch_line room).spare) }
        ensures room { IfOk result (λ room. IsSuperRoom room) }
    {
        let mut bank = bank;
        bank.reserve(0, 1)?;
        Ok(SuperRoom { bank })
    }

    /// The memory epoch by load, from 1 to 2^32 - 1.
    pub fn epoch(&self) -> u32
        ensures epoch { result ≡ loaded_epoch self.now }
        ensures room { IsSuperRoom self.now }
    {
        self.bank.load(0, 0) as u32
    }

    /// Makes the store of the next epoch pending. It takes no memory.
    pub fn store_next(&mut self)
        requires quiet { (epoch_line self.old).pending ≡ [] }
        requires below { loaded_epoch self.old + 1 < 2 ^ 32 }
        ensures is { self.new ≡ bank_stored self.old 0 0 (loaded_epoch self.old + 1) }
        ensures room { IsSuperRoom self.new }
    {
        let next = self.bank.load(0, 0) + 1;
        self.bank.store(0, 0, next);
    }

    /// Asks for the store that is pending, if one is.
    pub fn write_back(&mut self)
        ensures is { self.new ≡ bank_written_back self.old 0 }
        ensures asked { IsAsked self.new }
        ensures room { IsSuperRoom self.new }
    {
        self.bank.write_back(0);
    }

    /// Brings what was asked for into memory. The epoch by load stays; behind a write-back it is then in memory.
    pub fn fence(&mut self)
        ensures is { self.new ≡ bank_fenced self.old }
        ensures epoch { loaded_epoch self.new ≡ loaded_epoch self.old }
        ensures in_memory { IsAsked self.old → IsInMemory self.new }
        ensures room { IsSuperRoom self.new }
    {
        self.bank.fence();
    }

    /// The bank under the room.
    pub fn bank(&self) -> &Bank
        ensures bank { result.now ≡ self.now }
        ensures room { IsSuperRoom self.now }
    {
        &self.bank
    }

    /// The bank under the room, whatever is pending.
    pub fn into_bank(self) -> Bank
        ensures bank { result ≡ self }
        ensures room { IsSuperRoom self }
    {
        let SuperRoom { bank } = self;
        bank
    }
}

/// Whatever a cut keeps, it leaves the epoch that memory holds or the one by load, which is the same or the next.
pub fn epoch_laws()
    ensures left { SurvivorLaw }
    ensures next { NextLaw }
{}
