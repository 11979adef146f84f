//! The store of accounts, and its calls.

ghost use Rattle.std.specs.Prelude.{◌≡◌, ◌≢◌, ◌+◌, ◌<◌, ◌≤◌, ◌^◌, ◌⊎◌, ◌↔◌, false, length, map, slice_index, if◌then◌else◌, IsTrue, IfOk, OnOk, OnErr};
ghost use Rattle.epoch_cells.specs.Cells.{CanRecover, IsAtRest, IsSpent, cell_count, is_last, events_left};
ghost use Rattle.account_store.specs.Accounts.{IsAccountStore, balances, checkpointed, recovered, moved, settled, account_record};

use epoch_cells::{EpochCells, Stage, column_laws};
use line_memory::Bank;
use room_model::Write;
use std::alloc::{AllocError, Global};
use std::marker::Model;

/// Accounts, each in a cell of its own.
#[derive(Drop)]
pub struct AccountStore {
    cells: EpochCells,
}

impl Model for AccountStore {
    ghost use Rattle.epoch_cells.specs.Cells.{EpochCellsState};
    ghost use Rattle.account_store.specs.Accounts.{IsAccountStore};

    ghost Value = { EpochCellsState };

    ghost view = { λ a. a.cells };

    ghost invariant = { λ a. IsAccountStore a.cells };
}

impl AccountStore {
    /// Accounts with these balances, on new memory of epoch 1. They are opened by the events of a recovery, as all accounts are. Want of
    /// memory is its one refusal.
    pub fn new(alloc: Global, first: &[u64]) -> Result<AccountStore, AllocError>
        requires { length first.now < 2 ^ 32 }
        ensures balances { IfOk result (λ s. balances s ≡ first.now) }
        ensures saved { IfOk result (λ s. checkpointed s ≡ first.now) }
        ensures stage { IfOk result (λ s. s.stage ≡ Stage.Restoring) }
        ensures whole { IfOk result IsAccountStore }
    {
        let records = records_of(alloc, first)?;
        let cells = EpochCells::new(alloc, records.as_slice())?;
        Ok(AccountStore { cells })
    }

    /// The accounts that a power cut left: their bank, and the bank of the super room. The events of a recovery are left. Want of memory is
    /// its one refusal; the banks are then given up.
    pub fn recover(alloc: Global, accounts: Bank, epoch: Bank) -> Result<AccountStore, AllocError>
        requires { CanRecover accounts epoch }
        ensures balances { IfOk result (λ s. balances s ≡ recovered accounts epoch) }
        ensures saved { IfOk result (λ s. checkpointed s ≡ recovered accounts epoch) }
        ensures stage { IfOk result (λ s. s.stage ≡ Stage.Restoring) }
        ensures whole { IfOk result IsAccountStore }
    {
        let cells = EpochCells::recover(alloc, accounts, epoch)?;
        Ok(AccountStore { cells })
    }

    /// How many accounts there are. They are numbered from 0 on.
    pub fn count(&self) -> u32
        ensures count { result ≡ cell_count self.now }
        ensures whole { IsAccountStore self.now }
    {
        self.cells.count()
    }

    /// Whether the accounts are open, and no store is left of a transfer.
    pub fn is_at_rest(&self) -> bool
        ensures rest { IsTrue result ↔ IsAtRest self.now }
        ensures whole { IsAccountStore self.now }
    {
        self.cells.is_at_rest()
    }

    /// The balance of an account, at rest.
    pub fn balance(&self, account: u32) -> u64
        requires rest { IsAtRest self.now }
        requires account { account < cell_count self.now }
        ensures balance { result ≡ slice_index (balances self.now) account }
        ensures whole { IsAccountStore self.now }
    {
        self.cells.word(account, 0)
    }

    /// The bank of the accounts, and then that of the super room.
    pub fn banks(&self) -> (&Bank, &Bank)
        ensures accounts { result.0.now ≡ self.now.cells.bank }
        ensures epoch { result.1.now ≡ self.now.epoch }
        ensures whole { IsAccountStore self.now }
    {
        self.cells.banks()
    }

    /// Begins a transfer of an amount from one account, which has as much, to another, which has room for it. Its stores are now left.
    /// Want of memory is its one refusal; then nothing was begun.
    pub fn transfer(&mut self, from: u32, to: u32, amount: u64) -> Result<(), AllocError>
        requires rest { IsAtRest self.old }
        requires from { from < cell_count self.old }
        requires to { to < cell_count self.old }
        requires two { from ≢ to }
        requires enough { amount ≤ slice_index (balances self.old) from }
        requires fits { slice_index (balances self.old) to + amount < 2 ^ 64 }
        ensures moved { OnOk result (balances self.new ≡ moved (balances self.old) from to amount) }
        ensures refused { OnErr result (balances self.new ≡ balances self.old) }
        ensures saved { checkpointed self.new ≡ checkpointed self.old }
        ensures open { self.new.stage ≡ Stage.Open }
        ensures whole { IsAccountStore self.new }
    {
        let less = self.balance(from) - amount;
        let more = self.balance(to) + amount;
        let writes = [
            Write {
                line: from,
                word: 0,
                value: less,
            },
            Write {
                line: to,
                word: 0,
                value: more,
            },
        ];
        column_laws();
        self.cells.write(writes.as_slice())?;
        Ok(())
    }

    /// Begins a checkpoint. Its events are now left.
    pub fn checkpoint(&mut self)
        requires { IsAtRest self.old }
        ensures balances { balances self.new ≡ balances self.old }
        ensures saved { checkpointed self.new ≡ checkpointed self.old }
        ensures stage { self.new.stage ≢ Stage.Open }
        ensures whole { IsAccountStore self.new }
    {
        self.cells.checkpoint();
    }

    /// Makes the next event, and says whether there was one. It takes no memory.
    pub fn step(&mut self) -> bool
        ensures balances { balances self.new ≡ balances self.old }
        ensures saved { checkpointed self.new ≡ (if is_last self.old.stage then balances self.old else checkpointed self.old) }
        ensures settled { settled self.new ≡ settled self.old }
        ensures fewer { IsTrue result → events_left self.new < events_left self.old }
        ensures none { result ≡ false → (self.new ≡ self.old) × (IsAtRest self.old ⊎ IsSpent self.old) }
        ensures whole { IsAccountStore self.new }
    {
        self.cells.step()
    }

    /// Makes all events that are left: the store is at rest, or memory has had its last epoch. It takes no memory.
    pub fn finish(&mut self)
        ensures balances { balances self.new ≡ balances self.old }
        ensures saved { IsAtRest self.new → checkpointed self.new ≡ settled self.old }
        ensures over { IsAtRest self.new ⊎ IsSpent self.new }
        ensures whole { IsAccountStore self.new }
    {
        while self.step() {}
    }
}

/// The records of new accounts with these balances.
fn records_of(alloc: Global, first: &[u64]) -> Result<Vec<[u64; 3]>, AllocError>
    ensures { IfOk result (λ records. records.items ≡ map account_record first.now) }
{
    let mut records = Vec::new(alloc);
    for balance in first {
        records.push([*balance, 0, 0])?;
    }
    Ok(records)
}
