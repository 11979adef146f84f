//! The object as a program keeps it: a tree of pairs, a queue of items, and a counter of keys for each shard.
//!
//! A contract sees the sizes and what the object holds, as a finite map and a list. The counters
//! spare a put the walk through its shard, and no contract names them.
ghost use Rattle.std.specs.Prelude.{◌≡◌, ◌<◌, IsTrue, Some, IfOk, OnOk, OnErr};
ghost use Rattle.seq_object.specs.Sizes.{IsValid};
ghost use Rattle.seq_object.specs.Object.{reply_to, shard_of, is_shard_full, is_queue_full};
ghost use Rattle.seq_object.specs.Plain.{new_plain, plain_after, may_grow, listed};

use crate::command::{Command, Reply};
use crate::history::Pair;
use crate::settings::Settings;
use std::alloc::{AllocError, Global};
use std::collections::{BTreeMap, VecDeque};
use std::marker::Model;

/// The object: the pairs of a map, and the items of a queue from front to back.
#[derive(Drop)]
pub struct Plain {
    settings: Settings,
    pairs: BTreeMap<u64, u64>,
    /// How many keys each shard has; those past the last shard are not read.
    counts: [u32; 8],
    items: VecDeque<u64>,
}

impl Model for Plain {
    ghost use Rattle.seq_object.specs.Plain.{PlainState, plain_code, plain_state, IsKept};

    ghost Value = { PlainState };

    ghost coded = { plain_code };

    ghost view = { λ p. plain_state p.settings p.pairs.entries p.items.items };

    ghost invariant = { λ p. IsKept p.settings p.pairs.entries p.counts };
}

impl Plain {
    /// The object without a pair and without an item. It takes no memory until the first put or item.
    pub fn new(alloc: Global, settings: Settings) -> Plain
        requires { IsValid settings }
        ensures { result ≡ new_plain settings }
    {
        Plain {
            settings,
            pairs: BTreeMap::new(alloc),
            counts: [0; 8],
            items: VecDeque::new(alloc),
        }
    }

    /// Carries out a command, and gives its reply. There is none exactly at a take where the queue
    /// is empty, and then nothing changed. Want of memory comes at a put or an append alone, and
    /// leaves the object as it was.
    pub fn apply(&mut self, command: Command) -> Result<Option<Reply>, AllocError>
        ensures reply { IfOk result (λ reply. reply ≡ reply_to self.old.sizes self.old.contents command) }
        ensures ok { OnOk result (self.new ≡ plain_after self.old command) }
        ensures err { OnErr result (self.new ≡ self.old) }
        ensures grows { OnErr result (IsTrue (may_grow command)) }
    {
        match command {
            Command::Put(key, value) => Ok(Some(self.put(key, value)?)),
            Command::Get(key) => Ok(Some(self.get(key))),
            Command::Del(key) => Ok(Some(self.del(key))),
            Command::Enq(value) => Ok(Some(self.enq(value)?)),
            Command::Deq => Ok(Some(self.take().unwrap_or(Reply::Empty))),
            Command::Take => Ok(self.take()),
        }
    }

    /// All pairs, in the order of their keys. The cause of a refusal is want of memory.
    pub fn pairs(&self, alloc: Global) -> Result<Vec<Pair>, AllocError>
        ensures { IfOk result (λ pairs. pairs.items ≡ listed self.now.contents.pairs) }
    {
        self.pairs
            .iter()
            .map(|(&key, &value)| Pair { key, value })
            .collect(alloc)
    }

    /// All items, from front to back. The cause of a refusal is want of memory.
    pub fn items(&self, alloc: Global) -> Result<Vec<u64>, AllocError>
        ensures { IfOk result (λ items. items.items ≡ self.now.contents.items) }
    {
        self.items.iter().copied().collect(alloc)
    }

    fn shard_of(&self, key: u64) -> usize
        ensures shard { result ≡ shard_of self.now.sizes key }
        ensures few { result < 8 }
    {
        (key % u64::from(self.settings.shards)) as usize
    }

    fn is_shard_full(&self, key: u64) -> bool
        ensures { result ≡ is_shard_full self.now.sizes key self.now.contents.pairs }
    {
        self.counts[self.shard_of(key)] >= self.settings.sizes().map_capacity()
    }

    fn is_queue_full(&self) -> bool
        ensures { result ≡ is_queue_full self.now.sizes self.now.contents.items }
    {
        self.items.len() >= self.settings.sizes().queue_capacity() as usize
    }

    fn put(&mut self, key: u64, value: u64) -> Result<Reply, AllocError>
        ensures reply { IfOk result (λ reply. reply_to self.old.sizes self.old.contents (Command.Put key value) ≡ Some reply) }
        ensures ok { OnOk result (self.new ≡ plain_after self.old (Command.Put key value)) }
        ensures err { OnErr result (self.new ≡ self.old) }
    {
        let shard = self.shard_of(key);
        if !self.pairs.contains_key(&key) && self.is_shard_full(key) {
            return Ok(Reply::Full);
        }
        match self.pairs.insert(key, value)? {
            Some(old) => Ok(Reply::Old(old)),
            None => {
                self.counts[shard] += 1;
                Ok(Reply::New)
            }
        }
    }

    fn get(&self, key: u64) -> Reply
        ensures { reply_to self.now.sizes self.now.contents (Command.Get key) ≡ Some result }
    {
        match self.pairs.get(&key) {
            Some(&value) => Reply::Found(value),
            None => Reply::Absent,
        }
    }

    fn del(&mut self, key: u64) -> Reply
        ensures reply { reply_to self.old.sizes self.old.contents (Command.Del key) ≡ Some result }
        ensures after { self.new ≡ plain_after self.old (Command.Del key) }
    {
        let shard = self.shard_of(key);
        let Some(value) = self.pairs.remove(&key) else {
            return Reply::Absent;
        };
        self.counts[shard] -= 1;
        Reply::Gone(value)
    }

    fn enq(&mut self, value: u64) -> Result<Reply, AllocError>
        ensures reply { IfOk result (λ reply. reply_to self.old.sizes self.old.contents (Command.Enq value) ≡ Some reply) }
        ensures ok { OnOk result (self.new ≡ plain_after self.old (Command.Enq value)) }
        ensures err { OnErr result (self.new ≡ self.old) }
    {
        if self.is_queue_full() {
            return Ok(Reply::Full);
        }
        self.items.push_back(value)?;
        Ok(Reply::Done)
    }

    fn take(&mut self) -> Option<Reply>
        ensures reply { result ≡ reply_to self.old.sizes self.old.contents Command.Take }
        ensures after { self.new ≡ plain_after self.old Command.Take }
    {
        self.items.pop_front().map(Reply::Found)
    }
}
