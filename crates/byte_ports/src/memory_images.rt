//! An image store in memory of which the calls fail whose numbers stand on a list. Calls of `load` and of `save` are counted together.

ghost use Rattle.std.specs.Prelude.{◌≡◌, ◌↔◌, ◌≤◌, Some, Err, IfOk, OnOk, OnErr, IsErrOf, IsTrue, option_map};
ghost use Rattle.std.specs.Option.{option_copied};
ghost use Rattle.std.specs.FinMap.{empty, get, insert};
ghost use Rattle.byte_ports.specs.Causes.{Rose};
ghost use Rattle.byte_ports.specs.Images.{Finds, SetsName, OthersSame};
ghost use Rattle.byte_ports.specs.InMemory.{no_calls, is_next_failing, after_call};

use crate::fail_list::FailList;
use crate::image_map::ImageMap;
use crate::images::Images;
use crate::refusal::StoreRefusal;
use std::alloc::{AllocError, Global};
use std::marker::Model;

/// Images in memory by name. A contract sees the map, and which calls fail.
#[derive(Drop)]
pub struct MemoryImages {
    images: ImageMap,
    calls: FailList,
}

impl Model for MemoryImages {
    ghost use Rattle.byte_ports.specs.InMemory.{ImagesState, images_code};

    ghost Value = { ImagesState };

    ghost coded = { images_code };

    ghost view = { λ s. record { kept = s.images; calls = s.calls } };
}

impl MemoryImages {
    /// No images, and the k-th call of `load` or `save` fails where `fails` holds k. The first call is number 1. With an empty list no call
    /// fails.
    pub fn new(alloc: Global, fails: Vec<u64>) -> MemoryImages
        ensures kept { result.kept ≡ empty }
        ensures calls { result.calls ≡ no_calls fails.items }
    {
        MemoryImages {
            images: ImageMap::new(alloc),
            calls: FailList::new(fails),
        }
    }

    /// The bytes under this name, if there is one. It is no call that may fail.
    pub fn get(&self, name: &str) -> Option<&[u8]>
        ensures { option_copied result ≡ get self.now.kept name.now }
    {
        self.images.get(name)
    }

    /// Sets this name to these bytes. It is no call that may fail, but for want of memory, at which nothing has changed.
    pub fn put(&mut self, name: &str, bytes: Vec<u8>) -> Result<(), AllocError>
        ensures ok { OnOk result (self.new ≡ record self.old { kept = insert self.old.kept name.now bytes.items }) }
        ensures err { OnErr result (self.new ≡ self.old) }
    {
        self.images.put(name, bytes)
    }
}

impl Images for MemoryImages {
    ghost kept = { λ s. Some s.kept };

    ghost count = { λ s. s.calls.faults };

    fn faults(&self) -> u64 {
        self.calls.faults()
    }

    fn load(&mut self, alloc: Global, name: &str) -> Result<Option<Vec<u8>>, StoreRefusal>
        ensures fails { (result ≡ Err StoreRefusal.Failed) ↔ IsTrue (is_next_failing self.old.calls) }
        ensures calls { self.new.calls ≡ after_call self.old.calls }

        ensures found { IfOk result (λ found. Finds (Some self.old.kept) name.now (option_map (λ bytes. bytes.items) found)) }
        ensures same { Some self.new.kept ≡ Some self.old.kept }
        ensures later { self.old.calls.faults ≤ self.new.calls.faults }
        ensures failed { IsErrOf result StoreRefusal.Failed → Rose self.old.calls.faults self.new.calls.faults }
    {
        if self.calls.fails_now() {
            return Err(StoreRefusal::Failed);
        }
        match self.images.copy(alloc, name) {
            Ok(found) => Ok(found),
            Err(_) => Err(StoreRefusal::OutOfMemory),
        }
    }

    fn save(&mut self, name: &str, bytes: &[u8]) -> Result<(), StoreRefusal>
        ensures fails { (result ≡ Err StoreRefusal.Failed) ↔ IsTrue (is_next_failing self.old.calls) }
        ensures calls { self.new.calls ≡ after_call self.old.calls }
        ensures unchanged { OnErr result (self.new.kept ≡ self.old.kept) }

        ensures ok { OnOk result (SetsName (Some self.old.kept) (Some self.new.kept) name.now bytes.now) }
        ensures refused { OnErr result (OthersSame (Some self.old.kept) (Some self.new.kept) name.now) }
        ensures later { self.old.calls.faults ≤ self.new.calls.faults }
        ensures failed { IsErrOf result StoreRefusal.Failed → Rose self.old.calls.faults self.new.calls.faults }
    {
        if self.calls.fails_now() {
            return Err(StoreRefusal::Failed);
        }
        match self.images.put_copy(name, bytes) {
            Ok(()) => Ok(()),
            Err(_) => Err(StoreRefusal::OutOfMemory),
        }
    }
}
