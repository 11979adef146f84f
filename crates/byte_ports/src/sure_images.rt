//! An image store in memory that never fails. Its count of faults is the constant 0, so code over the trait cannot answer that it failed.

ghost use Rattle.std.specs.Prelude.{◌≡◌, Some, OnOk, OnErr};
ghost use Rattle.std.specs.Option.{option_copied};
ghost use Rattle.std.specs.FinMap.{empty, get, insert};

use crate::image_map::ImageMap;
use crate::images::Images;
use crate::refusal::StoreRefusal;
use std::alloc::{AllocError, Global};
use std::marker::Model;

/// Images in memory by name. A contract sees the map.
#[derive(Drop)]
pub struct SureImages {
    images: ImageMap,
}

impl Model for SureImages {
    ghost use Rattle.byte_ports.specs.Images.{Named, named_code};

    ghost Value = { Named };

    ghost coded = { named_code };

    ghost view = { λ s. s.images };
}

impl SureImages {
    /// No images.
    pub fn new(alloc: Global) -> SureImages
        ensures { result ≡ empty }
    {
        SureImages {
            images: ImageMap::new(alloc),
        }
    }

    /// The bytes under this name, if there is one.
    pub fn get(&self, name: &str) -> Option<&[u8]>
        ensures { option_copied result ≡ get self.now name.now }
    {
        self.images.get(name)
    }

    /// Sets this name to these bytes. At want of memory nothing has changed.
    pub fn put(&mut self, name: &str, bytes: Vec<u8>) -> Result<(), AllocError>
        ensures ok { OnOk result (self.new ≡ insert self.old name.now bytes.items) }
        ensures err { OnErr result (self.new ≡ self.old) }
    {
        self.images.put(name, bytes)
    }
}

impl Images for SureImages {
    ghost kept = { λ s. Some s };

    ghost count = { λ _. 0 };

    fn faults(&self) -> u64 {
        0
    }

    fn load(&mut self, alloc: Global, name: &str) -> Result<Option<Vec<u8>>, StoreRefusal> {
        match self.images.copy(alloc, name) {
            Ok(found) => Ok(found),
            Err(_) => Err(StoreRefusal::OutOfMemory),
        }
    }

    fn save(&mut self, name: &str, bytes: &[u8]) -> Result<(), StoreRefusal> {
        match self.images.put_copy(name, bytes) {
            Ok(()) => Ok(()),
            Err(_) => Err(StoreRefusal::OutOfMemory),
        }
    }
}
