//! Images in memory by their names, as the objects in memory keep them. A contract sees the finite map.

ghost use Rattle.std.specs.Prelude.{◌≡◌, OnOk, OnErr, IfOk, option_map};
ghost use Rattle.std.specs.Option.{option_copied};
ghost use Rattle.std.specs.FinMap.{empty, get, insert};

use std::alloc::{AllocError, Global};
use std::collections::BTreeMap;
use std::marker::Model;

/// Images by name.
#[derive(Drop)]
pub(crate) struct ImageMap {
    alloc: Global,
    images: BTreeMap<String, Vec<u8>>,
}

impl Model for ImageMap {
    ghost use Rattle.byte_ports.specs.Images.{Named, named_code};
    ghost use Rattle.byte_ports.specs.Entries.{named_of};

    ghost Value = { Named };

    ghost coded = { named_code };

    ghost view = { λ m. named_of m.images.entries };
}

impl ImageMap {
    /// No images.
    pub(crate) fn new(alloc: Global) -> ImageMap
        ensures { result ≡ empty }
    {
        ImageMap {
            alloc,
            images: BTreeMap::new(alloc),
        }
    }

    /// The bytes under this name, if there is one.
    pub(crate) fn get(&self, name: &str) -> Option<&[u8]>
        ensures { option_copied result ≡ get self.now name.now }
    {
        match self.images.get(name) {
            Some(bytes) => Some(bytes.as_slice()),
            None => None,
        }
    }

    /// The same, in memory of the caller's.
    pub(crate) fn copy(&self, alloc: Global, name: &str) -> Result<Option<Vec<u8>>, AllocError>
        ensures { IfOk result (λ found. option_map (λ bytes. bytes.items) found ≡ get self.now name.now) }
    {
        match self.get(name) {
            Some(bytes) => Ok(Some(Vec::from_slice(alloc, bytes)?)),
            None => Ok(None),
        }
    }

    /// Sets this name to these bytes. At want of memory nothing has changed.
    pub(crate) fn put(&mut self, name: &str, bytes: Vec<u8>) -> Result<(), AllocError>
        ensures ok { OnOk result (self.new ≡ insert self.old name.now bytes.items) }
        ensures err { OnErr result (self.new ≡ self.old) }
    {
        let name = String::from_str(self.alloc, name)?;
        self.images.insert(name, bytes)?;
        Ok(())
    }

    /// The same, of a copy of these bytes.
    pub(crate) fn put_copy(&mut self, name: &str, bytes: &[u8]) -> Result<(), AllocError>
        ensures ok { OnOk result (self.new ≡ insert self.old name.now bytes.now) }
        ensures err { OnErr result (self.new ≡ self.old) }
    {
        let copy = Vec::from_slice(self.alloc, bytes)?;
        self.put(name, copy)
    }
}
