//! Files as an image store: a name is a path. It tells no images, and counts each error. What a load makes of an opened file, and what a
//! save puts into a made one, are calls of their own over a reader and a writer, which may tell their bytes.

ghost use Rattle.std.specs.Prelude.{◌≡◌, ℕ, ◌≤◌, take, vec_len, None, Option, IfOk, IfSome, OnOk, OnErr, IsErrOf, option_map};
ghost use Rattle.byte_ports.specs.Causes.{raised, Rose};
ghost use Rattle.byte_ports.specs.Bytes.{Appended};
ghost use Rattle.byte_ports.specs.Images.{Finds, SetsName, OthersSame};

use crate::images::Images;
use crate::reader_source::ReaderSource;
use crate::refusal::{ReadRefusal, StoreRefusal};
use crate::source::read_all;
use std::alloc::Global;
use std::fs::{File, Files};
use std::io::{ErrorKind, Read, Write};

/// How many bytes of a file are loaded at most. Each image that may be resumed is shorter, so a longer file is no image either way.
const MOST: u64 = 40_000_000;

/// The files of a runtime. A contract sees how many calls failed.
#[derive(Drop)]
pub struct FileImages<R: Files + Drop> {
    rt: R,
    /// How many calls have failed. It stands still at `u64::MAX`.
    pub faults: u64,
}

impl<R: Files + Drop> FileImages<R> {
    /// The files of this runtime.
    pub fn new(rt: R) -> FileImages<R>
        ensures { result.faults ≡ 0 }
    {
        FileImages { rt, faults: 0 }
    }

    /// Counts one more call that has failed.
    fn fail(&mut self) -> StoreRefusal
        ensures failed { result ≡ StoreRefusal.Failed }
        ensures counted { self.new.faults ≡ raised self.old.faults }
        ensures later { self.old.faults ≤ self.new.faults }
    {
        self.faults = self.faults.saturating_add(1);
        StoreRefusal::Failed
    }
}

impl<R: Files + Drop> Images for FileImages<R> {
    ghost kept = { λ _. None };

    ghost count = { λ s. s.faults };

    fn faults(&self) -> u64 {
        self.faults
    }

    /// None comes where the system says that no such file exists, and a fault at every other error. Of a file of more than 40,000,000
    /// bytes the first 40,000,000 are given.
    fn load(&mut self, alloc: Global, name: &str) -> Result<Option<Vec<u8>>, StoreRefusal>
        ensures bound { IfOk result (λ found. IfSome found (λ bytes. vec_len bytes ≤ 40000000)) }
        ensures fine { OnOk result (self.new.faults ≡ self.old.faults) }
        ensures counted { IsErrOf result StoreRefusal.Failed → self.new.faults ≡ raised self.old.faults }
        ensures starved { IsErrOf result StoreRefusal.OutOfMemory → self.new.faults ≡ self.old.faults }

        ensures found { IfOk result (λ found. Finds None name.now (option_map (λ bytes. bytes.items) found)) }
        ensures later { self.old.faults ≤ self.new.faults }
        ensures failed { IsErrOf result StoreRefusal.Failed → Rose self.old.faults self.new.faults }
    {
        match File::open(&self.rt, name) {
            Ok(file) => match read_front(alloc, file, MOST) {
                Ok(bytes) => Ok(Some(bytes)),
                Err(StoreRefusal::OutOfMemory) => Err(StoreRefusal::OutOfMemory),
                Err(StoreRefusal::Failed) => Err(self.fail()),
            },
            Err(error) if error.kind() == ErrorKind::NotFound => Ok(None),
            Err(_) => Err(self.fail()),
        }
    }

    /// The file is made or emptied, and then written. After a refusal it may be missing, empty, or hold a part of the bytes.
    fn save(&mut self, name: &str, bytes: &[u8]) -> Result<(), StoreRefusal>
        ensures fine { OnOk result (self.new.faults ≡ self.old.faults) }
        ensures counted { OnErr result (self.new.faults ≡ raised self.old.faults) }
        ensures only { OnErr result (IsErrOf result StoreRefusal.Failed) }

        ensures ok { OnOk result (SetsName None None name.now bytes.now) }
        ensures refused { OnErr result (OthersSame None None name.now) }
        ensures later { self.old.faults ≤ self.new.faults }
        ensures failed { IsErrOf result StoreRefusal.Failed → Rose self.old.faults self.new.faults }
    {
        match File::create(&self.rt, name) {
            Ok(mut file) => match write_whole(&mut file, bytes) {
                Ok(()) => Ok(()),
                Err(_) => Err(self.fail()),
            },
            Err(_) => Err(self.fail()),
        }
    }
}

/// What a load gives of an opened file: the first `most` bytes that a reader has left, or all of them where there are fewer.
pub fn read_front<R: Read + Drop>(
    alloc: Global,
    reader: R,
    most: u64,
) -> Result<Vec<u8>, StoreRefusal>
    ensures bound { IfOk result (λ bytes. vec_len bytes ≤ most) }
    ensures front { IfOk result (λ bytes. IfSome (R.remaining reader) (λ left. bytes.items ≡ take most left)) }
{
    let mut source = ReaderSource::new(reader.take(most));
    match read_all(alloc, &mut source, most) {
        Ok(bytes) => Ok(bytes),
        Err(ReadRefusal::OutOfMemory) => Err(StoreRefusal::OutOfMemory),
        // No more than `most` bytes are taken of the reader.
        Err(ReadRefusal::Failed | ReadRefusal::TooLong) => Err(StoreRefusal::Failed),
    }
}

/// What a save puts into a file that was made or emptied: all of the bytes.
pub fn write_whole<W: Write>(writer: &mut W, bytes: &[u8]) -> Result<(), StoreRefusal>
    ensures ok { OnOk result (Appended (W.contents writer.old) (W.contents writer.new) bytes.now) }
    ensures only { OnErr result (IsErrOf result StoreRefusal.Failed) }
{
    match writer.write_all(bytes) {
        Ok(()) => Ok(()),
        Err(_) => Err(StoreRefusal::Failed),
    }
}
