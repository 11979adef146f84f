//! Each call once, with its answer compared. The two functions at the top show what a caller concludes where no fault can come.

ghost use Rattle.std.specs.Prelude.{◌≡◌, ◌≢◌, ◌≤◌, ◌++◌, length, IfOk, OnOk, Err, IsOkUnless};

use super::*;
use std::alloc::{AllocError, Global};
use std::fs::{File, Permissions};
use std::io::{ErrorKind, Read, Write};
use std::os::unix::fs::PermissionsExt;
use std::test::Fail;
use std::{env, fs, io};

/// A sure source within the limit is read whole, but for want of memory.
fn read_sure(alloc: Global, source: &mut SureSource, limit: u64) -> Result<Vec<u8>, ReadRefusal>
    ensures never_failed { result ≢ Err ReadRefusal.Failed }
    ensures succeeds { length source.old ≤ limit → IsOkUnless result ReadRefusal.OutOfMemory }
    ensures bytes { IfOk result (λ bytes. bytes.items ≡ source.old) }
{
    read_all(alloc, source, limit)
}

/// A sure sink takes all bytes, but for want of memory.
fn write_sure(sink: &mut SureSink, bytes: &[u8]) -> Result<(), StoreRefusal>
    ensures succeeds { IsOkUnless result StoreRefusal.OutOfMemory }
    ensures held { OnOk result (sink.new ≡ sink.old ++ bytes.now) }
{
    write_all(sink, bytes)
}

fn bytes_of(alloc: Global, bytes: &[u8]) -> Result<Vec<u8>, AllocError> {
    Vec::from_slice(alloc, bytes)
}

fn calls_of(alloc: Global, calls: &[u64]) -> Result<Vec<u64>, AllocError> {
    Vec::from_slice(alloc, calls)
}

#[test]
fn a_source_is_read_within_the_limit(rt: HostRuntime) -> Result<(), Fail> {
    for limit in [3u64, 4] {
        let mut source = SureSource::new(bytes_of(rt.alloc(), &[7, 8, 9])?);
        let bytes = read_sure(rt.alloc(), &mut source, limit)?;
        assert_eq!(rt; bytes.as_slice(), [7, 8, 9].as_slice());
    }
    Ok(())
}

#[test]
fn a_source_of_one_byte_more_is_too_long(rt: HostRuntime) -> Result<(), Fail> {
    let mut source = SureSource::new(bytes_of(rt.alloc(), &[7, 8, 9])?);
    assert_eq!(rt;
        read_all(rt.alloc(), &mut source, 2).err(),
        Some(ReadRefusal::TooLong)
    );
    assert_eq!(rt; source.faults(), 0);
    Ok(())
}

#[test]
fn a_long_source_is_read_in_pieces(rt: HostRuntime) -> Result<(), Fail> {
    let long = vec![in rt.alloc(); 5u8; 200_000]?;
    let mut source = MemorySource::new(long, Vec::new(rt.alloc()));
    assert_eq!(rt; read_all(rt.alloc(), &mut source, 200_000)?.len(), 200_000);
    Ok(())
}

#[test]
fn a_source_in_memory_fails_where_the_list_says(rt: HostRuntime) -> Result<(), Fail> {
    let fails = calls_of(rt.alloc(), &[2])?;
    let mut source = MemorySource::new(bytes_of(rt.alloc(), &[7, 8, 9])?, fails);
    let mut buf = [0u8; 2];
    for want in [Ok(2), Err(Failed), Ok(1), Ok(0)] {
        assert_eq!(rt; source.read(&mut buf), want);
    }
    assert_eq!(rt; buf, [9, 8]);
    assert_eq!(rt; source.faults(), 1);
    Ok(())
}

#[test]
fn a_fault_ends_the_reading(rt: HostRuntime) -> Result<(), Fail> {
    let fails = calls_of(rt.alloc(), &[2])?;
    let mut source = MemorySource::new(bytes_of(rt.alloc(), &[7, 8, 9])?, fails);
    assert_eq!(rt;
        read_all(rt.alloc(), &mut source, 9).err(),
        Some(ReadRefusal::Failed)
    );
    Ok(())
}

#[test]
fn a_sure_sink_holds_what_was_written(rt: HostRuntime) -> Result<(), Fail> {
    let mut sink = SureSink::new(rt.alloc());
    write_sure(&mut sink, &[7, 8])?;
    write_sure(&mut sink, &[9])?;
    assert_eq!(rt; sink.bytes(), [7, 8, 9].as_slice());
    assert_eq!(rt; sink.faults(), 0);
    Ok(())
}

#[test]
fn a_sink_in_memory_fails_where_the_list_says(rt: HostRuntime) -> Result<(), Fail> {
    let mut sink = MemorySink::new(rt.alloc(), calls_of(rt.alloc(), &[2])?);
    for want in [Ok(()), Err(StoreRefusal::Failed), Ok(())] {
        assert_eq!(rt; write_all(&mut sink, &[7, 8]), want);
    }
    assert_eq!(rt; sink.bytes(), [7, 8, 7, 8].as_slice());
    assert_eq!(rt; sink.faults(), 1);
    Ok(())
}

#[test]
fn sure_images_are_kept_by_name(rt: HostRuntime) -> Result<(), Fail> {
    let mut images = SureImages::new(rt.alloc());
    images.put("a", bytes_of(rt.alloc(), &[1])?)?;
    images.save("b", &[2, 3])?;
    images.save("a", &[4])?;
    assert_eq!(rt;
        images.load(rt.alloc(), "a")?.as_deref(),
        Some([4].as_slice())
    );
    assert_eq!(rt; images.get("b"), Some([2, 3].as_slice()));
    assert!(rt; images.load(rt.alloc(), "c")?.is_none());
    assert_eq!(rt; images.faults(), 0);
    Ok(())
}

#[test]
fn images_in_memory_are_kept_by_name(rt: HostRuntime) -> Result<(), Fail> {
    let mut images = MemoryImages::new(rt.alloc(), Vec::new(rt.alloc()));
    images.put("a", bytes_of(rt.alloc(), &[1])?)?;
    images.save("b", &[2, 3])?;
    assert_eq!(rt; images.get("a"), Some([1].as_slice()));
    assert_eq!(rt;
        images.load(rt.alloc(), "b")?.as_deref(),
        Some([2, 3].as_slice())
    );
    Ok(())
}

#[test]
fn images_in_memory_fail_where_the_list_says(rt: HostRuntime) -> Result<(), Fail> {
    let mut images = MemoryImages::new(rt.alloc(), calls_of(rt.alloc(), &[2, 3])?);
    assert_eq!(rt; images.save("b", &[2, 3]), Ok(()));
    assert_eq!(rt;
        images.load(rt.alloc(), "b").err(),
        Some(StoreRefusal::Failed)
    );
    assert_eq!(rt; images.save("b", &[5]), Err(StoreRefusal::Failed));
    assert_eq!(rt; images.get("b"), Some([2, 3].as_slice()));
    assert_eq!(rt; images.faults(), 2);
    Ok(())
}

#[test]
fn a_reader_is_read_to_its_end(rt: HostRuntime) -> Result<(), Fail> {
    let bytes = [7, 8, 9];
    let mut source = ReaderSource::new(bytes.as_slice());
    assert_eq!(rt;
        read_all(rt.alloc(), &mut source, 3)?.as_slice(),
        bytes.as_slice()
    );
    assert_eq!(rt; source.faults(), 0);
    Ok(())
}

#[test]
fn a_reader_fails_in_mid_stream(rt: HostRuntime) -> Result<(), Fail> {
    let mut source = ReaderSource::new(Worn { good: 2 });
    let mut buf = [0u8; 2];
    for want in [Ok(1), Ok(1), Err(Failed), Err(Failed)] {
        assert_eq!(rt; source.read(&mut buf), want);
    }
    assert_eq!(rt; source.faults(), 2);
    Ok(())
}

#[test]
fn a_writer_takes_all_bytes(rt: HostRuntime) -> Result<(), Fail> {
    let mut held: Vec<u8> = Vec::new(rt.alloc());
    let mut sink = WriterSink::over(&mut held);
    assert_eq!(rt; write_all(&mut sink, &[7, 8]), Ok(()));
    assert_eq!(rt; write_all(&mut sink, &[9]), Ok(()));
    assert_eq!(rt; sink.faults(), 0);
    assert_eq!(rt; held.as_slice(), [7, 8, 9].as_slice());
    Ok(())
}

#[test]
fn a_writer_fails_in_mid_stream(rt: HostRuntime) -> Result<(), Fail> {
    // One that fails, and one whose buffer has no room for the last byte.
    let mut worn = WriterSink::over(Worn { good: 2 });
    assert_eq!(rt; write_all(&mut worn, &[7, 8, 9]), Err(StoreRefusal::Failed));
    assert_eq!(rt; worn.faults(), 1);
    let mut room = [0u8; 2];
    let mut full = WriterSink::over(room.as_mut_slice());
    assert_eq!(rt; write_all(&mut full, &[7, 8, 9]), Err(StoreRefusal::Failed));
    assert_eq!(rt; full.faults(), 1);
    assert_eq!(rt; room, [7, 8]);
    Ok(())
}

#[test]
fn the_front_of_a_reader_is_its_first_bytes(rt: HostRuntime) -> Result<(), Fail> {
    let bytes = [7, 8, 9];
    for most in 0u64..5 {
        let front = read_front(rt.alloc(), bytes.as_slice(), most)?;
        assert_eq!(rt; front.as_slice(), &bytes[..(most as usize).min(3)]);
    }
    assert_eq!(rt;
        read_front(rt.alloc(), Worn { good: 2 }, 9).err(),
        Some(StoreRefusal::Failed)
    );
    Ok(())
}

/// A reader and a writer of one byte at a time, which fails after so many calls.
#[derive(Drop)]
struct Worn {
    good: u8,
}

impl Worn {
    fn wear(&mut self) -> io::Result<()> {
        match self.good.checked_sub(1) {
            Some(good) => {
                self.good = good;
                Ok(())
            }
            None => Err(io::Error::from(ErrorKind::BrokenPipe)),
        }
    }
}

impl Read for Worn {
    fn read(&mut self, buf: &mut [u8]) -> io::Result<usize> {
        self.wear()?;
        Ok(buf.len().min(1))
    }
}

impl Write for Worn {
    fn write(&mut self, buf: &[u8]) -> io::Result<usize> {
        self.wear()?;
        Ok(buf.len().min(1))
    }

    fn flush(&mut self) -> io::Result<()> {
        Ok(())
    }
}

/// The path of a file of this name in the folder for temporary files.
fn temporary(rt: HostRuntime, name: &str) -> Result<String, Fail> {
    Ok(format!(in rt.alloc(); "{}/byte_ports_{name}.image", env::temp_dir(&rt)?.display())?)
}

#[test]
fn files_keep_images(rt: HostRuntime) -> Result<(), Fail> {
    let (name, other) = (temporary(rt, "kept")?, temporary(rt, "other")?);
    let mut images = FileImages::new(rt);
    images.save(&name, &[1, 2, 3])?;
    images.save(&other, &[4])?;
    images.save(&name, &[7, 8])?;
    for (name, want) in [(&name, [7, 8].as_slice()), (&other, [4].as_slice())] {
        assert_eq!(rt; images.load(rt.alloc(), name)?.as_deref(), Some(want));
        assert_eq!(rt; fs::read(&rt, name)?.as_slice(), want);
        fs::remove_file(&rt, name)?;
        assert!(rt; images.load(rt.alloc(), name)?.is_none());
    }
    assert_eq!(rt; images.faults(), 0);
    Ok(())
}

#[test]
fn a_file_of_many_reads_is_kept_whole(rt: HostRuntime) -> Result<(), Fail> {
    let name = temporary(rt, "many")?;
    let mut bytes = vec![in rt.alloc(); 0u8; 200_000]?;
    for (at, byte) in bytes.iter_mut().enumerate() {
        *byte = (at % 251) as u8;
    }
    let mut images = FileImages::new(rt);
    images.save(&name, &bytes)?;
    assert!(rt; images.load(rt.alloc(), &name)?.as_deref() == Some(bytes.as_slice()));
    fs::remove_file(&rt, &name)?;
    Ok(())
}

#[test]
fn a_long_file_is_cut(rt: HostRuntime) -> Result<(), Fail> {
    let name = temporary(rt, "long")?;
    let mut file = File::create(&rt, &name)?;
    file.write_all(&[7])?;
    file.set_len(40_000_001)?;
    let loaded = FileImages::new(rt).load(rt.alloc(), &name)?;
    assert_eq!(rt; loaded.as_ref().map(|bytes| bytes.len()), Some(40_000_000));
    assert_eq!(rt; loaded.as_deref().map(|bytes| bytes[0]), Some(7));
    fs::remove_file(&rt, &name)?;
    Ok(())
}

#[test]
fn a_missing_file_is_no_fault(rt: HostRuntime) -> Result<(), Fail> {
    let mut images = FileImages::new(rt);
    assert!(rt; images.load(rt.alloc(), "no_such_folder/image")?.is_none());
    assert_eq!(rt; images.faults(), 0);
    Ok(())
}

#[test]
fn a_folder_is_no_image(rt: HostRuntime) -> Result<(), Fail> {
    let mut images = FileImages::new(rt);
    assert_eq!(rt;
        images.save("no_such_folder/image", &[7]),
        Err(StoreRefusal::Failed)
    );
    assert_eq!(rt; images.save("/", &[7]), Err(StoreRefusal::Failed));
    assert_eq!(rt;
        images.load(rt.alloc(), "/").err(),
        Some(StoreRefusal::Failed)
    );
    assert_eq!(rt; images.faults(), 3);
    Ok(())
}

/// Where the system lets this user open any file, as it does root, there is nothing to see, and the test says nothing.
#[test]
fn a_file_that_may_not_be_opened_is_a_fault(rt: HostRuntime) -> Result<(), Fail> {
    let name = temporary(rt, "shut")?;
    let mut images = FileImages::new(rt);
    images.save(&name, &[7])?;
    fs::set_permissions(&rt, &name, Permissions::from_mode(0))?;
    if File::open(&rt, &name).is_err() {
        assert_eq!(rt;
            images.load(rt.alloc(), &name).err(),
            Some(StoreRefusal::Failed)
        );
        assert_eq!(rt; images.save(&name, &[8]), Err(StoreRefusal::Failed));
        assert_eq!(rt; images.faults(), 2);
    }
    fs::remove_file(&rt, &name)?;
    Ok(())
}

/// Where the system has no such device, there is nothing to see, and the test says nothing.
#[test]
fn a_full_device_is_a_fault(rt: HostRuntime) -> Result<(), Fail> {
    let full = "/dev/full";
    if fs::metadata(&rt, full).is_ok_and(|it| !it.is_file()) {
        let mut images = FileImages::new(rt);
        assert_eq!(rt; images.save(full, &[7]), Err(StoreRefusal::Failed));
        assert_eq!(rt; images.faults(), 1);
    }
    Ok(())
}
