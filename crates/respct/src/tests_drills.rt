//! Drills: what they print, and a sink that fails.

use crate::status::Status;
use crate::tests::words_in;
use crate::top::respct;
use byte_ports::{MemoryImages, MemorySink, MemorySource};
use line_memory::Memory;
use std::alloc::AllocError;
use std::test::Fail;

/// The answer to these words, and what was written to a sink of which these calls fail. Each call of the source and of the image store fails.
fn drilled(
    rt: HostRuntime,
    words: &str,
    writes: &[u64],
) -> Result<(Status, Vec<u8>, u32), AllocError> {
    let words = words_in(rt.alloc(), words)?;
    let mut source = MemorySource::new(Vec::new(rt.alloc()), vec![in rt.alloc(); 1u64]?);
    let mut images = MemoryImages::new(rt.alloc(), vec![in rt.alloc(); 1u64]?);
    let mut sink = MemorySink::new(rt.alloc(), Vec::from_slice(rt.alloc(), writes)?);
    let mut memory = Memory::empty(rt.alloc());
    let status = respct(
        &rt,
        &words,
        &mut source,
        &mut images,
        &mut sink,
        &mut memory,
    );
    let text = Vec::from_slice(rt.alloc(), sink.bytes())?;
    Ok((status, text, memory.rooms()))
}

/// All commands of a drill are kept, by each number; the same number gives the same text again, and another one another text.
#[test]
fn texts_of_drills(rt: HostRuntime) -> Result<(), Fail> {
    let (status, text, rooms) = drilled(rt, "drill 1", &[])?;
    assert_eq!(rt; status, Status::Finished);
    assert!(rt; text.starts_with(b"drill 1\nlives 9\nkept 800\nepoch "));
    assert!(rt; text.ends_with(b"\nend finished\n"));
    assert_eq!(rt; rooms, 9);
    let (_, again, _) = drilled(rt, "drill 1", &[])?;
    assert!(rt; again == text);
    let (status, other, _) = drilled(rt, "drill 18446744073709551615", &[])?;
    assert_eq!(rt; status, Status::Finished);
    assert!(rt; other.starts_with(b"drill 18446744073709551615\nlives 9\nkept 800\nepoch "));
    assert!(rt; other.ends_with(b"\nend finished\n"));
    assert!(rt; other.get(27..) != text.get(8..));
    Ok(())
}

/// Where the sink fails, the lives were lived all the same.
#[test]
fn a_drill_that_is_not_written(rt: HostRuntime) -> Result<(), Fail> {
    let (status, text, rooms) = drilled(rt, "drill 1", &[1])?;
    assert_eq!(rt; status, Status::WriteFault);
    assert_eq!(rt; text.len(), 0);
    assert_eq!(rt; rooms, 9);
    Ok(())
}
