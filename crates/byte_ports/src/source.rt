//! Sources of bytes, and reading one to its end. A source that fails has lost nothing: the bytes left are those that were left before.

ghost use Rattle.std.specs.Prelude.{◌≡◌, ℕ, ◌<◌, ◌≤◌, List, Option, length, take, IfOk, OnErr, IsErrOf, Err, vec_len};
ghost use Rattle.byte_ports.specs.Causes.{Rose};
ghost use Rattle.byte_ports.specs.Bytes.{Keeps, TookSoFar, TookSome, IsAtEnd, Gave, ExactlyPast};

use crate::refusal::{Failed, ReadRefusal};
use std::alloc::Global;

/// How many bytes are asked for at a time.
const CHUNK: usize = 65_536;

/// Something that gives bytes, in order, until its end.
pub trait Source {
    ghost left: { Self → Option (List ℕ) };

    ghost count: { Self → ℕ };

    /// How many calls have failed. It stands still at `u64::MAX`.
    fn faults(&self) -> u64
        ensures { result ≡ count self.now };

    /// Takes the next bytes into the front of `buf`, and answers how many. With a `buf` that is not empty 0 comes only at the end.
    /// What stands behind these bytes in `buf`, and all of it after a refusal, is open.
    fn read(&mut self, buf: &mut [u8]) -> Result<usize, Failed>
        ensures bound { IfOk result (λ n. n ≤ length buf.new) }
        ensures taken { IfOk result (λ n. TookSoFar (left self.old) (left self.new) (take n buf.new)) }
        ensures end { IfOk result (λ n. n ≡ 0 → 0 < length buf.new → IsAtEnd (left self.old)) }
        ensures same { OnErr result (Keeps (left self.old) (left self.new)) }
        ensures later { count self.old ≤ count self.new }
        ensures failed { OnErr result (Rose (count self.old) (count self.new)) };
}

/// Reads to the end, and gives all bytes that were left, at most `limit`. After a refusal some of them are taken, from their front on, and
/// are given up. `Failed` comes where the source failed, `TooLong` exactly where more than `limit` bytes were taken.
pub fn read_all<S: Source>(
    alloc: Global,
    source: &mut S,
    limit: u64,
) -> Result<Vec<u8>, ReadRefusal>
    ensures ok { IfOk result (λ bytes. Gave (S.left source.old) (S.left source.new) bytes.items) }
    ensures bound { IfOk result (λ bytes. vec_len bytes ≤ limit) }
    ensures taken { TookSome (S.left source.old) (S.left source.new) }
    ensures too_long { ExactlyPast limit (S.left source.old) (S.left source.new)
        (result ≡ Err ReadRefusal.TooLong) }
    ensures failed { IsErrOf result ReadRefusal.Failed → Rose (S.count source.old) (S.count source.new) }
    ensures later { S.count source.old ≤ S.count source.new }
{
    match vec![in alloc; 0u8; CHUNK] {
        Ok(mut chunk) => read_by(alloc, source, limit, chunk.as_mut_slice()),
        Err(_) => Err(ReadRefusal::OutOfMemory),
    }
}

/// The same, by reads into this chunk.
fn read_by<S: Source>(
    alloc: Global,
    source: &mut S,
    limit: u64,
    chunk: &mut [u8],
) -> Result<Vec<u8>, ReadRefusal>
    requires { 0 < length chunk.old }
    ensures ok { IfOk result (λ bytes. Gave (S.left source.old) (S.left source.new) bytes.items) }
    ensures bound { IfOk result (λ bytes. vec_len bytes ≤ limit) }
    ensures taken { TookSome (S.left source.old) (S.left source.new) }
    ensures too_long { ExactlyPast limit (S.left source.old) (S.left source.new)
        (result ≡ Err ReadRefusal.TooLong) }
    ensures failed { IsErrOf result ReadRefusal.Failed → Rose (S.count source.old) (S.count source.new) }
    ensures later { S.count source.old ≤ S.count source.new }
{
    let mut bytes: Vec<u8> = Vec::new(alloc);
    'chunks: loop {
        let n = match source.read(chunk) {
            Ok(n) => n,
            Err(Failed) => return Err(ReadRefusal::Failed),
        };
        if n == 0 {
            return Ok(bytes);
        }
        if limit - (bytes.len() as u64) < n as u64 {
            return Err(ReadRefusal::TooLong);
        }
        if bytes.extend_from_slice(&chunk[..n]).is_err() {
            return Err(ReadRefusal::OutOfMemory);
        }
    }
}
