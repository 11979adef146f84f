//! Sinks of bytes, and writing a piece whole. A sink that refuses has appended nothing.

ghost use Rattle.std.specs.Prelude.{◌≡◌, ℕ, ◌<◌, ◌≤◌, List, Option, length, take, IfOk, OnOk, OnErr, IsErrOf};
ghost use Rattle.byte_ports.specs.Causes.{Rose};
ghost use Rattle.byte_ports.specs.Bytes.{Keeps, Appended, AppendedSome};

use crate::refusal::StoreRefusal;

/// Something that takes bytes, in order.
pub trait Sink {
    ghost held: { Self → Option (List ℕ) };

    ghost count: { Self → ℕ };

    /// How many calls have failed. It stands still at `u64::MAX`.
    fn faults(&self) -> u64
        ensures { result ≡ count self.now };

    /// Appends the first bytes of `piece`, and answers how many: at least one, if it is not empty.
    fn write(&mut self, piece: &[u8]) -> Result<usize, StoreRefusal>
        ensures bound { IfOk result (λ n. n ≤ length piece.now) }
        ensures some { IfOk result (λ n. 0 < length piece.now → 0 < n) }
        ensures appended { IfOk result (λ n. Appended (held self.old) (held self.new) (take n piece.now)) }
        ensures same { OnErr result (Keeps (held self.old) (held self.new)) }
        ensures later { count self.old ≤ count self.new }
        ensures failed { IsErrOf result StoreRefusal.Failed → Rose (count self.old) (count self.new) };
}

/// Appends all of `bytes`. After a refusal some of them were appended, from their front on.
pub fn write_all<W: Sink>(sink: &mut W, bytes: &[u8]) -> Result<(), StoreRefusal>
    ensures ok { OnOk result (Appended (W.held sink.old) (W.held sink.new) bytes.now) }
    ensures refused { OnErr result (AppendedSome (W.held sink.old) (W.held sink.new) bytes.now) }
    ensures failed { IsErrOf result StoreRefusal.Failed → Rose (W.count sink.old) (W.count sink.new) }
    ensures later { W.count sink.old ≤ W.count sink.new }
{
    let mut done = 0usize;
    while done < bytes.len() {
        match sink.write(&bytes[done..]) {
            Ok(n) => done += n,
            Err(refusal) => return Err(refusal),
        }
    }
    Ok(())
}
