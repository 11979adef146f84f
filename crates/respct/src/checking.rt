//! A check: loads the image of a name and judges it, and writes the text of the state that it recovers to.

ghost use Rattle.std.specs.Prelude.{◌≡◌, Some, OnOk, OnErr, IfErr};
ghost use Rattle.std.specs.Result.{IsErrOf};
ghost use Rattle.std.specs.FinMap.{get};
ghost use Rattle.byte_ports.specs.Causes.{Rose};
ghost use Rattle.byte_ports.specs.Images.{Named};
ghost use Rattle.byte_ports.specs.Bytes.{Appended, AppendedSome};
ghost use Rattle.respct.specs.Checks.{found_text, HasChecked, IsUnchecked, IsCheckDecided};

use crate::loading::{NotLoaded, load};
use byte_ports::{Images, Sink, StoreRefusal, write_all};
use image_check::Recovered;
use script_text::state_text;
use std::alloc::Global;

/// Why a check ends without its whole text.
#[derive(Clone, Copy, Debug, PartialEq, Eq)]
pub enum NotChecked {
    /// There is no image that could be judged, or it is refused.
    Unloaded(NotLoaded),
    /// The text of the state could not be written, or not to its end.
    Unwritten(StoreRefusal),
}

/// Appends the text of the state that the image under this name recovers to. The store keeps what it had.
pub fn check<G: Images, W: Sink>(
    alloc: Global,
    images: &mut G,
    name: &str,
    sink: &mut W,
) -> Result<(), NotChecked>
    ensures checked { OnOk result (HasChecked (G.kept images.old) name.now (W.held sink.old) (W.held sink.new)) }
    ensures refused { IfErr result (IsUnchecked (G.kept images.old) name.now (G.count images.old) (G.count images.new)
        (W.count sink.old) (W.count sink.new) (W.held sink.old) (W.held sink.new)) }
    ensures same { G.kept images.new ≡ G.kept images.old }
    ensures decided { (Rose (G.count images.old) (G.count images.new) → ⊥)
        → (Rose (W.count sink.old) (W.count sink.new) → ⊥)
        → (named : Named) → G.kept images.old ≡ Some named → IsCheckDecided (get named name.now) result }
{
    let loaded = match load(alloc, images, name) {
        Ok(loaded) => loaded,
        Err(refusal) => return Err(NotChecked::Unloaded(refusal)),
    };
    match tell(alloc, &loaded.found, sink) {
        Ok(()) => Ok(()),
        Err(refusal) => Err(NotChecked::Unwritten(refusal)),
    }
}

/// Appends the text of a state. After a refusal a first part of it may have been appended.
fn tell<W: Sink>(alloc: Global, found: &Recovered, sink: &mut W) -> Result<(), StoreRefusal>
    ensures written { OnOk result (Appended (W.held sink.old) (W.held sink.new) (found_text found.now)) }
    ensures refused { OnErr result (AppendedSome (W.held sink.old) (W.held sink.new) (found_text found.now)) }
    ensures failed { IsErrOf result StoreRefusal.Failed → Rose (W.count sink.old) (W.count sink.new) }
{
    let positions = found.positions.as_slice();
    let pairs = found.pairs.as_slice();
    match state_text(alloc, found.epoch, positions, pairs, found.items.as_slice()) {
        Ok(text) => write_all(sink, text.as_slice()),
        Err(_) => Err(StoreRefusal::OutOfMemory),
    }
}
