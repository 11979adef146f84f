//! A life from its script to its report: reads the script, opens the memory, leads the life, saves its image, and writes the report.

ghost use Rattle.std.specs.Prelude.{◌≡◌, [], IfOk, IfErr};
ghost use Rattle.respct.specs.Steps.{ports, HasReported, IsUnreported};

use crate::living::live;
use crate::opening::{NotOpened, open};
use crate::reading::{NoScript, read};
use crate::saving::save;
use crate::writing::write;
use byte_ports::{Images, Sink, Source, StoreRefusal};
use life_model::{Life, Outcome};
use line_memory::Memory;
use std::alloc::Global;

/// Why a life ends without its report.
#[derive(Clone, Copy, Debug, PartialEq, Eq)]
pub enum NoReport {
    /// There is no script, so that no life began.
    Unread(NoScript),
    /// There is no memory over which the life may begin.
    Unopened(NotOpened),
    /// Memory ran out before the life was told. What it left was given up.
    Untold,
    /// The image could not be saved.
    Unsaved(StoreRefusal),
    /// The report could not be written, or not to its end.
    Unwritten(StoreRefusal),
}

/// Reads the script, leads its life over formatted memory, or, of a resume, on from the image under this name, saves the image of the life under
/// this name, writes the report, and says how the life ended.
pub fn lead<S: Source, G: Images, W: Sink>(
    alloc: Global,
    life: Life,
    source: &mut S,
    images: &mut G,
    name: &str,
    sink: &mut W,
    memory: &mut Memory,
) -> Result<Outcome, NoReport>
    requires { memory.old ≡ [] }
    ensures reported { IfOk result (HasReported life name.now
        (ports (S.left source.old) (S.count source.old) (W.held sink.old) (W.count sink.old) (G.kept images.old) (G.count images.old))
        (ports (S.left source.new) (S.count source.new) (W.held sink.new) (W.count sink.new) (G.kept images.new) (G.count images.new))
        memory.new) }
    ensures refused { IfErr result (IsUnreported life name.now
        (ports (S.left source.old) (S.count source.old) (W.held sink.old) (W.count sink.old) (G.kept images.old) (G.count images.old))
        (ports (S.left source.new) (S.count source.new) (W.held sink.new) (W.count sink.new) (G.kept images.new) (G.count images.new))
        memory.new) }
{
    let script = match read(alloc, source) {
        Ok(script) => script,
        Err(refusal) => return Err(NoReport::Unread(refusal)),
    };
    match open(alloc, life, &script, images, name) {
        Ok(opened) => *memory = opened,
        Err(refusal) => return Err(NoReport::Unopened(refusal)),
    }
    let report = match live(alloc, &script, life, memory) {
        Ok(report) => report,
        Err(_) => return Err(NoReport::Untold),
    };
    if let Err(refusal) = save(alloc, images, name, memory, &script.settings, &script.keep) {
        return Err(NoReport::Unsaved(refusal));
    }
    match write(alloc, &report, sink) {
        Ok(()) => Ok(report.outcome),
        Err(refusal) => Err(NoReport::Unwritten(refusal)),
    }
}
