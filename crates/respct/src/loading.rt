//! Loads the image of a name, and judges it.

ghost use Rattle.std.specs.Prelude.{◌≡◌, ◌≤◌, List, Some, Ok, Err, IfOk, IfErr};
ghost use Rattle.std.specs.FinMap.{get};
ghost use Rattle.byte_ports.specs.Causes.{Rose};
ghost use Rattle.byte_ports.specs.Images.{Named};
ghost use Rattle.power_cut.specs.declared.fault.ImageFault.{ImageFault};
ghost use Rattle.power_cut.specs.declared.fault.ReadImageRefusal.TheVariants.{Fault};
ghost use Rattle.respct.specs.Loads.{HasLoaded, IsImageOf, IsNotLoaded, AreRefusedBy, IsLoadDecided, OneFaultLaw, FaultyLaw};

use byte_ports::{Images, StoreRefusal};
use image_check::{Recovered, check_image};
use power_cut::{Image, ImageFault, ReadImageRefusal, read_image};
use std::alloc::Global;

/// A whole and lawful image, and what it recovers to.
#[derive(Debug, PartialEq, Eq, Drop)]
pub struct Loaded {
    /// The image.
    pub image: Image,
    /// Its epoch, and the state that it recovers to.
    pub found: Recovered,
}

/// Why no image is loaded.
#[derive(Clone, Copy, Debug, PartialEq, Eq)]
pub enum NotLoaded {
    /// The store failed.
    Failed,
    /// The store keeps nothing under the name.
    Missing,
    /// What the store keeps under the name is no lawful image: its first fault.
    Fault(ImageFault),
    /// Memory ran out.
    OutOfMemory,
}

/// The image under this name, and what it recovers to. A fault is the first one: of the bytes, where they spell no image, and else of the
/// image's words. The store keeps what it had.
pub fn load<G: Images>(alloc: Global, images: &mut G, name: &str) -> Result<Loaded, NotLoaded>
    ensures loaded { IfOk result (HasLoaded (G.kept images.old) name.now) }
    ensures refused { IfErr result (IsNotLoaded (G.kept images.old) name.now (G.count images.old) (G.count images.new)) }
    ensures same { G.kept images.new ≡ G.kept images.old }
    ensures later { G.count images.old ≤ G.count images.new }
    ensures decided { (Rose (G.count images.old) (G.count images.new) → ⊥)
        → (named : Named) → G.kept images.old ≡ Some named → IsLoadDecided (get named name.now) result }
{
    let bytes = match images.load(alloc, name) {
        Ok(Some(bytes)) => bytes,
        Ok(None) => return Err(NotLoaded::Missing),
        Err(StoreRefusal::Failed) => return Err(NotLoaded::Failed),
        Err(StoreRefusal::OutOfMemory) => return Err(NotLoaded::OutOfMemory),
    };
    match judge(alloc, bytes.as_slice()) {
        Ok(loaded) => Ok(loaded),
        Err(ReadImageRefusal::Fault(fault)) => Err(NotLoaded::Fault(fault)),
        Err(ReadImageRefusal::OutOfMemory) => Err(NotLoaded::OutOfMemory),
    }
}

/// The image that these bytes spell, and what it recovers to, or the first fault. Want of memory may come in place of either.
fn judge(alloc: Global, bytes: &[u8]) -> Result<Loaded, ReadImageRefusal>
    ensures image { IfOk result (IsImageOf bytes.now) }
    ensures fault { (fault : ImageFault) → result ≡ Err (Fault fault) → AreRefusedBy bytes.now fault }
{
    let image = match read_image(alloc, bytes) {
        Ok(image) => image,
        Err(refusal) => return Err(refusal),
    };
    match check_image(alloc, &image) {
        Ok(found) => Ok(Loaded { image, found }),
        Err(refusal) => Err(refusal),
    }
}

/// Bytes have one first fault at most, and none where they are those of a lawful image.
pub fn load_laws()
    ensures one { OneFaultLaw }
    ensures none { FaultyLaw }
{}
