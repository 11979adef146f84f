//! Saves the image that a power cut leaves of a memory.

ghost use Rattle.std.specs.Prelude.{◌≡◌, ◌≤◌, OnOk, OnErr};
ghost use Rattle.std.specs.Result.{IsErrOf};
ghost use Rattle.byte_ports.specs.Causes.{Rose};
ghost use Rattle.byte_ports.specs.Images.{SetsName, OthersSame};
ghost use Rattle.seq_object.specs.Sizes.{AreValid, sizes_of};
ghost use Rattle.room_model.specs.Image.{image_of, HasRooms};
ghost use Rattle.power_cut.specs.Cut.{choosing};
ghost use Rattle.power_cut.specs.Image.{AreWhole};
ghost use Rattle.power_cut.specs.Bytes.{image_bytes_of};

use byte_ports::{Images, StoreRefusal};
use line_memory::Memory;
use power_cut::{cut, image_bytes};
use seq_object::Settings;
use std::alloc::Global;
use store_order::Choice;

/// Keeps under a name the image that this choice leaves of a memory; it is whole where the memory has the rooms of the settings. After a refusal what is under the name is open, and no other name has
/// changed.
pub fn save<G: Images>(
    alloc: Global,
    images: &mut G,
    name: &str,
    memory: &Memory,
    settings: &Settings,
    keep: &Choice,
) -> Result<(), StoreRefusal>
    requires { AreValid (sizes_of settings.now) }
    ensures saved { OnOk result (SetsName (G.kept images.old) (G.kept images.new) name.now
        (image_bytes_of (sizes_of settings.now) (image_of memory.now (choosing keep.now memory.now)))) }
    ensures whole { OnOk result (HasRooms (sizes_of settings.now) memory.now → AreWhole (sizes_of settings.now) (image_of memory.now (choosing keep.now memory.now))) }
    ensures refused { OnErr result (OthersSame (G.kept images.old) (G.kept images.new) name.now) }
    ensures later { G.count images.old ≤ G.count images.new }
    ensures failed { IsErrOf result StoreRefusal.Failed → Rose (G.count images.old) (G.count images.new) }
{
    let image = match cut(alloc, memory, settings, keep) {
        Ok(image) => image,
        Err(_) => return Err(StoreRefusal::OutOfMemory),
    };
    match image_bytes(alloc, &image) {
        Ok(bytes) => images.save(name, bytes.as_slice()),
        Err(_) => Err(StoreRefusal::OutOfMemory),
    }
}
