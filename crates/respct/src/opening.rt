//! Makes the memory over which a life begins: formatted at a start; at a resume that of the image under its name, which is loaded, judged and
//! compared with the script.

ghost use Rattle.std.specs.Prelude.{◌≡◌, ◌≤◌, IfOk, IfErr};
ghost use Rattle.seq_object.specs.Sizes.{IsValid};
ghost use Rattle.life_model.specs.declared.life.Life.TheVariants.{Resume};
ghost use Rattle.script_text.specs.Program.{program_of};
ghost use Rattle.respct.specs.Openings.{IsOpened, IsNotOpened, LawfulResumesLaw};

use crate::fitting::{Misfit, misfit_of};
use crate::loading::{Loaded, NotLoaded, load};
use byte_ports::Images;
use formatting::format;
use life_model::Life;
use line_memory::Memory;
use power_cut::image_memory;
use script_text::Script;
use std::alloc::Global;

/// Why there is no memory over which a life may begin.
#[derive(Clone, Copy, Debug, PartialEq, Eq)]
pub enum NotOpened {
    /// The image of a resume could not be loaded, or it is refused.
    Unloaded(NotLoaded),
    /// The image of a resume does not fit the script: the first misfit.
    Misfit(Misfit),
    /// Memory ran out.
    OutOfMemory,
}

/// The memory over which a life of a script begins. Of a resume it has the words of the image that the store keeps under this name in its
/// lines, and nothing is pending; a start takes no image. The store keeps what it had.
pub fn open<G: Images>(
    alloc: Global,
    life: Life,
    script: &Script,
    images: &mut G,
    name: &str,
) -> Result<Memory, NotOpened>
    requires valid { IsValid script.now.settings }
    ensures opened { IfOk result (IsOpened life (G.kept images.old) name.now (program_of script.now)) }
    ensures refused { IfErr result (IsNotOpened life (G.kept images.old) name.now (program_of script.now) (G.count images.old) (G.count images.new)) }
    ensures same { G.kept images.new ≡ G.kept images.old }
    ensures later { G.count images.old ≤ G.count images.new }
{
    match life {
        Life::Start => match format(alloc, &script.settings) {
            Ok(memory) => Ok(memory),
            Err(_) => Err(NotOpened::OutOfMemory),
        },
        Life::Resume => open_image(alloc, script, images, name),
    }
}

/// The memory of the image under this name, which a resume of this script goes on from.
fn open_image<G: Images>(
    alloc: Global,
    script: &Script,
    images: &mut G,
    name: &str,
) -> Result<Memory, NotOpened>
    ensures opened { IfOk result (IsOpened Resume (G.kept images.old) name.now (program_of script.now)) }
    ensures refused { IfErr result (IsNotOpened Resume (G.kept images.old) name.now (program_of script.now) (G.count images.old) (G.count images.new)) }
    ensures same { G.kept images.new ≡ G.kept images.old }
    ensures later { G.count images.old ≤ G.count images.new }
{
    let Loaded { image, found } = match load(alloc, images, name) {
        Ok(loaded) => loaded,
        Err(refusal) => return Err(NotOpened::Unloaded(refusal)),
    };
    if let Some(misfit) = misfit_of(&image, &found, script) {
        return Err(NotOpened::Misfit(misfit));
    }
    match image_memory(alloc, image) {
        Ok(memory) => Ok(memory),
        Err(_) => Err(NotOpened::OutOfMemory),
    }
}

/// From a lawful image some life resumes.
pub fn opening_law()
    ensures { LawfulResumesLaw }
{}
