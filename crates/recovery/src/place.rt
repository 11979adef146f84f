//! Where in their scripts threads go on that resume from a memory.

ghost use Rattle.std.specs.Prelude.{◌≡◌, ◌<◌};
ghost use Rattle.seq_object.specs.Sizes.{sizes_of};
ghost use Rattle.line_memory.specs.Line.{IsQuiet};
ghost use Rattle.room_model.specs.MapRoom.{live_layout};
ghost use Rattle.room_model.specs.Image.{image_of, nothing_kept, IsLawful};
ghost use Rattle.life_model.specs.Life.{Opening, sizes, opening_place};
ghost use Rattle.life_model.specs.Lives.{ResumesFrom};

use crate::begin::memory_epoch_in;
use line_memory::Memory;
use room_model::TAG;
use seq_object::Settings;

/// The place in its script from which a thread goes on that resumes from a memory in which nothing is pending and whose image is lawful, as
/// its recovery will restore it. It may be read before the recovery begins.
pub fn place_in(memory: &Memory, settings: Settings, thread: u32) -> u64
    requires quiet { IsQuiet memory.now }
    requires lawful { IsLawful live_layout (sizes_of settings) (image_of memory.now nothing_kept) }
    requires thread { thread < settings.threads }
    ensures { (o : Opening) → o.settings ≡ settings → ResumesFrom (sizes o) (image_of memory.now nothing_kept) o → result ≡ opening_place o thread }
{
    let epoch = memory_epoch_in(memory);
    let words = memory.bank(settings.sizes().thread_room(thread)).base(0);
    if words[TAG as usize] == u64::from(epoch) {
        words[3]
    } else {
        words[0]
    }
}
