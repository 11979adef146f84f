//! Which room a command goes to.
//!
//! A command goes to one room alone, so that commands of different rooms need not wait for each
//! other.
ghost use Rattle.std.specs.Prelude.{◌≡◌, ◌<◌};
ghost use Rattle.seq_object.specs.Sizes.{sizes_of};
ghost use Rattle.seq_object.specs.Object.{room_of};

use crate::command::Command;
use crate::settings::Settings;

/// The number of a command's room. The shards' rooms come first, in order, and the queue's room
/// after them; a command of the map goes to the room of its key's shard.
pub fn route(settings: &Settings, command: &Command) -> u32
    requires { 0 < settings.now.shards }
    ensures { result ≡ room_of (sizes_of settings.now) command.now }
{
    match *command {
        Command::Put(key, _) | Command::Get(key) | Command::Del(key) => {
            (key % u64::from(settings.shards)) as u32
        }
        Command::Enq(_) | Command::Deq | Command::Take => settings.shards,
    }
}
