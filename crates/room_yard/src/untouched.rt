//! A room that is taken and given back untouched, over any handle.

ghost use Rattle.std.specs.Prelude.{◌≡◌, ◌+◌, ◌<◌, IfOk, IfErr};
ghost use Rattle.yard_model.specs.Knows.{sizes_known};
ghost use Rattle.yard_model.specs.Conditions.{MayLock};
ghost use Rattle.room_yard.specs.Told.{IsTold, BothTell};
ghost use Rattle.room_yard.specs.Answers.{HasLooked};
ghost use Rattle.room_yard.specs.Untouched.{ReturnsUntouchedLaw, AddsNothing};

use crate::answers::Held;
use crate::post::Post;
use yard_model::Phase;

/// A map room may go home as `lock` gave it, and the view is then what it was.
pub fn returns_untouched_law()
    ensures { ReturnsUntouchedLaw }
{}

/// Takes a map room and gives it back untouched. The thread's view is what it was, and no entry or checkpoint joined. `Held`
/// comes where the room's lock was found taken, by a look.
pub fn touch<P: Post>(post: &mut P, room: u32) -> Result<(), Held>
    requires may { MayLock (P.view post.old) room }
    requires running { (P.view post.old).phase ≡ Phase.Running }
    requires shard { room < (sizes_known (P.view post.old)).shards }
    ensures told { IsTold (P.told post.new) (P.view post.new) }
    ensures same { IfOk result (λ _. P.view post.new ≡ P.view post.old) }
    ensures looked { IfErr result (λ held. HasLooked (P.view post.old) (P.view post.new) (3 + room) held.by) }
    ensures nothing { BothTell (P.told post.old) (P.told post.new) AddsNothing }
    ensures marks { P.own_marks post.new ≡ P.own_marks post.old }
{
    let value = post.lock(room)?;
    post.unlock(room, value);
    Ok(())
}
