//! One thread's handle on a yard.

ghost use Rattle.std.specs.Prelude.{◌≡◌, Option, List, IfOk, IfErr};
ghost use Rattle.yard_model.specs.declared.view.View.{View as TheView};
ghost use Rattle.yard_model.specs.Conditions.{MayLock, MayTick};
ghost use Rattle.room_yard.specs.Told.{Told, IsTold, HasOwn, with_own};
ghost use Rattle.yard_model.specs.declared.view.OwnMark.{OwnMark as TheOwnMark};
ghost use Rattle.room_yard.specs.Calls.{room_held, MayTryLeave, MayTryClaim, MayTryStand, MayReturn, MayGiveUp, MayDrawEntry, MayEndEpoch};
ghost use Rattle.room_yard.specs.Answers.{HasLeft, LeaveRests, Locked, LockIsHeld, Unlocked, Retreated, Drew, Stood, StandIsRefused, Claimed, ClaimRests, EndedEpoch, SawPower, Ticked, TurnedOff};

use crate::answers::{Held, HoldsLock, Rest};
use life_model::Mark;
use restart_point::ThreadEnd;
use seq_object::Entry;
use yard_model::{Phase, Room};

/// One thread's handle on a yard of rooms under locks. No call waits, and none takes memory.
///
/// A handle means its thread's view. Where it has the whole yard it tells the yard's state too, which is lawful between any
/// two calls; no call asks that it is told. Where it has not, it tells the checkpoints that its thread released, as many as the view
/// says.
///
/// After `powered` gave false, and after `off`, only `phase`, `thread`, `holds`, `is_off`, `powered`, `retreat`, `tick` and
/// `off` may be called.
pub trait Post {
    ghost view: { Self → TheView };

    // The whole yard, where the handle has it.
    ghost told: { Self → Option Told };

    // The checkpoints that its thread released, in order, where the handle keeps them.
    ghost own_marks: { Self → Option (List TheOwnMark) };

    /// Where the thread is: at its restart point, at its commands, or closing an epoch.
    fn phase(&self) -> Phase
        ensures is { result ≡ (view self.now).phase }
        ensures told { IsTold (told self.now) (view self.now) }
        ensures own { HasOwn (own_marks self.now) (view self.now) };

    /// The thread's number, from 0.
    fn thread(&self) -> u32
        ensures is { result ≡ (view self.now).thread }
        ensures told { IsTold (told self.now) (view self.now) }
        ensures own { HasOwn (own_marks self.now) (view self.now) };

    /// The number of the room that the thread holds, if it holds one.
    fn holds(&self) -> Option<u32>
        ensures is { result ≡ room_held (view self.now).grip }
        ensures told { IsTold (told self.now) (view self.now) }
        ensures own { HasOwn (own_marks self.now) (view self.now) };

    /// Whether the thread saw the power off, by `powered` or by `off`. It reads no shared word.
    fn is_off(&self) -> bool
        ensures is { result ≡ (view self.now).saw_off }
        ensures told { IsTold (told self.now) (view self.now) }
        ensures own { HasOwn (own_marks self.now) (view self.now) };

    /// Leaves the restart point, with the end of the thread's room, and answers the epoch in which the thread now runs. It
    /// rests where the arrival word found forbids this, and where the exchange met another word.
    fn leave(&mut self, end: ThreadEnd) -> Result<u32, Rest>
        requires may { MayTryLeave (view self.old) end }
        ensures told { IsTold (told self.new) (view self.new) }
        ensures marks { own_marks self.new ≡ own_marks self.old }
        ensures left { IfOk result (λ epoch. HasLeft (view self.old) (told self.old) end epoch (view self.new) (told self.new)) }
        ensures rests { IfErr result (λ rest. LeaveRests (view self.old) (told self.old) end rest (view self.new) (told self.new)) };

    /// Takes a room. `Held` comes exactly where its lock word is found not to be 0, and never while the thread closes.
    fn lock(&mut self, room: u32) -> Result<Room, Held>
        requires may { MayLock (view self.old) room }
        ensures told { IsTold (told self.new) (view self.new) }
        ensures marks { own_marks self.new ≡ own_marks self.old }
        ensures locked { IfOk result (λ value. Locked (view self.old) (told self.old) room value (view self.new) (told self.new)) }
        ensures held { IfErr result (λ held. LockIsHeld (view self.old) (told self.old) room held (view self.new) (told self.new)) };

    /// Gives a room back, with no command under way. Its lock is free.
    fn unlock(&mut self, room: u32, value: Room)
        requires may { MayReturn (view self.old) room value }
        ensures told { IsTold (told self.new) (view self.new) }
        ensures marks { own_marks self.new ≡ own_marks self.old }
        ensures done { Unlocked (view self.old) (told self.old) room value (view self.new) (told self.new) };

    /// Gives a room back as it is, in mid-work, when the thread saw the power off. Its lock is dead: none takes it again.
    fn retreat(&mut self, room: u32, value: Room)
        requires may { MayGiveUp (view self.old) room value }
        ensures told { IsTold (told self.new) (view self.new) }
        ensures marks { own_marks self.new ≡ own_marks self.old }
        ensures done { Retreated (view self.old) (told self.old) room value (view self.new) (told self.new) };

    /// Draws the thread's next entry, and answers its place: the number of entries drawn before in this life.
    fn draw(&mut self, entry: Entry) -> u64
        requires may { MayDrawEntry (view self.old) entry }
        ensures told { IsTold (told self.new) (view self.new) }
        ensures marks { own_marks self.new ≡ own_marks self.old }
        ensures done { Drew (view self.old) (told self.old) entry result (view self.new) (told self.new) };

    /// Stands at the restart point. `HoldsLock` comes exactly where the thread holds a room; nothing is changed then.
    fn stand(&mut self) -> Result<(), HoldsLock>
        requires may { MayTryStand (view self.old) }
        ensures told { IsTold (told self.new) (view self.new) }
        ensures marks { own_marks self.new ≡ own_marks self.old }
        ensures stood { IfOk result (λ _. Stood (view self.old) (told self.old) (view self.new) (told self.new)) }
        ensures refused { IfErr result (λ held. StandIsRefused (view self.old) (told self.old) held (view self.new) (told self.new)) };

    /// Begins to close the epoch, in which all threads stand. It rests as `leave` does.
    fn claim(&mut self) -> Result<(), Rest>
        requires may { MayTryClaim (view self.old) }
        ensures told { IsTold (told self.new) (view self.new) }
        ensures marks { own_marks self.new ≡ own_marks self.old }
        ensures claimed { IfOk result (λ _. Claimed (view self.old) (told self.old) (view self.new) (told self.new)) }
        ensures rests { IfErr result (λ rest. ClaimRests (view self.old) (told self.old) rest (view self.new) (told self.new)) };

    /// Ends the epoch, all of whose rooms are done, and acknowledges the checkpoint: the next epoch, with the number of
    /// entries that are saved. `over` says that the life ends with it, `fed` that the next epoch begins with an item in the
    /// queue.
    fn release(&mut self, over: bool, fed: bool) -> Mark
        requires may { MayEndEpoch (view self.old) over fed }
        ensures told { IsTold (told self.new) (view self.new) }
        ensures marks { own_marks self.new ≡ with_own (own_marks self.old) (record { mark = result; over = over }) }
        ensures done { EndedEpoch (view self.old) (told self.old) over fed result (view self.new) (told self.new) };

    /// Whether the power is on: whether the tick word is below the limit. Once it gave false it always does.
    fn powered(&mut self) -> bool
        ensures told { IsTold (told self.new) (view self.new) }
        ensures marks { own_marks self.new ≡ own_marks self.old }
        ensures saw { SawPower (view self.old) (told self.old) result (view self.new) (told self.new) };

    /// Counts one event that was done.
    fn tick(&mut self)
        requires may { MayTick (view self.old) }
        ensures told { IsTold (told self.new) (view self.new) }
        ensures marks { own_marks self.new ≡ own_marks self.old }
        ensures done { Ticked (view self.old) (told self.old) (view self.new) (told self.new) };

    /// Turns the power off for all threads.
    fn off(&mut self)
        ensures told { IsTold (told self.new) (view self.new) }
        ensures marks { own_marks self.new ≡ own_marks self.old }
        ensures done { TurnedOff (view self.old) (told self.old) (view self.new) (told self.new) };
}
