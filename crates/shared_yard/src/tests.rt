//! A yard of two threads over one shard: its seats used in turn, with answers worked out by hand, and by two threads at once.

ghost use Rattle.std.specs.Prelude.{◌≡◌, ◌<◌, ◌≤◌, ℕ, false, [], ◌∷◌, IfOk, None, vec_capacity};
ghost use Rattle.seq_object.specs.declared.command.Command.TheVariants.{Get as GetOf};
ghost use Rattle.restart_point.specs.declared.thread_end.ThreadEnd.TheVariants.{Ready as IsReady};
ghost use Rattle.yard_model.specs.declared.view.Phase.TheVariants.{Running as IsRunning};
ghost use Rattle.yard_model.specs.Opens.{opening_view};
ghost use Rattle.room_yard.specs.Calls.{MayTryLeave};
ghost use Rattle.shared_yard.specs.Rule.{one_view};
ghost use Rattle.shared_yard.specs.Seats.{IsSeatOf, AreOpeningSeats, known_at};
ghost use Rattle.shared_yard.specs.Names.{AreOfYard};

use crate::{NoYard, SharedPost, SharedYard, YardName, YardSeat};
use formatting::format;
use fresh_world::fresh;
use restart_point::ThreadEnd;
use room_yard::{Held, Post as _, World};
use seq_object::{Command, Settings};
use std::alloc::{AllocError, Global};
use std::marker::Brand;
use std::process::Abort;
use std::test::Fail;
use std::thread::{Threads, join};
use yard_model::Room;

const SETTINGS: Settings = Settings {
    threads: 2,
    shards: 1,
    lines: 16,
    every: 1,
};

/// A script of one command.
fn one_get(alloc: Global) -> Result<Vec<Command>, AllocError>
    ensures { IfOk result (λ script. script.items ≡ GetOf 5 ∷ []) }
{
    let mut script = Vec::new(alloc);
    script.push(Command::Get(5))?;
    Ok(script)
}

/// A yard of two threads that have a command each, whose power is off behind 1,000 events, and its seats.
fn two_threads(alloc: Global) -> Result<(SharedYard, Vec<YardSeat>), AllocError>
    ensures threads { IfOk result (λ y. y.0.beginning.settings.threads ≡ 2) }
    ensures shards { IfOk result (λ y. y.0.beginning.settings.shards ≡ 1) }
    ensures may { IfOk result (λ y. (i : ℕ) → i < 2 → MayTryLeave (opening_view y.0.beginning i) IsReady) }
    ensures seats { IfOk result (λ y. AreOpeningSeats y.0 y.1.items) }
{
    let mut scripts = Vec::new(alloc);
    scripts.push(one_get(alloc)?)?;
    scripts.push(one_get(alloc)?)?;
    let memory = format(alloc, &SETTINGS)?;
    let world = fresh(alloc, memory, SETTINGS, &[1, 1])?;
    match SharedYard::new(alloc, world, SETTINGS, &scripts, 1000) {
        Ok(made) => Ok(made),
        Err(NoYard { world: _ }) => Err(AllocError),
    }
}

/// A thread leaves its restart point: the word shows epoch 1.
fn leaves<N: YardName>(rt: &impl Abort, post: &mut SharedPost<'_, N>)
    requires may { MayTryLeave (one_view post.old.seat.me.0) IsReady }
    requires free { (one_view post.old.seat.me.0).grip ≡ None }
    ensures runs { (one_view post.new.seat.me.0).phase ≡ IsRunning }
    ensures on { (one_view post.new.seat.me.0).saw_off ≡ false }
    ensures free { (one_view post.new.seat.me.0).grip ≡ None }
    ensures thread { (one_view post.new.seat.me.0).thread ≡ (one_view post.old.seat.me.0).thread }
    ensures begins { (one_view post.new.seat.me.0).beginning ≡ (one_view post.old.seat.me.0).beginning }
{
    match post.leave(ThreadEnd::Ready) {
        Ok(epoch) => assert_eq!(rt; epoch, 1),
        Err(_) => panic!(rt; "the thread may leave"),
    }
}

/// A running thread takes a room of commands, and gives it back. Answers whether it is the queue's.
fn takes<N: YardName>(post: &mut SharedPost<'_, N>, room: u32) -> Result<bool, Held>
    requires runs { (one_view post.old.seat.me.0).phase ≡ IsRunning }
    requires on { (one_view post.old.seat.me.0).saw_off ≡ false }
    requires free { (one_view post.old.seat.me.0).grip ≡ None }
    requires room { room ≤ (one_view post.old.seat.me.0).beginning.settings.shards }
    ensures runs { (one_view post.new.seat.me.0).phase ≡ IsRunning }
    ensures on { (one_view post.new.seat.me.0).saw_off ≡ false }
    ensures free { (one_view post.new.seat.me.0).grip ≡ None }
    ensures thread { (one_view post.new.seat.me.0).thread ≡ (one_view post.old.seat.me.0).thread }
    ensures begins { (one_view post.new.seat.me.0).beginning ≡ (one_view post.old.seat.me.0).beginning }
{
    let value = post.lock(room)?;
    let is_queue = matches!(&value, Room::Queue(_));
    post.unlock(room, value);
    Ok(is_queue)
}

/// While the first thread, thread 0, holds the map room, the second finds it taken, and the first may not stand.
fn shares_a_room<N: YardName>(
    rt: &impl Abort,
    first: &mut SharedPost<'_, N>,
    second: &mut SharedPost<'_, N>,
)
    requires runs { ((one_view first.old.seat.me.0).phase ≡ IsRunning) × ((one_view second.old.seat.me.0).phase ≡ IsRunning) }
    requires on { ((one_view first.old.seat.me.0).saw_off ≡ false) × ((one_view second.old.seat.me.0).saw_off ≡ false) }
    requires free { ((one_view first.old.seat.me.0).grip ≡ None) × ((one_view second.old.seat.me.0).grip ≡ None) }
    requires shards { ((one_view first.old.seat.me.0).beginning.settings.shards ≡ 1) × ((one_view second.old.seat.me.0).beginning.settings.shards ≡ 1) }
    ensures first { one_view first.new.seat.me.0 ≡ one_view first.old.seat.me.0 }
    ensures runs { (one_view second.new.seat.me.0).phase ≡ IsRunning }
    ensures on { (one_view second.new.seat.me.0).saw_off ≡ false }
    ensures free { (one_view second.new.seat.me.0).grip ≡ None }
    ensures thread { (one_view second.new.seat.me.0).thread ≡ (one_view second.old.seat.me.0).thread }
    ensures begins { (one_view second.new.seat.me.0).beginning ≡ (one_view second.old.seat.me.0).beginning }
{
    let room = match first.lock(0) {
        Ok(room) => room,
        Err(_) => panic!(rt; "the map room is free"),
    };
    match takes(second, 0) {
        Ok(_) => panic!(rt; "the map room is taken"),
        Err(held) => assert_eq!(rt; held.by, 1),
    }
    match first.stand() {
        Ok(()) => panic!(rt; "a room is held"),
        Err(holds) => assert_eq!(rt; holds.room, 0),
    }
    first.unlock(0, room);
}

/// Both threads leave, want the map room, and the second then has the queue room and the map room.
fn in_turn<N: YardName>(
    rt: &impl Abort,
    yard: &SharedYard,
    first: YardSeat,
    second: YardSeat,
) -> (YardSeat, YardSeat)
    requires named { AreOfYard yard.now N.table N.beginning }
    requires shards { yard.now.beginning.settings.shards ≡ 1 }
    requires first { IsSeatOf yard.now first × MayTryLeave (known_at first).view IsReady × ((known_at first).view.grip ≡ None) }
    requires second { IsSeatOf yard.now second × MayTryLeave (known_at second).view IsReady × ((known_at second).view.grip ≡ None) }
    ensures first { IsSeatOf yard.now result.0 × ((known_at result.0).view.grip ≡ None) × ((known_at result.0).view.thread ≡ (known_at first).view.thread) }
    ensures second { IsSeatOf yard.now result.1 × ((known_at result.1).view.grip ≡ None) × ((known_at result.1).view.thread ≡ (known_at second).view.thread) }
{
    let mut one = yard.post::<N>(first);
    let mut two = yard.post::<N>(second);
    leaves(rt, &mut one);
    leaves(rt, &mut two);
    shares_a_room(rt, &mut one, &mut two);
    assert!(rt; takes(&mut two, 1) == Ok(true));
    assert!(rt; takes(&mut two, 0) == Ok(false));
    (one.into_seat(), two.into_seat())
}

/// The same, of seats at their own yard.
fn in_turn_there(
    rt: &impl Abort,
    yard: &SharedYard,
    first: YardSeat,
    second: YardSeat,
) -> (YardSeat, YardSeat)
    requires shards { yard.now.beginning.settings.shards ≡ 1 }
    requires first { IsSeatOf yard.now first × MayTryLeave (known_at first).view IsReady × ((known_at first).view.grip ≡ None) }
    requires second { IsSeatOf yard.now second × MayTryLeave (known_at second).view IsReady × ((known_at second).view.grip ≡ None) }
    ensures first { IsSeatOf yard.now result.0 × ((known_at result.0).view.grip ≡ None) × ((known_at result.0).view.thread ≡ (known_at first).view.thread) }
    ensures second { IsSeatOf yard.now result.1 × ((known_at result.1).view.grip ≡ None) × ((known_at result.1).view.thread ≡ (known_at second).view.thread) }
{
    in_turn::<Brand>(rt, yard, first, second)
}

/// A thread leaves, and takes the map room and gives it back, where the words that it finds let it.
fn works<N: YardName>(yard: &SharedYard, seat: YardSeat) -> YardSeat
    requires named { AreOfYard yard.now N.table N.beginning }
    requires seat { IsSeatOf yard.now seat × MayTryLeave (known_at seat).view IsReady × ((known_at seat).view.grip ≡ None) }
    ensures seat { IsSeatOf yard.now result × ((known_at result).view.grip ≡ None) × ((known_at result).view.thread ≡ (known_at seat).view.thread) }
{
    let mut post = yard.post::<N>(seat);
    if post.leave(ThreadEnd::Ready).is_ok() {
        let _taken = takes(&mut post, 0);
    }
    post.into_seat()
}

/// The same, of a seat at its own yard.
fn works_there(yard: &SharedYard, seat: YardSeat) -> YardSeat
    requires seat { IsSeatOf yard.now seat × MayTryLeave (known_at seat).view IsReady × ((known_at seat).view.grip ≡ None) }
    ensures seat { IsSeatOf yard.now result × ((known_at result).view.grip ≡ None) × ((known_at result).view.thread ≡ (known_at seat).view.thread) }
{
    works::<Brand>(yard, seat)
}

/// Two threads at once, each with a seat.
fn at_once<R: Threads>(
    rt: &R,
    yard: &SharedYard,
    first: YardSeat,
    second: YardSeat,
) -> (YardSeat, YardSeat)
    requires first { IsSeatOf yard.now first × MayTryLeave (known_at first).view IsReady × ((known_at first).view.grip ≡ None) }
    requires second { IsSeatOf yard.now second × MayTryLeave (known_at second).view IsReady × ((known_at second).view.grip ≡ None) }
    ensures first { IsSeatOf yard.now result.0 × ((known_at result.0).view.grip ≡ None) × ((known_at result.0).view.thread ≡ (known_at first).view.thread) }
    ensures second { IsSeatOf yard.now result.1 × ((known_at result.1).view.grip ≡ None) × ((known_at result.1).view.thread ≡ (known_at second).view.thread) }
{
    join(
        rt,
        || works_there(yard, first),
        || works_there(yard, second),
    )
}

/// The two seats of a yard as its life opens, and their list, empty and with room for both.
fn apart(yard: &SharedYard, seats: Vec<YardSeat>) -> (YardSeat, YardSeat, Vec<YardSeat>)
    requires threads { yard.now.beginning.settings.threads ≡ 2 }
    requires may { (i : ℕ) → i < 2 → MayTryLeave (opening_view yard.now.beginning i) IsReady }
    requires seats { AreOpeningSeats yard.now seats.items }
    ensures first { IsSeatOf yard.now result.0 × MayTryLeave (known_at result.0).view IsReady × ((known_at result.0).view.grip ≡ None) }
    ensures second { IsSeatOf yard.now result.1 × MayTryLeave (known_at result.1).view IsReady × ((known_at result.1).view.grip ≡ None) }
    ensures threads { ((known_at result.0).view.thread ≡ 0) × ((known_at result.1).view.thread ≡ 1) }
    ensures empty { result.2.items ≡ [] }
    ensures room { 2 ≤ vec_capacity result.2 }
{
    let mut seats = seats;
    let Some(second) = seats.pop() else {
        unreachable!()
    };
    let Some(first) = seats.pop() else {
        unreachable!()
    };
    (first, second, seats)
}

/// The world of a yard of two threads whose seats these are.
fn closed(yard: SharedYard, first: YardSeat, second: YardSeat, seats: Vec<YardSeat>) -> World
    requires threads { yard.beginning.settings.threads ≡ 2 }
    requires first { IsSeatOf yard first × ((known_at first).view.grip ≡ None) × ((known_at first).view.thread ≡ 0) }
    requires second { IsSeatOf yard second × ((known_at second).view.grip ≡ None) × ((known_at second).view.thread ≡ 1) }
    requires empty { seats.items ≡ [] }
    requires room { 2 ≤ vec_capacity seats }
{
    let mut seats = seats;
    seats.push_reserved(second);
    seats.push_reserved(first);
    yard.close(seats)
}

#[test]
fn seats_used_in_turn(rt: HostRuntime) -> Result<(), Fail> {
    let (yard, seats) = two_threads(rt.alloc())?;
    let (first, second, empty) = apart(&yard, seats);
    assert_eq!(rt; first.thread(), 0);
    assert_eq!(rt; second.thread(), 1);
    let (first, second) = in_turn_there(&rt, &yard, first, second);
    let world = closed(yard, first, second, empty);
    assert_eq!(rt; world.arrival(), 4_294_967_296);
    assert_eq!(rt; world.clock(), 0);
    assert_eq!(rt; world.held().len(), 0);
    assert_eq!(rt; world.rooms().len(), 5);
    Ok(())
}

#[test]
fn two_threads_at_once(rt: HostRuntime) -> Result<(), Fail> {
    let (yard, seats) = two_threads(rt.alloc())?;
    let (first, second, empty) = apart(&yard, seats);
    let (first, second) = at_once(&rt, &yard, first, second);
    let world = closed(yard, first, second, empty);
    assert_eq!(rt; world.clock(), 0);
    assert_eq!(rt; world.held().len(), 0);
    assert_eq!(rt; world.rooms().len(), 5);
    Ok(())
}
