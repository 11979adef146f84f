//! One script of all commands with replies worked out by hand, and an object that is driven full.
//!
//! The rest is a table of settings at their limits, and one of rooms.

use crate::command::{Command, Reply};
use crate::history::Pair;
use crate::plain::Plain;
use crate::routing::route;
use crate::settings::Settings;
use std::test::Fail;

// Two threads, two shards, sixteen lines a room: seven keys a shard, and fourteen items.
const SETTINGS: Settings = Settings {
    threads: 2,
    shards: 2,
    lines: 16,
    every: 5,
};

#[test]
fn settings_at_their_limits(rt: HostRuntime) {
    for (threads, shards, lines, every, want) in [
        (1, 1, 16, 1, true),
        (16, 8, 65_536, 1_024, true),
        (0, 1, 16, 1, false),
        (17, 8, 65_536, 1_024, false),
        (1, 0, 16, 1, false),
        (16, 9, 65_536, 1_024, false),
        (1, 1, 15, 1, false),
        (16, 8, 65_537, 1_024, false),
        (1, 1, 16, 0, false),
        (16, 8, 65_536, 1_025, false),
    ] {
        let settings = Settings {
            threads,
            shards,
            lines,
            every,
        };
        assert_eq!(rt;
            settings.valid(),
            want,
            "at {threads} {shards} {lines} {every}"
        );
    }
}

#[test]
fn rooms_of_commands(rt: HostRuntime) {
    for (command, room) in [
        (Command::Put(5, 7), 1),
        (Command::Get(4), 0),
        (Command::Del(u64::MAX), 1),
        (Command::Enq(5), 2),
        (Command::Deq, 2),
        (Command::Take, 2),
    ] {
        assert_eq!(rt; route(&SETTINGS, &command), room);
    }
}

#[test]
fn all_commands(rt: HostRuntime) -> Result<(), Fail> {
    let alloc = rt.alloc();
    let mut object = Plain::new(alloc, SETTINGS);
    for (command, reply) in [
        (Command::Get(5), Some(Reply::Absent)),
        (Command::Put(5, 7), Some(Reply::New)),
        (Command::Put(5, 8), Some(Reply::Old(7))),
        (Command::Put(2, u64::MAX), Some(Reply::New)),
        (Command::Put(3, 1), Some(Reply::New)),
        (Command::Get(5), Some(Reply::Found(8))),
        (Command::Del(3), Some(Reply::Gone(1))),
        (Command::Del(3), Some(Reply::Absent)),
        (Command::Take, None),
        (Command::Deq, Some(Reply::Empty)),
        (Command::Enq(10), Some(Reply::Done)),
        (Command::Enq(11), Some(Reply::Done)),
        (Command::Enq(12), Some(Reply::Done)),
        (Command::Enq(13), Some(Reply::Done)),
        (Command::Take, Some(Reply::Found(10))),
        (Command::Deq, Some(Reply::Found(11))),
    ] {
        assert_eq!(rt; object.apply(command)?, reply);
    }
    let pairs = object.pairs(alloc)?;
    let first = Pair {
        key: 2,
        value: u64::MAX,
    };
    let second = Pair { key: 5, value: 8 };
    assert_eq!(rt; pairs.as_slice(), [first, second].as_slice());
    let items = object.items(alloc)?;
    assert_eq!(rt; items.as_slice(), [12, 13].as_slice());
    Ok(())
}

#[test]
fn full(rt: HostRuntime) -> Result<(), Fail> {
    let mut object = Plain::new(rt.alloc(), SETTINGS);
    for key in 0..7u64 {
        assert_eq!(rt; object.apply(Command::Put(2 * key, key))?, Some(Reply::New));
    }
    assert_eq!(rt; object.apply(Command::Put(14, 0))?, Some(Reply::Full));
    assert_eq!(rt; object.apply(Command::Put(12, 9))?, Some(Reply::Old(6)));
    assert_eq!(rt; object.apply(Command::Put(1, 1))?, Some(Reply::New));
    assert_eq!(rt; object.apply(Command::Del(0))?, Some(Reply::Gone(0)));
    assert_eq!(rt; object.apply(Command::Put(14, 0))?, Some(Reply::New));
    for item in 0..14 {
        assert_eq!(rt; object.apply(Command::Enq(item))?, Some(Reply::Done));
    }
    assert_eq!(rt; object.apply(Command::Enq(14))?, Some(Reply::Full));
    assert_eq!(rt; object.apply(Command::Deq)?, Some(Reply::Found(0)));
    assert_eq!(rt; object.apply(Command::Enq(14))?, Some(Reply::Done));
    Ok(())
}
