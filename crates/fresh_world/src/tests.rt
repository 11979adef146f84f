//! Fresh worlds of two threads over one shard, compared with values that were worked out by hand.

use crate::fresh;
use formatting::format;
use room_yard::World;
use seq_object::Settings;
use std::alloc::{AllocError, Global};
use std::test::Fail;

const SETTINGS: Settings = Settings {
    threads: 2,
    shards: 1,
    lines: 16,
    every: 1,
};

/// The world of a start whose threads have so many commands.
fn world_of(alloc: Global, first: u32, second: u32) -> Result<World, AllocError> {
    let memory = format(alloc, &SETTINGS)?;
    fresh(alloc, memory, SETTINGS, &[first, second])
}

#[test]
fn worlds_of_two_threads(rt: HostRuntime) -> Result<(), Fail> {
    for (first, second, arrival) in [
        (3, 1, 4_294_967_299),
        (0, 1, 4_294_967_299),
        (0, 0, 4_295_098_371),
    ] {
        let world = world_of(rt.alloc(), first, second)?;
        assert_eq!(rt; world.arrival(), arrival);
        assert_eq!(rt; world.clock(), 0);
        assert_eq!(rt; world.held().len(), 0);
        assert_eq!(rt; world.rooms().len(), 5);
    }
    Ok(())
}
