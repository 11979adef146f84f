//! A super room driven on by hand.

use crate::SuperRoom;
use line_memory::Bank;
use std::test::Fail;

#[test]
fn one_epoch_further(rt: HostRuntime) -> Result<(), Fail> {
    let mut base = Vec::new(rt.alloc());
    base.push([7, 0, 0, 0, 0, 0, 0, 0])?;
    let bank = Bank::of(rt.alloc(), base)?;
    let mut room = SuperRoom::of(bank)?;
    assert_eq!(rt; room.epoch(), 7);
    room.store_next();
    assert_eq!(rt; room.epoch(), 8);
    assert_eq!(rt; room.bank().base(0)[0], 7);
    room.write_back();
    room.fence();
    assert_eq!(rt; room.epoch(), 8);
    assert_eq!(rt; room.into_bank().base(0)[0], 8);
    Ok(())
}
