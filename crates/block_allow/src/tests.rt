//! Verdicts worked out by hand.

use crate::{Verdict, may_leave, verdict};
use restart_point::ThreadEnd;
use std::test::Fail;

#[test]
fn verdicts(rt: HostRuntime) -> Result<(), Fail> {
    let (ready, waits, ended) = (ThreadEnd::Ready, ThreadEnd::Waits, ThreadEnd::Ended);
    assert!(rt; may_leave(ready, false) && may_leave(waits, true));
    assert!(rt; !may_leave(waits, false) && !may_leave(ended, true));
    assert!(rt; verdict(&[ended, ended], true) == Verdict::Finished);
    assert!(rt; verdict(&[ended, waits], false) == Verdict::Stalled);
    assert!(rt; verdict(&[ended, waits], true) == Verdict::Goes);
    assert!(rt; verdict(&[waits, ready], false) == Verdict::Goes);
    Ok(())
}
