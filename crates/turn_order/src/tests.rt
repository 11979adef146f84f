//! Orders driven to their ends. The threads were worked out by hand, and the words of a seed were published with SplitMix64.

ghost use Rattle.std.specs.Prelude.{◌<◌};

use crate::TurnOrder;
use script_text::Mode;
use std::test::Fail;

/// Whether the turns of the mode are those of these threads in order, and none comes behind them, however often it is asked for.
fn gives(threads: u32, mode: &Mode, wanted: &[u32]) -> bool
    requires { 0 < threads }
{
    let mut order = TurnOrder::of(threads, mode);
    for thread in wanted {
        if order.next(mode) != Some(*thread) {
            return false;
        }
    }
    order.next(mode).is_none() && order.next(mode).is_none()
}

#[test]
fn seven_turns_go_round_three_threads(rt: HostRuntime) -> Result<(), Fail> {
    assert!(rt; gives(3, &Mode::RoundRobin(7), [0, 1, 2, 0, 1, 2, 0].as_slice()));
    Ok(())
}

#[test]
fn a_list_gives_its_threads_in_order(rt: HostRuntime) -> Result<(), Fail> {
    let threads = vec![in rt.alloc(); 2, 0, 0, 1]?;
    assert!(rt; gives(3, &Mode::Listed(threads), [2, 0, 0, 1].as_slice()));
    Ok(())
}

/// The first words of seed 1234567 are 6457827717110365317, 3203168211198807973, 9817491932198370423, 4593380528125082431 and
/// 16408922859458223821. As 100 is a multiple of 4, their last two digits have their remainders by 4: 17, 73, 23, 31 and 21 leave
/// 1, 1, 3, 3 and 1.
#[test]
fn a_seed_draws_published_words(rt: HostRuntime) -> Result<(), Fail> {
    assert!(rt; gives(4, &Mode::Seeded(1234567, 5), [1, 1, 3, 3, 1].as_slice()));
    Ok(())
}

#[test]
fn no_turns_are_none_from_the_first_on(rt: HostRuntime) -> Result<(), Fail> {
    let none = [].as_slice();
    assert!(rt; gives(2, &Mode::RoundRobin(0), none));
    assert!(rt; gives(2, &Mode::Seeded(7, 0), none));
    assert!(rt; gives(2, &Mode::Listed(Vec::new(rt.alloc())), none));
    Ok(())
}

#[test]
fn threads_that_run_by_themselves_have_no_turns(rt: HostRuntime) -> Result<(), Fail> {
    assert!(rt; gives(2, &Mode::Live(5), [].as_slice()));
    Ok(())
}
