//! What no clause says: the words that a seed draws, by values of SplitMix64 worked out elsewhere, and that the calls
//! succeed.

use crate::survivors::{next_drawn, words_from};
use crate::{Choice, Kept, may_be_left, survive};
use line_memory::Bank;
use std::alloc::{AllocError, Global};
use std::process::Abort;
use std::test::Fail;

const FIRST: [u64; 8] = [1, 0, 0, 0, 0, 0, 0, 0];

const SECOND: [u64; 8] = [2, 0, 0, 0, 0, 0, 0, 0];

const STORED: [u64; 8] = [10, 0, 0, 0, 0, 0, 0, 0];

const THIRD: [u64; 8] = [3, 0, 0, 0, 0, 0, 0, 0];

const THREE: [u64; 8] = [10, 20, 30, 0, 0, 0, 0, 0];

const FOUR: [u64; 8] = [10, 20, 30, 40, 0, 0, 0, 0];

const FIVE: [u64; 8] = [10, 20, 30, 40, 50, 0, 0, 0];

/// A bank of three lines with 0, 1 and 5 pending stores; the store of number k, from 1 on, writes 10 k to word k - 1.
fn three_lines(rt: &impl Abort, alloc: Global) -> Result<Bank, AllocError> {
    let mut base = Vec::new(alloc);
    base.push(FIRST)?;
    base.push(SECOND)?;
    base.push(THIRD)?;
    let mut bank = Bank::of(alloc, base)?;
    make(rt, &mut bank, 1, 1)?;
    make(rt, &mut bank, 2, 5)?;
    Ok(bank)
}

/// Makes so many stores to the line.
fn make(rt: &impl Abort, bank: &mut Bank, line: u32, stores: u32) -> Result<(), AllocError> {
    for word in 0..stores {
        assert!(rt; line < bank.lines() && word < 8);
        bank.reserve(line, 1)?;
        bank.store(line, word, 10 * (u64::from(word) + 1));
    }
    Ok(())
}

/// What the choice leaves of these lines, where they begin at this number, and that it may be left.
fn leaves(
    rt: &impl Abort,
    bank: &Bank,
    choice: &Choice,
    first: u16,
    want: &[[u64; 8]],
    alloc: Global,
) -> Result<bool, AllocError> {
    assert!(rt; bank.lines() == 3);
    let left = survive(alloc, bank, choice, u32::from(first))?;
    Ok(left.as_slice() == want && may_be_left(bank, left.as_slice()))
}

#[test]
fn words_of_a_seed(rt: HostRuntime) -> Result<(), Fail> {
    let mut words = words_from(0, 0);
    for want in [
        16294208416658607535,
        7960286522194355700,
        487617019471545679,
    ] {
        assert_eq!(rt; next_drawn(&mut words), want);
    }
    let mut words = words_from(7, 2);
    for want in [
        16616101746815609346,
        10753165928301472203,
        8346079845500723674,
    ] {
        assert_eq!(rt; next_drawn(&mut words), want);
    }
    Ok(())
}

#[test]
fn lines_by_choice(rt: HostRuntime) -> Result<(), Fail> {
    let alloc = rt.alloc();
    let bank = three_lines(&rt, alloc)?;
    let mut entries = Vec::new(alloc);
    for (line, count) in [(6, 3), (9, 1), (6, 1), (5, 7)] {
        entries.push(Kept { line, count })?;
    }
    let listed = Choice::List(entries);
    assert!(rt;
        leaves(
            &rt,
            &bank,
            &Choice::Nothing,
            0,
            &[FIRST, SECOND, THIRD],
            alloc
        )?
    );
    assert!(rt; leaves(&rt, &bank, &Choice::All, 4, &[FIRST, STORED, FIVE], alloc)?);
    assert!(rt;
        leaves(
            &rt,
            &bank,
            &Choice::Seed(7),
            0,
            &[FIRST, SECOND, THIRD],
            alloc
        )?
    );
    assert!(rt;
        leaves(
            &rt,
            &bank,
            &Choice::Seed(7),
            2,
            &[FIRST, STORED, FOUR],
            alloc
        )?
    );
    assert!(rt; leaves(&rt, &bank, &listed, 4, &[FIRST, STORED, THREE], alloc)?);
    Ok(())
}

#[test]
fn lines_that_may_not_be_left(rt: HostRuntime) -> Result<(), Fail> {
    let bank = three_lines(&rt, rt.alloc())?;
    assert!(rt; may_be_left(&bank, &[FIRST, SECOND, THREE]));
    assert!(rt; !may_be_left(&bank, &[FIRST, SECOND]));
    assert!(rt; !may_be_left(&bank, &[FIRST, SECOND, [3, 20, 0, 0, 0, 0, 0, 0]]));
    assert!(rt; !may_be_left(&bank, &[SECOND, SECOND, FIVE]));
    Ok(())
}
