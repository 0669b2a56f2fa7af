// Whole numbers from ticks, and step ranges, at their edges.
use crate::tables::table_of;
use exact::{StepRange, Whole, exact, steps};
use kind::{Pair, Size, Ticks};
use std::test::Fail;
use tape::{Line, Refusal, Table};

// Twice this is 2^63.
const HALF: i64 = 1 << 62;

// The last step that comes into question.
const SPAN: i64 = 1_000_000;

// What the rows hold before a call.

const PAIR: Pair<Ticks> = Pair {
    value: Ticks(7),
    tangent: Ticks(7),
};

const SIZES: Pair<Size> = Pair {
    value: Size(7),
    tangent: Size(7),
};

// A number x, twice it, its difference from itself, and its square.
fn four_registers() -> Result<Table, Refusal> {
    table_of(
        1,
        &[Line::Add(0, 0), Line::Subtract(0, 0), Line::Multiply(0, 0)],
    )
}

// Register, x and its direction; then the value and the slope.
const ANSWERED: [(usize, i64, i64, i64, i64); 9] = [
    (0, i64::MAX, 0, i64::MAX, 0),
    (0, -i64::MAX, i64::MAX, -i64::MAX, i64::MAX),
    (0, HALF, 0, HALF, 0),
    (1, HALF - 1, 0, i64::MAX - 1, 0),
    (1, 1 - HALF, HALF - 1, 1 - i64::MAX, i64::MAX - 1),
    (2, HALF - 1, HALF - 1, 0, 0),
    (3, 1, HALF - 1, 1, i64::MAX - 1),
    (
        3,
        -3_037_000_499,
        1,
        9_223_372_030_926_249_001,
        -6_074_000_998,
    ),
    (3, 0, i64::MAX, 0, 0),
];

// Register, x and its direction, where a size is 2^63 or more: also where the ticks cancel, or the slope alone is large.
const TOO_LARGE: [(usize, i64, i64); 7] = [
    (0, i64::MIN, 0),
    (0, 0, i64::MIN),
    (1, HALF, 0),
    (2, HALF, 0),
    (3, 1, HALF),
    (3, 3_037_000_500, 0),
    (3, 1 << 32, 0),
];

fn whole(table: &Table, r: usize, x: i64, along: i64) -> Result<Whole, Refusal> {
    let mut pairs = [PAIR; 4];
    let mut sizes = [SIZES; 4];
    exact(
        table,
        &[Ticks(x)],
        &[Ticks(along)],
        r,
        &mut pairs,
        &mut sizes,
    )
}

#[test]
fn sizes_below_2_to_the_63_are_answered(rt: HostRuntime) -> Result<(), Fail> {
    let table = four_registers()?;
    for case in &ANSWERED {
        let answer = whole(&table, case.0, case.1, case.2)?;
        assert_eq!(rt; (answer.value, answer.slope), (case.3, case.4));
    }
    for case in &TOO_LARGE {
        let Err(refusal) = whole(&table, case.0, case.1, case.2) else {
            return Err(Fail::new("not declined"));
        };
        assert_eq!(rt; (refusal.number(), refusal.named()), (10, Some(case.0)));
    }
    Ok(())
}

// Value and slope of one register, then the lowest and the highest step that keep its test.
const KEPT: [(i64, i64, i64, i64); 16] = [
    (1_000_001, -1, -SPAN, SPAN),
    (1_000_000, -1, -SPAN, 999_999),
    (-1_000_000, 1, -SPAN, SPAN),
    (-999_999, 1, -SPAN, 999_999),
    (0, 1, -SPAN, 0),
    (0, -1, 0, SPAN),
    (1, 1, 0, SPAN),
    (1, -1, -SPAN, 0),
    (5, 0, -SPAN, SPAN),
    (9, -3, -SPAN, 2),
    (10, -3, -SPAN, 3),
    (-6, 2, -SPAN, 3),
    (1, i64::MAX, 0, SPAN),
    (i64::MAX, -i64::MAX, -SPAN, 0),
    (-i64::MAX, i64::MAX, -SPAN, 1),
    (-i64::MAX, -i64::MAX, -1, SPAN),
];

fn range(x: i64, along: i64) -> Result<StepRange, Refusal> {
    let table = table_of(1, &[])?;
    let mut pairs = [PAIR];
    let mut sizes = [SIZES];
    steps(
        &table,
        &[Ticks(x)],
        &[Ticks(along)],
        &[0],
        &mut pairs,
        &mut sizes,
    )
}

#[test]
fn steps_that_keep_a_test(rt: HostRuntime) -> Result<(), Fail> {
    for case in &KEPT {
        let range = range(case.0, case.1)?;
        assert_eq!(rt; (range.low, range.high), (case.2, case.3));
    }
    Ok(())
}

// An entry of both rows.
fn entries(pair: Pair<Ticks>, size: Pair<Size>) -> (i64, i64, u64, u64) {
    (pair.value.0, pair.tangent.0, size.value.0, size.tangent.0)
}

// 5 falls by 1 and 3 rises by 1. The rows are filled whatever the list, and later entries are kept.
#[test]
fn the_narrowest_of_several_tests(rt: HostRuntime) -> Result<(), Fail> {
    let table = table_of(2, &[Line::Multiply(0, 1)])?;
    let controls = [Ticks(5), Ticks(3)];
    let along = [Ticks(-1), Ticks(1)];
    let mut pairs = [PAIR; 4];
    let mut sizes = [SIZES; 4];
    let all = steps(&table, &controls, &along, &[], &mut pairs, &mut sizes)?;
    assert_eq!(rt; (all.low, all.high), (-SPAN, SPAN));
    assert_eq!(rt; entries(pairs[2], sizes[2]), (15, 2, 15, 8));
    assert_eq!(rt; entries(pairs[3], sizes[3]), (7, 7, 7, 7));
    let both = steps(&table, &controls, &along, &[0, 1], &mut pairs, &mut sizes)?;
    assert_eq!(rt; (both.low, both.high), (-2, 4));
    Ok(())
}

// How the steps of 2^62 and of twice that are declined.
fn declined(
    tests: &[usize],
    pairs: &mut [Pair<Ticks>],
    sizes: &mut [Pair<Size>],
) -> Result<(u8, Option<usize>), Fail> {
    let table = table_of(1, &[Line::Add(0, 0)])?;
    let Err(refusal) = steps(&table, &[Ticks(HALF)], &[Ticks(0)], tests, pairs, sizes) else {
        return Err(Fail::new("not declined"));
    };
    Ok((refusal.number(), refusal.named()))
}

// An unknown register, the first of the list, comes before a short row, and both before any work; a large size comes after it.
#[test]
fn the_order_of_refusals(rt: HostRuntime) -> Result<(), Fail> {
    let mut short = [PAIR];
    let mut pairs = [PAIR; 3];
    let mut sizes = [SIZES; 3];
    assert_eq!(rt; declined(&[1, 9, 8], &mut short, &mut sizes)?, (5, Some(9)));
    assert_eq!(rt; declined(&[1], &mut short, &mut sizes)?, (2, None));
    assert_eq!(rt; entries(short[0], sizes[0]), (7, 7, 7, 7));
    assert_eq!(rt; declined(&[0, 1], &mut pairs, &mut sizes)?, (10, Some(1)));
    assert_eq!(rt; entries(pairs[1], sizes[1]), (i64::MIN, 0, 1 << 63, 0));
    assert_eq!(rt; entries(pairs[2], sizes[2]), (7, 7, 7, 7));
    Ok(())
}
