// What is declined, and with which number.
use crate::tables::table_of;
use kind::Ticks;
use std::process::Abort;
use std::test::Fail;
use sweep::value;
use tape::{Line, Refusal, Sheet, Table};

// The call was declined with this number, and names this register.
fn declined<T: Drop>(
    rt: &impl Abort,
    answer: Result<T, Refusal>,
    number: u8,
    named: Option<usize>,
) -> Result<(), Fail> {
    let Err(refusal) = answer else {
        return Err(Fail::new("not declined"));
    };
    assert_eq!(rt; (refusal.number(), refusal.named()), (number, named));
    Ok(())
}

#[test]
fn controls_are_1_to_128(rt: HostRuntime) -> Result<(), Fail> {
    declined(&rt, Table::new(0), 1, None)?;
    declined(&rt, Table::new(129), 1, None)?;
    assert!(rt; Table::new(1).is_ok());
    assert!(rt; Table::new(128).is_ok());
    Ok(())
}

#[test]
fn lines_are_1024_at_most(rt: HostRuntime) -> Result<(), Fail> {
    let mut table = table_of(1, &[])?;
    for _ in 0..1024 {
        table.append(Line::Opposite(0))?;
    }
    assert_eq!(rt; table.count(), 1024);
    declined(&rt, table.append(Line::Opposite(0)), 3, None)
}

// A line reads registers below its own.
#[test]
fn a_line_cannot_read_its_own_register(rt: HostRuntime) -> Result<(), Fail> {
    let mut table = table_of(2, &[Line::Add(0, 1)])?;
    declined(&rt, table.append(Line::Add(0, 3)), 5, Some(3))?;
    declined(&rt, table.append(Line::Multiply(4, 3)), 5, Some(4))?;
    declined(&rt, table.replace(2, Line::Opposite(2)), 5, Some(2))?;
    declined(&rt, table.replace(1, Line::Constant(0)), 5, Some(1))?;
    assert!(rt; table.append(Line::Add(0, 2)).is_ok());
    Ok(())
}

// A register past the end comes before a row that is too short, and a row keeps its numbers.
#[test]
fn registers_and_rows(rt: HostRuntime) -> Result<(), Fail> {
    let table = table_of(1, &[Line::Multiply(0, 0)])?;
    let mut short = [Ticks(7)];
    declined(&rt, value(&table, &[Ticks(5)], 2, &mut short), 5, Some(2))?;
    declined(&rt, value(&table, &[Ticks(5)], 1, &mut short), 2, None)?;
    declined(&rt, value(&table, &[], 0, &mut short), 2, None)?;
    assert_eq!(rt; short[0].0, 7);
    Ok(())
}

#[test]
fn no_line_to_take_off(rt: HostRuntime) -> Result<(), Fail> {
    let mut table = table_of(1, &[Line::Constant(4)])?;
    table.remove_last()?;
    declined(&rt, table.remove_last(), 6, None)
}
