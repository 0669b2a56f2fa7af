use super::*;
use std::process::Abort;
use std::test::Fail;
use tape::{Line, Refusal, Sheet, Table};

// Three controls, `multiply 0 1`, `multiply 3 2`.
const TWO_PRODUCTS: [u8; 12] = [
    0x03, 0x00, 0x4C, 0x00, 0x00, 0x00, 0x05, 0x80, 0x01, 0x80, 0x01, 0x00,
];

// The lines one after another, `times` over.
fn table_of(controls: usize, lines: &[Line], times: usize) -> Result<Table, Refusal> {
    let mut table = Table::new(controls)?;
    for _ in 0..times {
        for line in lines {
            table.append(*line)?;
        }
    }
    Ok(table)
}

// The file is declined with this number, register and bit.
fn declined(
    rt: &impl Abort,
    file: &[u8],
    number: u8,
    named: Option<usize>,
    bit: usize,
) -> Result<(), Fail> {
    let Err(fault) = open(file) else {
        return Err(Fail::new("no fault was found"));
    };
    assert_eq!(rt; fault.number(), number);
    assert_eq!(rt; fault.named(), named);
    assert_eq!(rt; fault.bit(), bit);
    Ok(())
}

// So is the file of two products with byte i changed.
fn damaged(
    rt: &impl Abort,
    i: usize,
    byte: u8,
    number: u8,
    named: Option<usize>,
    bit: usize,
) -> Result<(), Fail> {
    let mut file = TWO_PRODUCTS;
    if let Some(place) = file.get_mut(i) {
        *place = byte;
    }
    declined(rt, &file, number, named, bit)
}

#[test]
fn two_products_are_saved(rt: HostRuntime) -> Result<(), Fail> {
    let table = table_of(3, &[Line::Multiply(0, 1), Line::Multiply(3, 2)], 1)?;
    let mut buf = [0xFF; 13];
    assert!(rt; save(&table, &mut buf).is_ok());
    assert!(rt; buf[0..12] == TWO_PRODUCTS[0..12]);
    assert_eq!(rt; buf[12], 0xFF);
    let mut copy = [0xFF; 12];
    assert!(rt; copy_file(&buf[0..12], &mut copy).is_ok());
    assert!(rt; copy == TWO_PRODUCTS);
    let mut short = [0xFF; 11];
    assert!(rt; save(&table, &mut short).is_err());
    assert!(rt; short == [0xFF; 11]);
    Ok(())
}

// Every kind of line, and the least constant.
#[test]
fn lines_are_read(rt: HostRuntime) -> Result<(), Fail> {
    let lines = [
        Line::Constant(i32::MIN),
        Line::Add(0, 1),
        Line::Subtract(1, 2),
        Line::Opposite(2),
    ];
    let mut buf = [0; 20];
    assert!(rt; save(&table_of(1, &lines, 1)?, &mut buf).is_ok());
    let Ok(view) = open(&buf) else {
        return Err(Fail::new("the file was declined"));
    };
    assert!(rt; matches!(view.line(0), Ok(Line::Constant(-2147483648))));
    assert!(rt; matches!(view.line(1), Ok(Line::Add(0, 1))));
    assert!(rt; matches!(view.line(2), Ok(Line::Subtract(1, 2))));
    assert!(rt; matches!(view.line(3), Ok(Line::Opposite(2))));
    assert!(rt; matches!(view.line(4), Err(Refusal::Unknown(4))));
    Ok(())
}

#[test]
fn the_shortest_and_the_longest(rt: HostRuntime) -> Result<(), Fail> {
    assert!(rt; file_fault(&[1, 0, 0]).is_none());
    let table = table_of(128, &[Line::Subtract(127, 0)], 1024)?;
    let mut buf = [0; 5000];
    assert_eq!(rt; save(&table, &mut buf).unwrap_or(0), 4483);
    assert!(rt; file_fault(&buf[0..4483]).is_none());
    declined(&rt, &buf, 8, None, 35864)
}

// A file for each refusal and each field.
#[test]
fn damaged_files_are_declined(rt: HostRuntime) -> Result<(), Fail> {
    declined(&rt, &[], 7, None, 0)?;
    declined(&rt, &TWO_PRODUCTS[0..2], 7, None, 16)?;
    declined(&rt, &TWO_PRODUCTS[0..11], 7, None, 88)?;
    damaged(&rt, 0, 0x00, 1, None, 0)?;
    damaged(&rt, 0, 0x81, 1, None, 0)?;
    damaged(&rt, 1, 0xFF, 3, None, 8)?;
    damaged(&rt, 1, 0x01, 7, None, 96)?;
    damaged(&rt, 2, 0x2C, 8, None, 56)?;
    damaged(&rt, 2, 0x54, 4, None, 19)?;
    damaged(&rt, 4, 0x0C, 5, Some(3), 22)?;
    damaged(&rt, 6, 0x0D, 5, Some(3), 38)?;
    damaged(&rt, 6, 0x07, 4, None, 54)?;
    damaged(&rt, 8, 0x02, 5, Some(5), 57)?;
    damaged(&rt, 10, 0x02, 5, Some(4), 73)?;
    damaged(&rt, 11, 0x40, 8, None, 89)?;
    let spare = [0x03, 0x00, 0x30, 0x00, 0x08, 0x00, 0x04];
    declined(&rt, &spare, 9, None, 38)
}
