// Controls 2, 3 and 4, and their product in two lines: register 4 is 24.
use crate::tables::table_of;
use kind::{Pair, Residue, Size, Ticks};
use std::test::Fail;
use sweep::{bend, gradient, slope, value};
use tape::{Line, Refusal, Table};

const CONTROLS: [Ticks; 3] = [Ticks(2), Ticks(3), Ticks(4)];

const ONES: [Ticks; 3] = [Ticks(1), Ticks(1), Ticks(1)];

const ZERO: Pair<Ticks> = Pair {
    value: Ticks(0),
    tangent: Ticks(0),
};

fn two_products() -> Result<Table, Refusal> {
    table_of(3, &[Line::Multiply(0, 1), Line::Multiply(3, 2)])
}

#[test]
fn the_value_in_each_kind(rt: HostRuntime) -> Result<(), Fail> {
    let table = two_products()?;
    let mut ticks = [Ticks(0); 8];
    let x = value(&table, &CONTROLS, 4, &mut ticks)?;
    assert_eq!(rt; x.0, 24);
    let mut residues = [Residue(0); 8];
    let y = value(
        &table,
        &[Residue(2), Residue(3), Residue(4)],
        4,
        &mut residues,
    )?;
    assert_eq!(rt; y.0, 24);
    let mut sizes = [Size(0); 8];
    let z = value(&table, &[Size(2), Size(3), Size(4)], 4, &mut sizes)?;
    assert_eq!(rt; z.0, 24);
    Ok(())
}

#[test]
fn the_slope_along_ones(rt: HostRuntime) -> Result<(), Fail> {
    let table = two_products()?;
    let mut pairs = [ZERO; 8];
    let x = slope(&table, &CONTROLS, &ONES, 4, &mut pairs)?;
    assert_eq!(rt; x.0, 26);
    Ok(())
}

#[test]
fn the_gradient(rt: HostRuntime) -> Result<(), Fail> {
    let table = two_products()?;
    let mut row = [Ticks(0); 8];
    let mut adjoint = [Ticks(0); 8];
    let answer = gradient(&table, &CONTROLS, 4, &mut row, &mut adjoint)?;
    assert_eq!(rt; (answer.value.0, answer.operations), (24, 8));
    assert_eq!(rt; (adjoint[0].0, adjoint[1].0, adjoint[2].0), (12, 8, 6));
    Ok(())
}

#[test]
fn the_bend_along_ones(rt: HostRuntime) -> Result<(), Fail> {
    let table = two_products()?;
    let mut row = [ZERO; 8];
    let mut adjoint = [ZERO; 8];
    let mut out = [Ticks(0); 3];
    bend(
        &table,
        &CONTROLS,
        &ONES,
        4,
        &mut row,
        &mut adjoint,
        &mut out,
    )?;
    assert_eq!(rt; (out[0].0, out[1].0, out[2].0), (7, 6, 5));
    Ok(())
}
