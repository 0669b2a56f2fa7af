// One control that a line reads twice.
use crate::tables::table_of;
use kind::{Pair, Size, Ticks};
use std::test::Fail;
use sweep::gradient;
use tape::Line;

// 5 squared, in ticks.
#[test]
fn a_square(rt: HostRuntime) -> Result<(), Fail> {
    let table = table_of(1, &[Line::Multiply(0, 0)])?;
    let mut row = [Ticks(0); 2];
    let mut adjoint = [Ticks(0); 2];
    let answer = gradient(&table, &[Ticks(5)], 1, &mut row, &mut adjoint)?;
    assert_eq!(rt; (answer.value.0, adjoint[0].0), (25, 10));
    Ok(())
}

// 5 squared in pairs of pairs, with both directions 1: the second derivative is 2.
#[test]
fn a_square_in_pairs_of_pairs(rt: HostRuntime) -> Result<(), Fail> {
    let table = table_of(1, &[Line::Multiply(0, 0)])?;
    let point = Pair {
        value: Pair {
            value: Ticks(5),
            tangent: Ticks(1),
        },
        tangent: Pair {
            value: Ticks(1),
            tangent: Ticks(0),
        },
    };
    let mut row = [point; 2];
    let mut adjoint = [point; 2];
    let answer = gradient(&table, &[point], 1, &mut row, &mut adjoint)?;
    let square = answer.value;
    assert_eq!(rt; (square.value.value.0, square.tangent.tangent.0), (25, 2));
    let slope = adjoint[0];
    assert_eq!(rt; (slope.value.value.0, slope.value.tangent.0), (10, 2));
    Ok(())
}

// 9 minus itself: in sizes the difference is a sum, and its gradient counts both reads.
#[test]
fn a_difference(rt: HostRuntime) -> Result<(), Fail> {
    let table = table_of(1, &[Line::Subtract(0, 0)])?;
    let mut row = [Ticks(7); 2];
    let mut adjoint = [Ticks(7); 2];
    let exact = gradient(&table, &[Ticks(9)], 1, &mut row, &mut adjoint)?;
    assert_eq!(rt; (exact.value.0, adjoint[0].0), (0, 0));
    let mut sizes = [Size(7); 2];
    let mut bounds = [Size(7); 2];
    let bound = gradient(&table, &[Size(9)], 1, &mut sizes, &mut bounds)?;
    assert_eq!(rt; (bound.value.0, bounds[0].0), (18, 2));
    Ok(())
}
