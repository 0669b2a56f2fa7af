use super::*;
use kind::Ticks;
use std::test::Fail;
use tape::Line;

// 2 × 3 × 4, then a control of the last product, then one of the first.
#[test]
fn only_stale_lines_are_worked_out(rt: HostRuntime) -> Result<(), Fail> {
    let rest = [Ticks(2), Ticks(3), Ticks(4)];
    let mut row = [Ticks(0); 8];
    let opening = Opening::new(3, &rest, &row)?;
    let mut session = Session::open(opening, &rest, &mut row);
    session.add(Line::Multiply(0, 1))?;
    session.add(Line::Multiply(3, 2))?;
    let first = session.value(4)?;
    assert_eq!(rt; (first.value.0, first.worked), (24, 2));
    session.set(2, Ticks(7))?;
    let second = session.value(4)?;
    assert_eq!(rt; (second.value.0, second.worked), (42, 1));
    session.set(0, Ticks(5))?;
    let third = session.value(3)?;
    assert_eq!(rt;
        (third.value.0, third.worked, session.waiting()),
        (15, 1, Some(4))
    );
    Ok(())
}
