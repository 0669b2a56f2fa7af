use super::*;
use kind::Ticks;
use session::Call;
use std::test::Fail;
use tape::{Line, Refusal};

// Three controls, `multiply 0 1`, `multiply 3 2`.
const TWO_PRODUCTS: [u8; 12] = [
    0x03, 0x00, 0x4C, 0x00, 0x00, 0x00, 0x05, 0x80, 0x01, 0x80, 0x01, 0x00,
];

// An outcome to write to.
fn blank() -> Outcome<Ticks> {
    let nothing = Reply::Value(Ticks(0));
    Outcome {
        session: nothing,
        from_file: nothing,
        on_sheet: nothing,
        controls: [Ticks(0); 128],
        file: [0; 4483],
        length: 0,
    }
}

// The numbers, and zeros after them.
fn row(numbers: [i64; 3]) -> [Ticks; 128] {
    let mut entries = [Ticks(0); 128];
    for (i, number) in numbers.iter().enumerate() {
        entries[i] = Ticks(*number);
    }
    entries
}

// 2 × 3 × 4 is 24, and its gradient 12, 8, 6. A declined call changes nothing, and a copy of the outcome stays as it was when the
// outcome is written anew; a run that is declined writes nothing.
#[test]
fn all_answer_alike(rt: HostRuntime) -> Result<(), Fail> {
    let Ok(view) = packed::open(&TWO_PRODUCTS) else {
        return Err(Fail::new("no file"));
    };
    let calls = [
        Call::Add(Line::Multiply(0, 1)),
        Call::Add(Line::Multiply(3, 2)),
        Call::Change(3, Line::Add(0, 4)),
        Call::Set(0, Ticks(2)),
    ];
    let rest = [Ticks(5), Ticks(3), Ticks(4)];
    let query = Query::Gradient(4);
    let mut out = blank();
    assert!(rt; replay(rt.alloc(), 3, &rest, 8, &calls, &query, &view, &mut out).is_ok());
    assert_eq!(rt; out.length, 12);
    let (file, rest_of_file) = out.file.split_at(12);
    assert!(rt; file == TWO_PRODUCTS.as_slice());
    assert!(rt; rest_of_file.iter().all(|byte| *byte == 0));
    assert!(rt; out.controls == row([2, 3, 4]));
    assert!(rt; out.session == Reply::Gradient(Ticks(24), row([12, 8, 6]), 8));
    assert!(rt; out.session == out.from_file);
    assert!(rt; out.session == out.on_sheet);
    let copy = out;
    let query = Query::Value(3);
    assert!(rt; replay(rt.alloc(), 3, &rest, 8, &calls, &query, &view, &mut out).is_ok());
    assert!(rt; out.session == Reply::Value(Ticks(6)));
    assert!(rt; copy.session == Reply::Gradient(Ticks(24), row([12, 8, 6]), 8));
    let declined = replay(rt.alloc(), 3, &rest, 2, &calls, &query, &view, &mut out);
    assert!(rt; declined == Err(ReplayFault::Declined(Refusal::Short)));
    assert!(rt; out.session == Reply::Value(Ticks(6)));
    Ok(())
}

// A session of two controls, 2 and 3: on a sheet of three controls the last stands at 0. The product of all is 0, and its gradient
// 3 × 0, 2 × 0, 2 × 3. The session has no such register.
#[test]
fn zeros_stand_for_more_controls(rt: HostRuntime) -> Result<(), Fail> {
    let Ok(view) = packed::open(&TWO_PRODUCTS) else {
        return Err(Fail::new("no file"));
    };
    let rest = [Ticks(2), Ticks(3)];
    let query = Query::Gradient(4);
    let mut out = blank();
    assert!(rt; replay(rt.alloc(), 2, &rest, 8, &[], &query, &view, &mut out).is_ok());
    assert!(rt; out.controls == row([2, 3, 0]));
    assert!(rt; out.session == Reply::Declined(Refusal::Unknown(4)));
    assert!(rt; out.from_file == Reply::Declined(Refusal::Unknown(4)));
    assert!(rt; out.on_sheet == Reply::Gradient(Ticks(0), row([0, 0, 6]), 8));
    Ok(())
}
