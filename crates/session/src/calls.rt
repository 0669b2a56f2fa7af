// The calls of a session, as data.
use tape::Line;

// A call with its arguments.
#[derive(Clone, Copy)]
pub enum Call<'a, K> {
    Set(usize, K),
    Add(Line),
    Change(usize, Line),
    Drop,
    Save,
    Value(usize),
    Gradient(usize),
    // a register, and a direction: a number for each control
    Slope(usize, &'a [K]),
    Bend(usize, &'a [K]),
    Waiting,
    Controls,
}
