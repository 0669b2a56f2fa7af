// A query of a register, as data. (A session's calls are another type, with a case for each method.)
#[derive(Clone, Copy)]
pub enum Query<'a, K> {
    Value(usize),
    Gradient(usize),
    // a register, and a direction: a number for each control
    Slope(usize, &'a [K]),
    Bend(usize, &'a [K]),
}
