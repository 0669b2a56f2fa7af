// What is answered about whole numbers.

// A whole-number value, and its slope.
#[derive(Clone, Copy, Debug, PartialEq, Eq)]
pub struct Whole {
    pub value: i64,
    pub slope: i64,
}

// The lowest and the highest of the steps that keep every test.
#[derive(Clone, Copy, Debug, PartialEq, Eq)]
pub struct StepRange {
    pub low: i64,
    pub high: i64,
}
