// What a gradient query answers besides the adjoint row.
#[derive(Clone, Copy, Debug, PartialEq, Eq)]
pub struct Gradient<K> {
    pub value: K,
    // the operations of the backward walk
    pub operations: usize,
}
