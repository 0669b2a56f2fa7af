// What the session answers to a gradient query besides the adjoint row.
#[derive(Clone, Copy)]
pub struct Graded<K> {
    pub value: K,
    // how many lines were worked out
    pub worked: usize,
    // the operations of the backward walk
    pub operations: usize,
}
