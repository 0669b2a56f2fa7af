// The table that a session edits.
ghost use Rattle.std.specs.Prelude.{◌≡◌, ℕ, ◌≤◌, false, length, take, slice_index_or};
ghost use Rattle.tape.specs.Tapes.{ReadsBelow, ConstantsFit};

use crate::lines::Line;

// A tape in memory, with a mark for each line. A marked line is stale: its kept number may be out of date.
// The ghost fields are the rules of tapes, so that no table can break them. Two arrays and a count: a table has fixed memory,
// and the contracts speak of the marks as a row of their own.
#[derive(Clone, Copy)]
pub struct Table {
    pub(crate) controls: usize,
    pub(crate) count: usize,
    pub(crate) lines: [Line; 1024],
    pub(crate) stale: [bool; 1024],
    ghost some: { 1 ≤ controls },
    ghost few: { controls ≤ 128 },
    ghost room: { count ≤ 1024 },
    ghost filled: { length (take count lines) ≡ count },
    ghost marked: { length stale ≡ 1024 },
    ghost below: { ReadsBelow controls (take count lines) },
    ghost fit: { ConstantsFit (take count lines) },
    ghost clear: { (j : ℕ) → count ≤ j → slice_index_or stale j false ≡ false },
}
