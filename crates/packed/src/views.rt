// The checked view of a packed file.
ghost use Rattle.std.specs.Prelude.{◌≡◌, ℕ, ◌+◌, ◌*◌, ◌<◌, ◌≤◌, length};
ghost use Rattle.tape.specs.Tapes.{ReadsBelow, ConstantsFit};
ghost use Rattle.packed.specs.Formats.{line_start, lines_in};

// A packed file that was checked, read where it lies: nothing is copied but its two counts.
// The ghost fields are the rules of tapes, so that no view can break them.
#[derive(Clone, Copy)]
pub struct View<'a> {
    pub(crate) bytes: &'a [u8],
    pub(crate) controls: usize,
    // read from the file: no length of `bytes`
    pub(crate) count: usize,
    ghost some: { 1 ≤ controls },
    ghost few: { controls ≤ 128 },
    ghost room: { count ≤ 1024 },
    ghost filled: { length (lines_in bytes.now count) ≡ count },
    ghost within: { (j : ℕ) → j < count → line_start j + 35 ≤ 8 * length bytes.now },
    ghost below: { ReadsBelow controls (lines_in bytes.now count) },
    ghost fit: { ConstantsFit (lines_in bytes.now count) },
}
