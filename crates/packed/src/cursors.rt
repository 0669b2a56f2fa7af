// Where a writer of bits stands.
ghost use Rattle.std.specs.Prelude.{◌^◌, ◌<◌};

// `at` bytes of the buffer are whole, and the `held` low bits of `word`, fewer than eight, are to come.
#[derive(Clone, Copy)]
pub(crate) struct Cursor {
    pub(crate) at: usize,
    pub(crate) held: usize,
    pub(crate) word: u64,
    ghost few: { held < 8 },
    ghost small: { word < 2 ^ held },
}
