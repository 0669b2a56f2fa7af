// Rows of numbers.
ghost use Rattle.std.specs.Prelude.{◌≡◌, IfOk, vec_len};

use kind::Kind;
use std::alloc::{AllocError, Global};

// The longest register row, of 128 controls and 1,024 lines.
pub const LONGEST: usize = 1152;

// The most controls.
pub const CONTROLS: usize = 128;

// A row of zeros. (replay has the same line for its own rows: no crate below both allocates.)
pub fn zeros<K: Kind>(heap: Global, length: usize) -> Result<Vec<K>, AllocError>
    ensures { IfOk result (λ row. vec_len row ≡ length) }
{
    vec![in heap; K::zero(); length]
}
