// The rows that queries work in.
ghost use Rattle.replay.specs.Replies.{Front};
ghost use Rattle.std.specs.Prelude.{◌≡◌, IfOk, vec_len};

use kind::{Kind, Pair};
use std::alloc::{AllocError, Global};

// A number for each register of the longest tape.
const LONGEST: usize = 1152;

// The length of the longest packed file.
pub(crate) const LONGEST_FILE: usize = 4483;

// The most controls that a tape has.
pub(crate) const MOST_CONTROLS: usize = 128;

#[derive(Drop)]
pub(crate) struct Rows<K> {
    pub(crate) row: Vec<K>,
    pub(crate) adjoint: Vec<K>,
    pub(crate) pairs: Vec<Pair<K>>,
    pub(crate) adjoint_pairs: Vec<Pair<K>>,
    ghost row_long: { vec_len row ≡ 1152 },
    ghost adjoint_long: { vec_len adjoint ≡ 1152 },
    ghost pairs_long: { vec_len pairs ≡ 1152 },
    ghost adjoint_pairs_long: { vec_len adjoint_pairs ≡ 1152 },
}

impl<K: Kind> Rows<K> {
    pub(crate) fn new(heap: Global) -> Result<Rows<K>, AllocError> {
        Ok(Rows {
            row: zeros(heap, LONGEST)?,
            adjoint: zeros(heap, LONGEST)?,
            pairs: zeros(heap, LONGEST)?,
            adjoint_pairs: zeros(heap, LONGEST)?,
        })
    }
}

pub(crate) fn zeros<K: Kind>(heap: Global, length: usize) -> Result<Vec<K>, AllocError>
    ensures { IfOk result (λ row. vec_len row ≡ length) }
{
    vec![in heap; K::zero(); length]
}

// The entries of a row, the first 128 if it has more, and zeros after them.
pub(crate) fn front<K: Kind>(row: &[K]) -> [K; 128]
    ensures { Front K.Kind.ops K.Kind.means row.now result }
{
    let mut entries = [K::zero(); MOST_CONTROLS];
    let both = row.len().min(MOST_CONTROLS);
    entries[..both].copy_from_slice(&row[..both]);
    entries
}
