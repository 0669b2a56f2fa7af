// The rows that the queries work in.
use crate::numbers::Number;
use crate::random::Random;
use kind::{Kind, Pair};
use session::Session;
use std::alloc::{AllocError, Global};

// A row of zeros.
pub fn zeros<K: Kind>(heap: Global, len: usize) -> Result<Vec<K>, AllocError> {
    vec![in heap; K::zero(); len]
}

#[derive(Drop)]
pub struct Rows<K: Number> {
    pub work: Vec<K>,
    pub pairs: Vec<Pair<K>>,
    pub adjoint: Vec<Pair<K>>,
    pub direction: Vec<K>,
    // what the session writes, and what the exporter does
    pub by_session: Vec<K>,
    pub by_exporter: Vec<K>,
    // the controls, copied out
    pub controls: Vec<K>,
}

impl<K: Number> Rows<K> {
    pub fn new(heap: Global) -> Result<Rows<K>, AllocError> {
        Ok(Rows {
            work: zeros(heap, 64)?,
            pairs: zeros(heap, 64)?,
            adjoint: zeros(heap, 64)?,
            direction: zeros(heap, 5)?,
            by_session: zeros(heap, 64)?,
            by_exporter: zeros(heap, 64)?,
            controls: zeros(heap, 5)?,
        })
    }

    // What the session saves now. Where it declines to, the file is empty, and the exporter takes no such file: the two differ.
    pub fn save<'b>(&mut self, session: &Session<'_, K>, buffer: &'b mut [u8]) -> &'b [u8] {
        let saved = session.save(buffer).unwrap_or(0).min(buffer.len());
        let end = session.controls(&mut self.controls).map_or(0, |()| saved);
        &buffer[..end.min(buffer.len())]
    }

    // One number in all of both rows, so that an entry that only one side writes is seen.
    // (`fill` asks for a clone that can't fail, and a kind promises none.)
    pub fn reset(&mut self) {
        for x in self
            .by_session
            .iter_mut()
            .chain(self.by_exporter.iter_mut())
        {
            *x = K::one();
        }
    }

    // Whether both sides wrote the same numbers.
    pub(crate) fn agree(&self) -> bool {
        let mut both = self.by_session.iter().zip(&self.by_exporter);
        both.all(|(x, y)| x.word() == y.word())
    }

    // Another direction.
    pub fn redirect(&mut self, random: &mut Random) {
        for x in self.direction.iter_mut() {
            *x = random.number();
        }
    }
}
