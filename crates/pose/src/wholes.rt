// What is answered in whole numbers.
use crate::asking::{controls_of, file_of};
use crate::commands::WholeQuery;
use crate::declines::Fault;
use crate::mistakes::Mistake;
use crate::numbers::Number;
use crate::replies::Reply;
use crate::rows::{LONGEST, zeros};
use crate::runner::Runner;
use kind::{Pair, Size, Ticks};
use session::Session;
use std::alloc::Global;
use std::io;

// The answer on the session's controls and its tape, read from the file that is saved now: the table itself is the session's own.
// There is none where the session is not in ticks.
fn ask_whole<K: Number>(
    heap: Global,
    session: &Session<'_, K>,
    query: &WholeQuery,
) -> Result<Option<Reply<K>>, Fault> {
    let numbers = controls_of(heap, session)?;
    let Some(ticks) = K::ticks(numbers.as_slice()) else {
        return Ok(None);
    };
    let file = file_of(heap, session)?;
    let view = packed::open(file.as_slice())?;
    let mut pairs: Vec<Pair<Ticks>> = zeros(heap, LONGEST)?;
    let mut sizes: Vec<Pair<Size>> = zeros(heap, LONGEST)?;
    let (pairs, sizes) = (pairs.as_mut_slice(), sizes.as_mut_slice());
    match query {
        WholeQuery::Exact(r, direction) => {
            let whole = exact::exact(&view, ticks, direction.as_slice(), *r, pairs, sizes)?;
            Ok(Some(Reply::Exact(whole)))
        }
        WholeQuery::Steps(direction, tests) => {
            let tests = tests.as_slice();
            let range = exact::steps(&view, ticks, direction.as_slice(), tests, pairs, sizes)?;
            Ok(Some(Reply::Steps(range)))
        }
    }
}

impl<'r> Runner<'r> {
    // Asks, and prints the answer, or that the session is not in ticks. `line` is the script's line that asks.
    pub(crate) fn run_whole<K: Number>(
        &mut self,
        session: &Session<'_, K>,
        query: &WholeQuery,
        line: usize,
    ) -> io::Result<()> {
        match ask_whole(self.rt.alloc(), session, query).transpose() {
            Some(reply) => self.print_reply(reply),
            None => self.print_mistake(line, Mistake::TicksOnly),
        }
    }
}
