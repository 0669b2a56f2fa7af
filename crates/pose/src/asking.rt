// What a session answers to a query, compared with what an exporter does.
use crate::agreement::agree;
use crate::commands::Query;
use crate::declines::Fault;
use crate::exporting::ask_file;
use crate::numbers::Number;
use crate::replies::Asked;
use crate::rows::{LONGEST, zeros};
use crate::tallies::Tally;
use kind::Pair;
use replay::Finding;
use session::Session;
use std::alloc::Global;

// The length of the longest packed file.
const LONGEST_FILE: usize = 4483;

// The numbers of the session's controls.
pub fn controls_of<K: Number>(heap: Global, session: &Session<'_, K>) -> Result<Vec<K>, Fault> {
    let mut row: Vec<K> = zeros(heap, session.control_count())?;
    session.controls(row.as_mut_slice())?;
    Ok(row)
}

// The packed file of the session's tape.
pub fn file_of<K: Number>(heap: Global, session: &Session<'_, K>) -> Result<Vec<u8>, Fault> {
    let mut file = vec![in heap; 0; LONGEST_FILE]?;
    let length = session.save(file.as_mut_slice())?;
    file.truncate(length);
    Ok(file)
}

// (Not replay's asking of a session: its answers have no count of the lines that were worked out.)

fn value<K: Number>(session: &mut Session<'_, K>, r: usize) -> Result<Asked<K>, Fault> {
    let answer = session.value(r)?;
    Ok(Asked {
        finding: Finding::Value(answer.value),
        worked: answer.worked,
    })
}

fn gradient<K: Number>(
    heap: Global,
    session: &mut Session<'_, K>,
    r: usize,
) -> Result<Asked<K>, Fault> {
    let mut adjoint: Vec<K> = zeros(heap, LONGEST)?;
    let graded = session.gradient(r, adjoint.as_mut_slice())?;
    adjoint.truncate(session.control_count());
    Ok(Asked {
        finding: Finding::Gradient(graded.value, adjoint, graded.operations),
        worked: graded.worked,
    })
}

fn slope<K: Number>(
    heap: Global,
    session: &Session<'_, K>,
    direction: &[K],
    r: usize,
) -> Result<Asked<K>, Fault> {
    let mut pairs: Vec<Pair<K>> = zeros(heap, LONGEST)?;
    let x = session.slope(r, direction, pairs.as_mut_slice())?;
    Ok(Asked {
        finding: Finding::Slope(x),
        worked: 0,
    })
}

fn bend<K: Number>(
    heap: Global,
    session: &Session<'_, K>,
    direction: &[K],
    r: usize,
) -> Result<Asked<K>, Fault> {
    let mut pairs: Vec<Pair<K>> = zeros(heap, LONGEST)?;
    let mut adjoint: Vec<Pair<K>> = zeros(heap, LONGEST)?;
    let mut out: Vec<K> = zeros(heap, session.control_count())?;
    session.bend(
        r,
        direction,
        pairs.as_mut_slice(),
        adjoint.as_mut_slice(),
        out.as_mut_slice(),
    )?;
    Ok(Asked {
        finding: Finding::Bend(out),
        worked: 0,
    })
}

fn ask_session<K: Number>(
    heap: Global,
    session: &mut Session<'_, K>,
    query: &Query<K>,
) -> Result<Asked<K>, Fault> {
    match query {
        Query::Value(r) => value(session, *r),
        Query::Gradient(r) => gradient(heap, session, *r),
        Query::Slope(r, direction) => slope(heap, session, direction.as_slice(), *r),
        Query::Bend(r, direction) => bend(heap, session, direction.as_slice(), *r),
    }
}

// The exporter, on the session's controls and the file of its tape.
fn ask_exporter<K: Number>(
    heap: Global,
    session: &Session<'_, K>,
    query: &Query<K>,
) -> Result<Finding<K>, Fault> {
    let numbers = controls_of(heap, session)?;
    let file = file_of(heap, session)?;
    ask_file(heap, file.as_slice(), numbers.as_slice(), query)
}

// Asks the session, and the exporter too. `line` is the script's line that asks.
pub fn ask<K: Number>(
    heap: Global,
    session: &mut Session<'_, K>,
    query: &Query<K>,
    line: usize,
    tally: &mut Tally,
) -> Result<Asked<K>, Fault> {
    let asked = ask_session(heap, session, query);
    let exported = ask_exporter(heap, session, query);
    // (want of memory is no answer; a refusal is one, and is compared)
    if let Err(Fault::Memory) = &exported {
        return Err(Fault::Memory);
    }
    tally.count_query(line, agree(&asked, &exported))?;
    asked
}
