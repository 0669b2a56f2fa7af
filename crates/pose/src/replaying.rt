// A run replayed from its calls.
use crate::asking::{controls_of, file_of};
use crate::commands::{Command, Request, Step};
use crate::declines::Fault;
use crate::entries::Entry;
use crate::numbers::Number;
use replay::{Outcome, Query, ReplayFault, Reply};
use session::{Call, Session};
use std::alloc::{AllocError, Global};

// What a run came to: the numbers of the controls, and the packed file of the tape.
#[derive(Drop)]
struct End<K> {
    controls: Vec<K>,
    file: Vec<u8>,
}

// The step of an open session that the entry writes, if it does.
fn step_of<'e, K: Number>(entry: &'e Entry<'_, K>) -> Option<&'e Step<K>> {
    match &entry.command {
        Ok(Command::Session(step)) => Some(step),
        _ => None,
    }
}

// The calls of a run, in their order.
fn calls_of<'e, K: Number>(
    heap: Global,
    entries: &'e [Entry<'_, K>],
) -> Result<Vec<Call<'e, K>>, AllocError> {
    let mut calls = Vec::new(heap);
    for step in entries.iter().filter_map(step_of) {
        calls.push(step.call())?;
    }
    Ok(calls)
}

// The last query of a run, or the value of the first control where it has none.
fn last_query<'e, K: Number>(entries: &'e [Entry<'_, K>]) -> Query<'e, K> {
    let mut last = Query::Value(0);
    for step in entries.iter().filter_map(step_of) {
        if let Step::Ask(query) = step {
            last = query.borrowed();
        }
    }
    last
}

// An outcome to write to.
pub(crate) fn blank<K: Number>() -> Outcome<K> {
    let nothing = Reply::Value(K::zero());
    Outcome {
        session: nothing,
        from_file: nothing,
        on_sheet: nothing,
        controls: [K::zero(); 128],
        file: [0; 4483],
        length: 0,
    }
}

// Whether the replayed session, the exporter on its file and the exporter on the view all agree, and the run ended in the same.
fn agrees<K: Number>(outcome: &Outcome<K>, end: &End<K>) -> bool {
    let controls = outcome.controls.get(..end.controls.len());
    let file = outcome.file.get(..outcome.length);
    let same_end = controls == Some(end.controls.as_slice()) && file == Some(end.file.as_slice());
    same_end && outcome.session == outcome.from_file && outcome.session == outcome.on_sheet
}

// Makes the calls of a run that has come to its end in this session again on a new one, asks its last query of that session and of
// the exporter, and answers whether all agree. (The outcome to write to is handed down from where the kind is known: here the size
// of a number is not.)
pub fn replay_run<K: Number>(
    heap: Global,
    request: &Request<K>,
    entries: &[Entry<'_, K>],
    session: &Session<'_, K>,
    outcome: &mut Outcome<K>,
) -> Result<bool, Fault> {
    let calls = calls_of(heap, entries)?;
    let query = last_query(entries);
    let end = End {
        controls: controls_of(heap, session)?,
        file: file_of(heap, session)?,
    };
    let (n, rest, room) = (request.controls, request.rest.as_slice(), request.room);
    let view = packed::open(end.file.as_slice())?;
    match replay::replay(
        heap,
        n,
        rest,
        room,
        calls.as_slice(),
        &query,
        &view,
        outcome,
    ) {
        Ok(()) => Ok(agrees(outcome, &end)),
        // (a run that was open here and is declined there differs; want of memory is no answer)
        Err(ReplayFault::Declined(_)) => Ok(false),
        Err(ReplayFault::Memory) => Err(Fault::Memory),
    }
}
