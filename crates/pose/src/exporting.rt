// What an exporter answers from a packed file.
use crate::commands::Query;
use crate::declines::Fault;
use crate::numbers::Number;
use crate::rows::{CONTROLS, LONGEST, zeros};
use kind::Pair;
use replay::Finding;
use std::alloc::Global;
use tape::Sheet;

// (Not replay's asking of a file, which is its own: there the file is a session's, with a number for each control.)

fn value<K: Number>(
    heap: Global,
    file: &[u8],
    controls: &[K],
    r: usize,
) -> Result<Finding<K>, Fault> {
    let mut row: Vec<K> = zeros(heap, LONGEST)?;
    let x = export::value(file, controls, r, row.as_mut_slice())?;
    Ok(Finding::Value(x))
}

fn gradient<K: Number>(
    heap: Global,
    file: &[u8],
    controls: &[K],
    r: usize,
) -> Result<Finding<K>, Fault> {
    let mut row: Vec<K> = zeros(heap, LONGEST)?;
    let mut adjoint: Vec<K> = zeros(heap, LONGEST)?;
    let (work, back) = (row.as_mut_slice(), adjoint.as_mut_slice());
    let answer = export::gradient(file, controls, r, work, back)?;
    adjoint.truncate(packed::open(file)?.controls());
    Ok(Finding::Gradient(answer.value, adjoint, answer.operations))
}

fn slope<K: Number>(
    heap: Global,
    file: &[u8],
    controls: &[K],
    direction: &[K],
    r: usize,
) -> Result<Finding<K>, Fault> {
    let mut pairs: Vec<Pair<K>> = zeros(heap, LONGEST)?;
    let x = export::slope(file, controls, direction, r, pairs.as_mut_slice())?;
    Ok(Finding::Slope(x))
}

fn bend<K: Number>(
    heap: Global,
    file: &[u8],
    controls: &[K],
    direction: &[K],
    r: usize,
) -> Result<Finding<K>, Fault> {
    let mut pairs: Vec<Pair<K>> = zeros(heap, LONGEST)?;
    let mut adjoint: Vec<Pair<K>> = zeros(heap, LONGEST)?;
    let mut out: Vec<K> = zeros(heap, CONTROLS)?;
    export::bend(
        file,
        controls,
        direction,
        r,
        pairs.as_mut_slice(),
        adjoint.as_mut_slice(),
        out.as_mut_slice(),
    )?;
    out.truncate(packed::open(file)?.controls());
    Ok(Finding::Bend(out))
}

// What the exporter answers to a query.
pub fn ask_file<K: Number>(
    heap: Global,
    file: &[u8],
    controls: &[K],
    query: &Query<K>,
) -> Result<Finding<K>, Fault> {
    match query {
        Query::Value(r) => value(heap, file, controls, *r),
        Query::Gradient(r) => gradient(heap, file, controls, *r),
        Query::Slope(r, direction) => slope(heap, file, controls, direction.as_slice(), *r),
        Query::Bend(r, direction) => bend(heap, file, controls, direction.as_slice(), *r),
    }
}
