// The queries, asked of a session and of the exporter.
use crate::numbers::Number;
use crate::outcomes::Given;
use crate::rows::Rows;
use export::ExportFault;
use session::Session;
use tape::Refusal;

#[derive(Clone, Copy)]
pub enum Query {
    Value,
    Gradient,
    Slope,
    Bend,
}

// What the session writes is in `by_session`.
pub(crate) fn ask<K: Number>(
    session: &mut Session<'_, K>,
    query: Query,
    r: usize,
    rows: &mut Rows<K>,
) -> Result<Given, Refusal> {
    let mut given = Given::default();
    match query {
        Query::Value => given.value = session.value(r)?.value.word(),
        Query::Gradient => {
            let answer = session.gradient(r, &mut rows.by_session)?;
            given.value = answer.value.word();
            given.operations = answer.operations;
        }
        Query::Slope => {
            given.value = session.slope(r, &rows.direction, &mut rows.pairs)?.word();
        }
        Query::Bend => session.bend(
            r,
            &rows.direction,
            &mut rows.pairs,
            &mut rows.adjoint,
            &mut rows.by_session,
        )?,
    }
    Ok(given)
}

// The same of the exporter, from the saved file and the controls. What it writes is in `by_exporter`.
// (Not one function with `ask`: each library is called in a form of its own.)
pub(crate) fn export<K: Number>(
    file: &[u8],
    query: Query,
    r: usize,
    rows: &mut Rows<K>,
) -> Result<Given, ExportFault> {
    let controls = &rows.controls;
    let mut given = Given::default();
    match query {
        Query::Value => given.value = export::value(file, controls, r, &mut rows.work)?.word(),
        Query::Gradient => {
            let answer = export::gradient(
                file,
                controls,
                r,
                &mut rows.work,
                &mut rows.by_exporter,
            )?;
            given.value = answer.value.word();
            given.operations = answer.operations;
        }
        Query::Slope => {
            let slope = export::slope(file, controls, &rows.direction, r, &mut rows.pairs)?;
            given.value = slope.word();
        }
        Query::Bend => export::bend(
            file,
            controls,
            &rows.direction,
            r,
            &mut rows.pairs,
            &mut rows.adjoint,
            &mut rows.by_exporter,
        )?,
    }
    Ok(given)
}
