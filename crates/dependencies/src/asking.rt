// The two parties: an editing session, and the exporter on the file that it saves.
use crate::patterns::Dependence;
use crate::rig::CONTROLS;
use export::ExportFault;
use replay::Finding;
use session::{Call, Session};
use tape::Refusal;

// A number for each control and each line, with some to spare.
pub const ENTRIES: usize = 128;

// What a party answers to a gradient query.
pub type Answer = Result<Finding<Dependence>, ExportFault>;

// Makes an edit. A query is none.
pub fn make(
    session: &mut Session<'_, Dependence>,
    call: &Call<'_, Dependence>,
) -> Result<(), Refusal> {
    match call {
        Call::Set(control, x) => session.set(*control, *x),
        Call::Add(line) => session.add(*line).map(|_| ()),
        Call::Change(register, line) => session.change(*register, *line),
        Call::Drop => session.drop_last(),
        _ => Ok(()),
    }
}

// The session's file, in a buffer that is to have room for it. A file that was not saved is empty, and the exporter takes no
// empty file.
pub fn saved<'b>(session: &Session<'_, Dependence>, buffer: &'b mut [u8]) -> &'b [u8] {
    let length = session.save(buffer).unwrap_or(0).min(buffer.len());
    &buffer[..length]
}

// The adjoint row has a number for each register.
pub fn ask_session(
    session: &mut Session<'_, Dependence>,
    register: usize,
    mut adjoint: Vec<Dependence>,
) -> Answer {
    let graded = session.gradient(register, adjoint.as_mut_slice())?;
    adjoint.truncate(CONTROLS);
    Ok(Finding::Gradient(graded.value, adjoint, graded.operations))
}

// The exporter is handed the saved file and the controls, and nothing else.
pub fn ask_exporter(
    session: &Session<'_, Dependence>,
    register: usize,
    mut adjoint: Vec<Dependence>,
) -> Answer {
    let mut buffer = [0; 64];
    let file = saved(session, &mut buffer);
    let mut controls = [Dependence(false); CONTROLS];
    let _ = session.controls(&mut controls);
    let mut row = [Dependence(false); ENTRIES];
    let graded = export::gradient(file, &controls, register, &mut row, adjoint.as_mut_slice())?;
    adjoint.truncate(CONTROLS);
    Ok(Finding::Gradient(graded.value, adjoint, graded.operations))
}
