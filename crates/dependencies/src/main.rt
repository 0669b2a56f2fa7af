// Which controls a register depends on: after each edit of a rig the pattern is asked of the session, and of the exporter on the
// saved file. At the end the whole run is replayed.
#![tactic(auto)]

mod asking;
mod patterns;
mod printing;
mod replaying;
mod rig;

use asking::{ENTRIES, ask_exporter, ask_session, make, saved};
use packed::View;
use patterns::Dependence;
use printing::{print_agreement, print_reply};
use replay::{Query, Reply};
use replaying::{blank, replayed};
use rig::{CONTROLS, Edit, edits};
use session::{Call, Opening, Session};
use std::alloc::AllocError;
use std::io;

// The length of the register row.
const ROOM: usize = 16;

// A row for a walk back.
fn adjoint(rt: &HostRuntime) -> Result<Vec<Dependence>, AllocError> {
    vec![in rt.alloc(); Dependence(false); ENTRIES]
}

fn print_edit(
    rt: &HostRuntime,
    session: &mut Session<'_, Dependence>,
    edit: &Edit,
) -> io::Result<()> {
    let words = edit.words;
    print!(rt; "{words}")?;
    if let Err(refusal) = make(session, &edit.call) {
        let number = refusal.number();
        print!(rt; ": refused {number}")?;
    }
    println!(rt; "")?;
    let by_session = Reply::of(ask_session(session, edit.register, adjoint(rt)?));
    let by_exporter = Reply::of(ask_exporter(session, edit.register, adjoint(rt)?));
    print_reply(rt, "session", edit.register, &by_session)?;
    print_reply(rt, "exporter", edit.register, &by_exporter)?;
    print_agreement(rt, &by_session, &by_exporter)
}

fn print_replay(
    rt: &HostRuntime,
    rest: &[Dependence],
    calls: &[Call<'_, Dependence>],
    sheet: &View<'_>,
) -> io::Result<()> {
    let register = 4;
    let query = Query::Gradient(register);
    let mut out = blank();
    let heap = rt.alloc();
    let made = replayed(heap, CONTROLS, rest, ROOM, calls, &query, sheet, &mut out);
    if made.is_err() {
        return println!(rt; "not replayed");
    }
    println!(rt; "replay")?;
    print_reply(rt, "session", register, &out.session)?;
    print_reply(rt, "exporter on the file", register, &out.from_file)?;
    print_agreement(rt, &out.session, &out.from_file)?;
    print_reply(rt, "exporter on the view", register, &out.on_sheet)?;
    print_agreement(rt, &out.session, &out.on_sheet)
}

fn run(rt: &HostRuntime) -> io::Result<()> {
    let rest = [Dependence(true); CONTROLS];
    let mut row = [Dependence(false); ROOM];
    let Ok(opening) = Opening::new(CONTROLS, &rest, &row) else {
        return println!(rt; "not opened");
    };
    let mut session = Session::open(opening, &rest, &mut row);
    let mut calls = Vec::new(rt.alloc());
    for edit in &edits() {
        print_edit(rt, &mut session, edit)?;
        calls.push(edit.call)?;
    }
    let mut buffer = [0; 64];
    match packed::open(saved(&session, &mut buffer)) {
        Ok(view) => print_replay(rt, &rest, calls.as_slice(), &view),
        Err(_) => println!(rt; "not saved"),
    }
}

fn main(rt: HostRuntime) -> io::Result<()> {
    run(&rt)
}
