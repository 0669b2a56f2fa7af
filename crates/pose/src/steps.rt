// One command at a time.
use crate::asking::{ask, controls_of, file_of};
use crate::commands::{Command, Export, Request, Step};
use crate::declines::{Decline, Fault};
use crate::entries::Entry;
use crate::exporting::ask_file;
use crate::help::HELP;
use crate::mistakes::Mistake;
use crate::numbers::Number;
use crate::replies::Reply;
use crate::rows::zeros;
use crate::runner::Runner;
use session::{Opening, Session};
use std::alloc::Global;
use std::io;
use tape::{Line, Sheet};

// Whether a session can be opened.
pub fn check_request<K: Number>(heap: Global, request: &Request<K>) -> Result<Reply<K>, Fault> {
    let row: Vec<K> = zeros(heap, request.room)?;
    let _ = Opening::new(request.controls, request.rest.as_slice(), row.as_slice())?;
    Ok(Reply::Open(request.controls))
}

fn load<K: Number>(file: &[u8]) -> Result<Reply<K>, Fault> {
    let view = packed::open(file)?;
    Ok(Reply::File(view.controls(), view.count()))
}

fn answer_export<K: Number>(heap: Global, asked: &Export<K>) -> Result<Reply<K>, Fault> {
    let controls = asked.controls.as_slice();
    let finding = ask_file(heap, asked.file.as_slice(), controls, &asked.query)?;
    Ok(Reply::Exported(finding))
}

impl<'r> Runner<'r> {
    // A command that is not for a session.
    pub(crate) fn run_alone<K: Number>(&mut self, entry: &Entry<'_, K>) -> io::Result<()> {
        let heap = self.rt.alloc();
        match &entry.command {
            Err(mistake) => self.print_mistake(entry.line, *mistake),
            Ok(Command::Session(_) | Command::Whole(_)) => {
                self.print_mistake(entry.line, Mistake::NoSession)
            }
            Ok(Command::Help) => println!(self.rt; "{HELP}"),
            Ok(Command::Kind(kind)) => println!(self.rt; "kind {kind}"),
            Ok(Command::Room(length)) => println!(self.rt; "room {length}"),
            Ok(Command::Open(request)) => self.print_reply(check_request(heap, request)),
            Ok(Command::Load(file)) => {
                let reply: Result<Reply<K>, Fault> = load(file.as_slice());
                self.print_reply(reply)
            }
            Ok(Command::Export(asked)) => self.print_reply(answer_export(heap, asked)),
        }
    }

    // One call of a session. `at` is the line of the script.
    pub(crate) fn take_step<K: Number>(
        &mut self,
        session: &mut Session<'_, K>,
        step: &Step<K>,
        at: usize,
    ) -> Result<Reply<K>, Fault> {
        let heap = self.rt.alloc();
        match step {
            Step::Set(i, x) => set(session, *i, *x),
            Step::Add(line) => add(session, *line),
            Step::Change(register, line) => change(session, *register, *line),
            Step::Drop => {
                session.drop_last()?;
                Ok(Reply::Dropped)
            }
            Step::Ask(query) => Ok(Reply::Asked(ask(heap, session, query, at, &mut self.tally)?)),
            Step::Waiting => Ok(Reply::Waiting(session.waiting())),
            Step::Controls => Ok(Reply::Controls(controls_of(heap, session)?)),
            Step::Save => Ok(Reply::Saved(file_of(heap, session)?)),
        }
    }
}

fn set<K: Number>(session: &mut Session<'_, K>, i: usize, x: K) -> Result<Reply<K>, Fault> {
    session.set(i, x).map_err(Decline::Control)?;
    Ok(Reply::Set(i))
}

fn add<K: Number>(session: &mut Session<'_, K>, line: Line) -> Result<Reply<K>, Fault> {
    let register = session.add(line).map_err(Decline::Line)?;
    Ok(Reply::Register(register))
}

fn change<K: Number>(
    session: &mut Session<'_, K>,
    register: usize,
    line: Line,
) -> Result<Reply<K>, Fault> {
    session.change(register, line).map_err(Decline::Line)?;
    Ok(Reply::Changed(register))
}
