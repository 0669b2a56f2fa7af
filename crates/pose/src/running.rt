// Carrying a script out.
use crate::commands::{Choice, Command, Request};
use crate::entries::{Entry, read_entries};
use crate::numbers::Number;
use crate::parsing::choice;
use crate::replaying::{blank, replay_run};
use crate::rows::zeros;
use crate::runner::Runner;
use crate::script::{ScriptLine, read_lines};
use crate::steps::check_request;
use kind::{Residue, Size, Ticks};
use replay::Outcome;
use session::{Opening, Session};
use std::alloc::{AllocError, Global};
use std::io;

// Whether a run begins here.
fn begins<K: Number>(heap: Global, entry: &Entry<'_, K>) -> bool {
    match &entry.command {
        Ok(Command::Open(request)) => check_request(heap, request).is_ok(),
        _ => false,
    }
}

impl<'r> Runner<'r> {
    // Commands with a session open.
    fn run_session<K: Number>(
        &mut self,
        session: &mut Session<'_, K>,
        entries: &[Entry<'_, K>],
    ) -> io::Result<()> {
        for entry in entries {
            match &entry.command {
                Ok(Command::Session(step)) => {
                    let reply = self.take_step(session, step, entry.line);
                    self.print_reply(reply)?;
                }
                Ok(Command::Whole(query)) => self.run_whole(session, query, entry.line)?,
                _ => self.run_alone(entry)?,
            }
        }
        Ok(())
    }

    // Commands with no session open.
    fn run_without<K: Number>(&mut self, entries: &[Entry<'_, K>]) -> io::Result<()> {
        for entry in entries {
            self.run_alone(entry)?;
        }
        Ok(())
    }

    // Replays a run that is over. It was opened in the script's line `line`.
    fn end_run<K: Number>(
        &mut self,
        session: &Session<'_, K>,
        line: usize,
        request: &Request<K>,
        entries: &[Entry<'_, K>],
        outcome: &mut Outcome<K>,
    ) -> io::Result<()> {
        let heap = self.rt.alloc();
        // (a session's file opens and its rows are long enough, so want of memory is all that can stop a replay)
        let agreed = replay_run(heap, request, entries, session, outcome).map_err(|_| AllocError)?;
        Ok(self.tally.count_run(line, agreed)?)
    }

    // A run: a session that was asked for, and the commands after.
    fn run_request<K: Number>(
        &mut self,
        line: usize,
        request: &Request<K>,
        entries: &[Entry<'_, K>],
        outcome: &mut Outcome<K>,
    ) -> io::Result<()> {
        let mut row: Vec<K> = zeros(self.rt.alloc(), request.room)?;
        let rest = request.rest.as_slice();
        let Ok(opening) = Opening::new(request.controls, rest, row.as_slice()) else {
            return self.run_without(entries);
        };
        let mut session = Session::open(opening, rest, row.as_mut_slice());
        self.run_session(&mut session, entries)?;
        self.end_run(&session, line, request, entries, outcome)
    }

    // The commands from an `open` that is not declined to the next, or those before the first.
    fn run_entries<K: Number>(
        &mut self,
        entries: &[Entry<'_, K>],
        outcome: &mut Outcome<K>,
    ) -> io::Result<()> {
        let Some((first, after)) = entries.split_first() else {
            return Ok(());
        };
        self.run_alone(first)?;
        match &first.command {
            Ok(Command::Open(request)) => self.run_request(first.line, request, after, outcome),
            _ => self.run_without(after),
        }
    }

    // The lines of one kind. Each run's replay writes to the outcome.
    fn run_kind<K: Number>(
        &mut self,
        lines: &[ScriptLine<'_>],
        outcome: &mut Outcome<K>,
    ) -> io::Result<()> {
        let heap = self.rt.alloc();
        let entries: Vec<Entry<'_, K>> = read_entries(heap, lines, &mut self.room)?;
        let all = entries.as_slice();
        let mut from = 0;
        for (at, entry) in all.iter().enumerate() {
            if begins(heap, entry) {
                self.run_entries(&all[from..at], outcome)?;
                from = at;
            }
        }
        self.run_entries(&all[from..], outcome)
    }

    fn run_choice(&mut self, kind: Choice, lines: &[ScriptLine<'_>]) -> io::Result<()> {
        match kind {
            Choice::Ticks => self.run_kind::<Ticks>(lines, &mut blank()),
            Choice::Residues => self.run_kind::<Residue>(lines, &mut blank()),
            Choice::Sizes => self.run_kind::<Size>(lines, &mut blank()),
        }
    }
}

// A whole script. It begins in ticks.
pub fn run(rt: &HostRuntime, text: &str) -> io::Result<()> {
    let read = read_lines(rt.alloc(), text)?;
    let lines = read.as_slice();
    let mut runner = Runner::new(rt);
    let mut kind = Choice::Ticks;
    let mut from = 0;
    for (at, line) in lines.iter().enumerate() {
        if let Some(next) = choice(line.words.as_slice()) {
            runner.run_choice(kind, &lines[from..at])?;
            from = at;
            kind = next;
        }
    }
    runner.run_choice(kind, &lines[from..])?;
    let tally = &runner.tally;
    println!(rt; "{tally}")
}
