// The command that the words of a line write.
use crate::commands::{Choice, Command, Export, Query, Request, Step, WholeQuery};
use crate::mistakes::Mistake;
use crate::numbers::Number;
use crate::words;
use std::alloc::Global;

const EXPORT_FORM: Mistake<'static> = Mistake::Form("export QUERY R HEX C0 C1 .. : D0 D1 ..");

// The kind that a line chooses, if it does.
pub fn choice(words: &[&str]) -> Option<Choice> {
    match words {
        ["kind", "ticks"] => Some(Choice::Ticks),
        ["kind", "residues"] => Some(Choice::Residues),
        ["kind", "sizes"] => Some(Choice::Sizes),
        _ => None,
    }
}

// Where the first word is none of a session's calls, there is no step.
fn step<'a, K: Number>(heap: Global, words: &[&'a str]) -> Result<Option<Step<K>>, Mistake<'a>> {
    let step = match words {
        ["set", i, x] => Step::Set(words::parsed(i)?, words::number(x)?),
        ["add", line @ ..] => Step::Add(words::line(line)?),
        ["change", r, line @ ..] => Step::Change(words::parsed(r)?, words::line(line)?),
        ["drop"] => Step::Drop,
        ["value", r] => Step::Ask(Query::Value(words::parsed(r)?)),
        ["gradient", r] => Step::Ask(Query::Gradient(words::parsed(r)?)),
        ["slope", r, along @ ..] => {
            Step::Ask(Query::Slope(words::parsed(r)?, words::row(heap, along)?))
        }
        ["bend", r, along @ ..] => {
            Step::Ask(Query::Bend(words::parsed(r)?, words::row(heap, along)?))
        }
        ["waiting"] => Step::Waiting,
        ["controls"] => Step::Controls,
        ["save"] => Step::Save,
        _ => return Ok(None),
    };
    Ok(Some(step))
}

// The words before and after the first `:`, or none after where there is none.
fn parts<'w, 'a>(words: &'w [&'a str]) -> (&'w [&'a str], &'w [&'a str]) {
    match words.iter().position(|word| *word == ":") {
        Some(i) => (&words[..i], &words[i + 1..]),
        None => words.split_at(words.len()),
    }
}

fn export<'a, K: Number>(heap: Global, words: &[&'a str]) -> Result<Export<K>, Mistake<'a>> {
    let [name, r, hex, numbers @ ..] = words else {
        return Err(EXPORT_FORM);
    };
    let (controls, along) = match *name {
        "slope" | "bend" => parts(numbers),
        _ => numbers.split_at(numbers.len()),
    };
    let query = match *name {
        "value" => Query::Value(words::parsed(r)?),
        "gradient" => Query::Gradient(words::parsed(r)?),
        "slope" => Query::Slope(words::parsed(r)?, words::row(heap, along)?),
        "bend" => Query::Bend(words::parsed(r)?, words::row(heap, along)?),
        _ => return Err(EXPORT_FORM),
    };
    Ok(Export {
        query,
        file: words::file(heap, hex)?,
        controls: words::row(heap, controls)?,
    })
}

// How a command is written, by its first word.
fn mistake<'a>(words: &[&'a str]) -> Mistake<'a> {
    let [word, ..] = words else {
        return Mistake::Unknown("");
    };
    match *word {
        "kind" => Mistake::Form("kind ticks, kind residues or kind sizes"),
        "room" => Mistake::Form("room L"),
        "open" => Mistake::Form("open N C0 C1 .."),
        "set" => Mistake::Form("set I X"),
        "change" => Mistake::Form("change R LINE"),
        "value" => Mistake::Form("value R"),
        "gradient" => Mistake::Form("gradient R"),
        "slope" => Mistake::Form("slope R D0 D1 .."),
        "bend" => Mistake::Form("bend R D0 D1 .."),
        "exact" => Mistake::Form("exact R D0 D1 .."),
        "load" => Mistake::Form("load HEX"),
        "drop" => Mistake::Form("drop"),
        "help" => Mistake::Form("help"),
        "waiting" => Mistake::Form("waiting"),
        "controls" => Mistake::Form("controls"),
        "save" => Mistake::Form("save"),
        other => Mistake::Unknown(other),
    }
}

// The command that the words write. A session is opened over a register row of length `room`.
pub fn parse<'a, K: Number>(
    heap: Global,
    words: &[&'a str],
    room: usize,
) -> Result<Command<K>, Mistake<'a>> {
    if let Some(kind) = choice(words) {
        return Ok(Command::Kind(kind));
    }
    if let Some(step) = step(heap, words)? {
        return Ok(Command::Session(step));
    }
    match words {
        ["help"] => Ok(Command::Help),
        ["room", length] => Ok(Command::Room(words::room(length)?)),
        ["open", n, rest @ ..] => Ok(Command::Open(Request {
            controls: words::parsed(n)?,
            rest: words::row(heap, rest)?,
            room,
        })),
        ["exact", r, along @ ..] => {
            let r = words::parsed(r)?;
            Ok(Command::Whole(WholeQuery::Exact(r, words::row(heap, along)?)))
        }
        ["steps", numbers @ ..] => {
            let (along, tests) = parts(numbers);
            let direction = words::row(heap, along)?;
            Ok(Command::Whole(WholeQuery::Steps(direction, words::registers(heap, tests)?)))
        }
        ["load", hex] => Ok(Command::Load(words::file(heap, hex)?)),
        ["export", asked @ ..] => Ok(Command::Export(export(heap, asked)?)),
        _ => Err(mistake(words)),
    }
}
