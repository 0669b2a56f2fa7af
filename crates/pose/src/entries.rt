// The commands of a script, line by line.
use crate::commands::Command;
use crate::mistakes::Mistake;
use crate::numbers::Number;
use crate::parsing::parse;
use crate::script::ScriptLine;
use std::alloc::{AllocError, Global};

// A line of a script and the command that it writes, or why it writes none.
#[derive(Drop)]
pub struct Entry<'a, K: Number> {
    pub line: usize,
    pub command: Result<Command<K>, Mistake<'a>>,
}

// The commands of lines in one kind. The length of the register row is what the last `room` made it.
pub fn read_entries<'a, K: Number>(
    heap: Global,
    lines: &[ScriptLine<'a>],
    room: &mut usize,
) -> Result<Vec<Entry<'a, K>>, AllocError> {
    let mut entries = Vec::new(heap);
    for line in lines {
        let command: Result<Command<K>, Mistake<'a>> = parse(heap, line.words.as_slice(), *room);
        if let Ok(Command::Room(length)) = &command {
            *room = *length;
        }
        entries.push(Entry {
            line: line.number,
            command,
        })?;
    }
    Ok(entries)
}
