// The lines of a script.
use std::alloc::{AllocError, Global};

// A line that is neither blank nor a comment: its number, counted from 1, and its words.
#[derive(Drop)]
pub struct ScriptLine<'a> {
    pub number: usize,
    pub words: Vec<&'a str>,
}

// The words of a line, up to a comment.
fn words<'a>(heap: Global, line: &'a str) -> Result<Vec<&'a str>, AllocError> {
    let command = match line.split_once('#') {
        Some((before, _)) => before,
        None => line,
    };
    command.split_whitespace().collect(heap)
}

pub fn read_lines<'a>(heap: Global, text: &'a str) -> Result<Vec<ScriptLine<'a>>, AllocError> {
    let mut lines = Vec::new(heap);
    for (i, line) in text.lines().enumerate() {
        let words = words(heap, line)?;
        if !words.is_empty() {
            let number = i.saturating_add(1);
            lines.push(ScriptLine { number, words })?;
        }
    }
    Ok(lines)
}
