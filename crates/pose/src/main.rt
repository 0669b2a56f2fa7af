// Runs a script of editing sessions and exports, from standard input or from the file that is named as the first argument,
// and prints one line for each command.
#![tactic(auto)]

mod agreement;
mod asking;
mod commands;
mod declines;
mod entries;
mod exporting;
mod help;
mod mistakes;
mod numbers;
mod parsing;
mod replaying;
mod replies;
mod rows;
mod runner;
mod running;
mod script;
mod steps;
mod tallies;
mod wholes;
mod words;

use help::HELP;
use std::io::Read;
use std::{env, fs, io};

// The script's bytes, from a file or from standard input.
fn read(rt: &HostRuntime, path: Option<String>) -> io::Result<Vec<u8>> {
    match path {
        Some(path) => fs::read(rt, path),
        None => {
            let mut bytes = Vec::new(rt.alloc());
            rt.stdin().read_to_end(&mut bytes)?;
            Ok(bytes)
        }
    }
}

fn run(rt: &HostRuntime) -> io::Result<()> {
    let argument = env::args(rt)?.nth(1);
    if let Some(word) = &argument {
        if word.as_str() == "--help" {
            return println!(rt; "{HELP}");
        }
    }
    let bytes = read(rt, argument)?;
    let text = String::from_utf8_lossy(rt.alloc(), bytes.as_slice())?;
    running::run(rt, text.as_str())
}

fn main(rt: HostRuntime) -> io::Result<()> {
    run(&rt)
}
