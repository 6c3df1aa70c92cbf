// The engineer's tool: compares two panels, checks a condition, shows a model.
#![tactic(auto)]

use std::process::ExitCode;
use std::{env, io};

mod batch;
mod command;
mod condition;
mod difference;
mod failure;
mod faults;
mod input;
mod listing;
mod marks;
mod task;
mod trial;
mod usage;
mod words;

// Answers the command of these words, or those of a file.
fn answer(rt: &HostRuntime, words: &[&str]) -> io::Result<ExitCode> {
    let answer = match words {
        ["batch", path] => batch::run(rt, path),
        _ => command::run(rt, words),
    };
    match answer {
        Ok(text) => {
            rt.print(text)?;
            Ok(ExitCode::SUCCESS)
        }
        Err(failure) => {
            rt.eprint(failure)?;
            Ok(ExitCode::FAILURE)
        }
    }
}

fn main(rt: HostRuntime) -> io::Result<ExitCode> {
    let words: Vec<String> = env::args(&rt)?.collect(rt.alloc())?;
    // The first word is the program's name.
    let words: Vec<&str> = words
        .iter()
        .skip(1)
        .map(String::as_str)
        .collect(rt.alloc())?;
    answer(&rt, words.as_slice())
}
