// The commands of a file, a line each.
use crate::failure::Failure;
use crate::words::shown;
use crate::{command, input};
use std::alloc::AllocError;
use std::fmt::Write;

// Adds the words of a line. What stands between double quotes is one word.
fn push_words<'a>(words: &mut Vec<&'a str>, line: &'a str) -> Result<(), AllocError> {
    for (i, part) in line.split('"').enumerate() {
        if i % 2 == 0 {
            words.extend(part.split_whitespace())?;
        } else {
            words.push(part)?;
        }
    }
    Ok(())
}

// Adds the line, and below it what its command answers, or why it gives no answer; of a line without words nothing.
fn push_answer(rt: &HostRuntime, out: &mut String, line: &str) -> Result<(), AllocError> {
    let mut words = Vec::new(rt.alloc());
    push_words(&mut words, line)?;
    if words.is_empty() {
        return Ok(());
    }
    let answer = command::run(rt, words.as_slice());
    let line = shown(rt.alloc(), line)?;
    match answer {
        Ok(text) => write!(out, "> {line}\n{text}"),
        Err(failure) => write!(out, "> {line}\n{failure}"),
    }
}

// What the commands of a file answer, each below its line.
pub(crate) fn run(rt: &HostRuntime, path: &str) -> Result<String, Failure> {
    let commands = input::commands(rt, path)?;
    let mut out = String::new(rt.alloc());
    for line in commands.lines() {
        push_answer(rt, &mut out, line)?;
    }
    Ok(out)
}
