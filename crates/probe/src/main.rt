// Answers jobs on standard input, each of which makes a call of the library crates on given bytes, for tests against another program.

#![tactic(auto)]

use crate::job::{Jobs, answer};
use std::io;
use std::io::{Read, Write};

mod comparing;
mod evaluating;
mod failure;
mod fields;
mod formulas;
mod job;
mod listing;
mod reporting;
mod source;
mod text;

fn main(rt: HostRuntime) -> io::Result<()> {
    let mut input = Vec::new(rt.alloc());
    rt.stdin().read_to_end(&mut input)?;
    for job in Jobs(input.as_slice()) {
        let text = answer(rt.alloc(), job)?;
        rt.stdout().write_all(text.as_slice())?;
    }
    Ok(())
}
