// Times the evaluator and the pair job on the largest models: `bench run`. What it prints differs from run to run, so the gate asks only how it is used.

#![tactic(auto)]

use std::{env, io};

mod evaluations;
mod images;
mod pairs;

fn main(rt: HostRuntime) -> io::Result<()> {
    let words: Vec<String> = env::args(&rt)?.collect(rt.alloc())?;
    match words.get(1) {
        Some(word) if word.as_str() == "run" => {
            evaluations::report(&rt)?;
            pairs::report(&rt)
        }
        _ => println!(rt; "usage: bench run"),
    }
}
