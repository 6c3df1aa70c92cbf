// Reads two images, one after the other, from standard input, compares them, and prints the report or the refusal.
#![tactic(auto)]

use pair_job::job::compare_images;
use std::io;
use std::io::{Read, Write};

fn main(rt: HostRuntime) -> io::Result<()> {
    let mut input = Vec::new(rt.alloc());
    rt.stdin().read_to_end(&mut input)?;
    let text = compare_images(rt.alloc(), &input)?;
    rt.stdout().write_all(&text)
}
