// The whole job, from the bytes of two images to the report's text.
use crate::images::{Shape, image};
use pair_job::job::compare_images;
use std::io;
use std::time::Instant;

const TIMES: u32 = 20;

// The first line of a report: the verdict and the rounds.
fn first_line(text: &[u8]) -> &str {
    match str::from_utf8(text) {
        Ok(text) => text.lines().next().unwrap_or(""),
        Err(_) => "",
    }
}

fn print_time(
    rt: &HostRuntime,
    name: &str,
    shape: Shape,
    first: Option<u8>,
    second: Option<u8>,
) -> io::Result<()> {
    let heap = rt.alloc();
    let mut input = image(heap, shape, first)?;
    input.extend_from_slice(image(heap, shape, second)?.as_slice())?;
    let mut least = u128::MAX;
    let mut text = Vec::new(heap);
    for _ in 0..TIMES {
        let start = Instant::now(rt)?;
        text = compare_images(heap, input.as_slice())?;
        least = least.min(start.elapsed(rt)?.as_micros());
    }
    let verdict = first_line(text.as_slice());
    println!(rt; "  {name}: {least} us, {verdict}")
}

pub(crate) fn report(rt: &HostRuntime) -> io::Result<()> {
    println!(rt; "two images compared")?;
    print_time(
        rt,
        "chains of 256 states that part at the last step",
        Shape::Chain,
        Some(255),
        None,
    )?;
    print_time(
        rt,
        "two alike rings of 256 states",
        Shape::Ring,
        Some(0),
        Some(0),
    )?;
    print_time(
        rt,
        "256 states with 16 successors each, alike",
        Shape::Dense,
        Some(0),
        Some(0),
    )
}
