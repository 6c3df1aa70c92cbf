// What is read of the files that a command names.
use crate::failure::Failure;
use crate::words::shown;
use image::stored::LONGEST_IMAGE;
use std::alloc::Global;
use std::fs::File;
use std::io;
use std::io::Read;

// No image is longer.
pub(crate) const MOST_IMAGE_BYTES: usize = LONGEST_IMAGE;

// A file of commands may be no longer.
const MOST_COMMANDS_BYTES: usize = 65_536;

// The start of a file: what is past the most bytes is not read, but for one byte, which tells that there are more.
fn start(rt: &HostRuntime, path: &str, most: usize) -> io::Result<Vec<u8>> {
    let mut bytes = Vec::new(rt.alloc());
    let mut file = File::open(rt, path)?.take((most as u64).saturating_add(1));
    file.read_to_end(&mut bytes)?;
    Ok(bytes)
}

// The file is named where it cannot be read.
fn named<T: Drop>(heap: Global, path: &str, outcome: io::Result<T>) -> Result<T, Failure> {
    match outcome {
        Ok(value) => Ok(value),
        Err(error) => Err(Failure::File(shown(heap, path)?, error)),
    }
}

// An image. Of a longer file it is as much as to be refused as the whole would be: the header, and more than any header asks for.
pub(crate) fn image(rt: &HostRuntime, path: &str) -> Result<Vec<u8>, Failure> {
    named(rt.alloc(), path, start(rt, path, MOST_IMAGE_BYTES))
}

fn text(rt: &HostRuntime, path: &str) -> io::Result<String> {
    let bytes = start(rt, path, MOST_COMMANDS_BYTES)?;
    if bytes.len() > MOST_COMMANDS_BYTES {
        return Err(io::Error::other(
            "a file of commands has at most 65536 bytes, and this one has more",
        ));
    }
    io::read_to_string(rt.alloc(), bytes.as_slice())
}

// A file of commands.
pub(crate) fn commands(rt: &HostRuntime, path: &str) -> Result<String, Failure> {
    named(rt.alloc(), path, text(rt, path))
}
