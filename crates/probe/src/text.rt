use itoa::{Buffer, Integer};
use kripke::node::Node;
use kripke::refusal::Refusal;
use std::alloc::AllocError;

// The text of an answer. No formats but a refusal's own: they take long to prove.
#[derive(Drop)]
pub(crate) struct Text(pub(crate) Vec<u8>);

const DIGITS: [u8; 16] = *b"0123456789abcdef";

impl Text {
    pub(crate) fn put(&mut self, text: &str) -> Result<(), AllocError> {
        self.0.extend_from_slice(text.as_bytes())
    }

    pub(crate) fn put_number<I: Integer>(&mut self, number: I) -> Result<(), AllocError> {
        let mut digits = Buffer::new();
        self.put(digits.format(number))
    }

    // Two digits a byte.
    pub(crate) fn put_hex(&mut self, bytes: &[u8]) -> Result<(), AllocError> {
        for byte in bytes {
            self.0.extend_from_slice(&[
                DIGITS[usize::from(*byte >> 4)],
                DIGITS[usize::from(*byte & 15)],
            ])?;
        }
        Ok(())
    }

    // A word and some numbers, a space before each, to the end of the line.
    pub(crate) fn put_line<I: Integer + Copy>(
        &mut self,
        word: &str,
        numbers: &[I],
    ) -> Result<(), AllocError> {
        self.put(word)?;
        for number in numbers {
            self.put(" ")?;
            self.put_number(*number)?;
        }
        self.put("\n")
    }

    // A line a node.
    pub(crate) fn put_nodes(&mut self, nodes: &[Node]) -> Result<(), AllocError> {
        for node in nodes {
            self.put_number(node.code)?;
            self.put_line("", &[node.a, node.b])?;
        }
        Ok(())
    }

    // A line.
    pub(crate) fn put_refusal(&mut self, refusal: Refusal) -> Result<(), AllocError> {
        let heap = *self.0.allocator();
        let line = format!(in heap; "{refusal}\n")?;
        self.put(line.as_str())
    }
}
