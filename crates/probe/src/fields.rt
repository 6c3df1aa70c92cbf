ghost use Rattle.std.specs.Prelude.{◌<◌, ◌≤◌, length};

use crate::failure::Failure;
use compare::requests::Request;
use kripke::node::Node;
use rules::rule::Rule;
use std::alloc::Global;

// What is left of some bytes, from which fields are taken one after the other.
#[derive(Drop)]
pub(crate) struct Fields<'a>(pub(crate) &'a [u8]);

// What stands at the end of a payload any number of times, in N bytes each.
pub(crate) trait Record<const N: usize>: Drop {
    // Bad unless there are N bytes.
    fn decode(record: &[u8]) -> Result<Self, Failure>;
}

impl<'a> Fields<'a> {
    fn array<const N: usize>(&mut self) -> Result<[u8; N], Failure>
        ensures { length self.new.0.now ≤ length self.old.0.now }
    {
        let Some((bytes, rest)) = self.0.split_first_chunk::<N>() else {
            return Err(Failure::Bad);
        };
        self.0 = rest;
        Ok(*bytes)
    }

    pub(crate) fn byte(&mut self) -> Result<u8, Failure> {
        let [byte] = self.array::<1>()?;
        Ok(byte)
    }

    // A number of two bytes.
    pub(crate) fn number(&mut self) -> Result<u16, Failure> {
        Ok(u16::from_le_bytes(self.array()?))
    }

    // Bytes that stand behind their count of four bytes.
    pub(crate) fn counted(&mut self) -> Result<&'a [u8], Failure>
        ensures { length self.new.0.now ≤ length self.old.0.now }
    {
        let count = u32::from_le_bytes(self.array()?) as usize;
        let Some((bytes, rest)) = self.0.split_at_checked(count) else {
            return Err(Failure::Bad);
        };
        self.0 = rest;
        Ok(bytes)
    }

    // All that is left.
    pub(crate) fn records<const N: usize, T: Record<N>>(
        self,
        heap: Global,
    ) -> Result<Vec<T>, Failure>
        requires { 0 < N }
    {
        self.0
            .chunks(N)
            .map(|record| T::decode(record))
            .try_collect(heap)
    }
}

impl Record<5> for Node {
    fn decode(record: &[u8]) -> Result<Node, Failure> {
        match record {
            [code, a, c, b, d] => Ok(Node {
                code: *code,
                a: u16::from_le_bytes([*a, *c]),
                b: u16::from_le_bytes([*b, *d]),
            }),
            _ => Err(Failure::Bad),
        }
    }
}

impl Record<4> for Rule {
    fn decode(record: &[u8]) -> Result<Rule, Failure> {
        match record {
            [care, need, set, clear] => Ok(Rule {
                care: *care,
                need: *need,
                set: *set,
                clear: *clear,
            }),
            _ => Err(Failure::Bad),
        }
    }
}

impl Record<3> for Request {
    fn decode(record: &[u8]) -> Result<Request, Failure> {
        match record {
            [0, _, _] => Ok(Request::Round),
            [1, a, b] => Ok(Request::Class(usize::from(u16::from_le_bytes([*a, *b])))),
            [2, _, _] => Ok(Request::Verdict),
            [3, a, b] => Ok(Request::Formula(usize::from(u16::from_le_bytes([*a, *b])))),
            _ => Err(Failure::Bad),
        }
    }
}
