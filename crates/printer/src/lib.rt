// The printer of formulas: node tables, as texts of the grammar.

#![tactic(auto)]

ghost use Rattle.printer.specs.Printed.{Printed};
ghost use Rattle.printer.specs.Theorems.{ReadBack};
ghost use Rattle.std.specs.Prelude.{string_bytes};

use crate::writer::{Stop, Writer};
use kripke::label::MOST_QUESTIONS;
use kripke::node::{Node, first_disordered};
use reader::LEVELS;
use std::alloc::{AllocError, Global};

mod signs;
mod writer;

/// The formula of a table's root, on so many questions, as a text that the reader of formulas reads (docs/FORMATS.md, "A printed formula").
///
/// A node that is named twice is written twice, and one that the root does not reach is not written.
///
/// `None` where there is no such text (docs/REFUSALS.md, "The printer"): for an empty table, a table that is not in order, questions that are not 1 to 32,
/// a level beyond 64, or a text beyond 4,096 bytes; and nowhere else.
///
/// `AllocError` is want of memory alone. It is met only by a table in order, on 1 to 32 questions, and does not say whether the text would keep the limits.
pub fn print_formula(
    heap: Global,
    nodes: &[Node],
    questions: usize,
) -> Result<Option<String>, AllocError>
    ensures { Printed string_bytes questions nodes.now result }
{
    if nodes.is_empty() || questions < 1 || questions > MOST_QUESTIONS {
        return Ok(None);
    }
    let None = first_disordered(nodes, questions) else {
        return Ok(None);
    };
    let mut writer = Writer::new(heap);
    match writer.put_formula(nodes, nodes.len() - 1, LEVELS) {
        Ok(()) => Ok(Some(writer.into_text())),
        Err(Stop::Limit) => Ok(None),
        Err(Stop::Memory(error)) => Err(error),
    }
}

/// What is printed is read back as the same formula, unless it has more nodes than there are places, or than 2,045. This function does nothing; its contract is a theorem.
pub fn read_back()
    ensures { ReadBack }
{}
