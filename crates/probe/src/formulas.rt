// Formulas from text and to text.
use crate::failure::Failure;
use crate::fields::Fields;
use crate::text::Text;
use kripke::node::Node;
use printer::print_formula;
use reader::read_formula;
use std::alloc::Global;

// Place i holds (255, i, i) before the call.
pub(crate) fn read(heap: Global, mut fields: Fields, text: &mut Text) -> Result<(), Failure> {
    let questions = usize::from(fields.number()?);
    let count = fields.number()?;
    let mut places: Vec<Node> = (0..count)
        .map(|i| Node {
            code: 255,
            a: i,
            b: i,
        })
        .collect(heap)?;
    match read_formula(fields.0, questions, places.as_mut_slice()) {
        Ok(number) => text.put_line("read", &[number])?,
        Err(refusal) => text.put_refusal(refusal)?,
    }
    text.put_nodes(places.as_slice())?;
    Ok(())
}

pub(crate) fn print(heap: Global, mut fields: Fields, text: &mut Text) -> Result<(), Failure> {
    let questions = usize::from(fields.number()?);
    let nodes = fields.records::<5, Node>(heap)?;
    match print_formula(heap, nodes.as_slice(), questions)? {
        Some(formula) => {
            text.put("text ")?;
            text.put(formula.as_str())?;
            text.put("\n")?;
        }
        None => text.put("none\n")?,
    }
    Ok(())
}
