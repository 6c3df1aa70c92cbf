// Reports, into given bytes, and of the whole job on the bytes of two images.
use crate::failure::Failure;
use crate::fields::Fields;
use crate::text::Text;
use kripke::node::Node;
use pair_job::job::compare_images;
use report::report::Report;
use report::write::write_report;
use std::alloc::Global;

// What each given byte holds before the call.
const FILLING: u8 = 0x7e;

pub(crate) fn write(heap: Global, mut fields: Fields, text: &mut Text) -> Result<(), Failure> {
    let outcome = fields.byte()?;
    let rounds = fields.number()?;
    let mut bytes = vec![in heap; FILLING; usize::from(fields.number()?)]?;
    let nodes = fields.records::<5, Node>(heap)?;
    let report = match outcome {
        0 => Report::Alike { rounds },
        1 => Report::Different {
            rounds,
            nodes: nodes.as_slice(),
        },
        _ => return Err(Failure::Bad),
    };
    match write_report(report, bytes.as_mut_slice()) {
        Ok(length) => text.put_line("wrote", &[length])?,
        Err(refusal) => text.put_refusal(refusal)?,
    }
    text.put("bytes ")?;
    text.put_hex(bytes.as_slice())?;
    text.put("\n")?;
    Ok(())
}

pub(crate) fn compare_pair(heap: Global, input: &[u8], text: &mut Text) -> Result<(), Failure> {
    text.0
        .extend_from_slice(compare_images(heap, input)?.as_slice())?;
    Ok(())
}
