ghost use Rattle.std.specs.Prelude.{◌≡◌, length};
ghost use Rattle.kripke.specs.Refusals.{Judged, JudgedInMemory};
ghost use Rattle.kripke.specs.declared.refusal.Layer.TheVariants.{Report as ReportLayer};
ghost use Rattle.report.specs.Puts.{Written};
ghost use Rattle.report.specs.Text.{ReportBreach, Measured, report_text};

use crate::cursor::write_text;
use crate::report::Report;
use kripke::node::MOST_NODES;
use kripke::refusal::{Cause, Error, Layer, Refusal};
use std::alloc::Global;

// How many bytes the report's text has; a report with too many nodes is refused.
fn text_length(report: Report) -> Result<usize, Refusal>
    ensures { Measured report.entry result }
{
    match report {
        Report::Different { nodes, .. } if nodes.len() > MOST_NODES => {
            Err(Layer::Report.refusal(Cause::ReportSize, 0))
        }
        _ => Ok(write_text(report, &mut [])),
    }
}

/// Writes the report's text (docs/FORMATS.md, "The report") from the start of the bytes, and answers its length in bytes. The rest of the bytes stays as it was.
///
/// Refuses with 22, in layer 7, at place 0, and with all bytes as they were, a report of more than 2,045 nodes, and one that has more bytes than are given
/// (docs/REFUSALS.md, "Causes").
pub fn write_report(report: Report, out: &mut [u8]) -> Result<usize, Refusal>
    ensures { Judged result record {
      breaches = ReportBreach report.entry (length out.old);
      layer = ReportLayer;
      accepted = λ n. Written (report_text report.entry) out.old n out.new;
      refused = out.new ≡ out.old;
    } }
{
    if text_length(report)? > out.len() {
        return Err(Layer::Report.refusal(Cause::ReportSize, 0));
    }
    Ok(write_text(report, out))
}

/// The report's text in bytes of its own, just as many as it has, some 40 KB at most (docs/FORMATS.md, "The report").
///
/// Refuses with 22, in layer 7, at place 0, a report of more than 2,045 nodes (docs/REFUSALS.md, "Causes"). Want of memory is its only other error
/// (docs/DECISIONS.md, "Memory").
pub fn report_text(heap: Global, report: Report) -> Result<Vec<u8>, Error>
    ensures { JudgedInMemory result record {
      breaches = ReportBreach report.entry (length (report_text report.entry));
      layer = ReportLayer;
      accepted = λ text. text.items ≡ report_text report.entry;
      refused = Unit {0};
    } }
{
    let length = text_length(report)?;
    let mut text = vec![in heap; 0; length]?;
    write_text(report, text.as_mut_slice());
    Ok(text)
}
