ghost use Rattle.pair_job.specs.Reports.{Closed, Reported, Stands};

use compare::comparison::Comparison;
use compare::verdict::Outcome;
use kripke::label::Label;
use kripke::model::Model;
use kripke::refusal::{Error, Refusal};
use report::report::Report;
use report::write::report_text;
use std::alloc::Global;

// The report of a closed comparison, whose readings refuse nothing.
fn report(comparison: &Comparison) -> Result<Report<'_>, Refusal>
    requires { Closed comparison.now }
    ensures { Stands comparison.now result }
{
    let verdict = comparison.verdict()?;
    // A comparison closes within as many rounds as there are states, 512 at most.
    let rounds = verdict.rounds as u16;
    match verdict.outcome {
        Outcome::Alike => Ok(Report::Alike { rounds }),
        Outcome::Different => {
            let nodes = comparison.table()?;
            Ok(Report::Different { rounds, nodes })
        }
    }
}

// Compares two models of one label kind, and reports.
pub(crate) fn report_models<L: Label, M: Model<Label = L>, N: Model<Label = L>>(
    heap: Global,
    first: &M,
    second: &N,
) -> Result<Vec<u8>, Error>
    ensures { Reported L.Label.count (M.Model.meaning first.now) (N.Model.meaning second.now) result }
{
    let mut comparison = Comparison::open(first, second);
    comparison.close();
    report_text(heap, report(&comparison)?)
}
