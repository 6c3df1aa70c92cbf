// The bench table: worked examples, proved as rows of one table.
#![tactic(auto)]

ghost use Rattle.examples.specs.Rows.{Each};
ghost use Rattle.examples.specs.Table.{table};

/// Every row of the bench table holds: worked examples of readings, formulas, comparisons, texts, places, words and refusals. This function does nothing;
/// its contract is a theorem. docs/PROOFS.md says where the rows stand ("The promises").
pub fn examples_hold()
    ensures { Each table }
{}
