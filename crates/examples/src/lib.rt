// Worked examples of the definitions: one table, one theorem.
#![tactic(auto)]

ghost use Rattle.examples.specs.Rows.{rows, EveryRowYields};

// The definitions yield the published bytes, in every row of the table.
pub fn worked_examples_stand()
    ensures { EveryRowYields rows }
{}
