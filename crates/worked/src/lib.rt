// Ten worked examples of the plan file, the quantities and the row, proved of the definitions that the contracts cite.
#![tactic(auto)]

ghost use Rattle.worked.specs.Examples.{Examples};

// All ten hold, for every kind of value and of figures that a quantity can have.
pub fn worked_examples<V, F>()
    ensures { Examples V F }
{}
