// Worked examples, proved of the definitions that every contract uses.
#![tactic(auto)]

ghost use Rattle.examples.specs.Examples.{Examples};

/// Carries the worked examples in its contract.
pub fn examples_stand()
    ensures { Examples }
{}
