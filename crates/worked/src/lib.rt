// Worked facts, proved from the definitions, and tests of every kind and layer.
#![tactic(auto)]

ghost use Rattle.worked.specs.Facts.{WorkedFactsHold};

// The table of worked facts, as a theorem: each row follows from the definitions that the contracts of the questions cite.
pub fn worked_facts_hold()
    ensures { WorkedFactsHold }
{}

#[cfg(test)]
mod tests;
