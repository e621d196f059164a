//! Worked figures: verdicts, trees, findings and supports of a few small tables, as one theorem.
#![tactic(auto)]

ghost use Rattle.figures.specs.Figures.{Figures};

/// Each figure that is a theorem follows from the definitions.
pub fn figures()
    ensures { Figures }
{}
