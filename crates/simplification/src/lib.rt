// Simplification of formulas: in their tables, what it keeps, and what it comes to.
#![tactic(auto)]

mod compact;
mod entry;
pub mod in_place;
mod placed;
mod plain;
mod reach;
mod runs;
mod settle;

ghost use Rattle.simplification.specs.Laws.{WeighedLaw, KeepsTruthLaw, KeepsFormLaw, KeepsBoundsLaw, ReachLaw, SettlesLaw, FillsLaw};
ghost use Rattle.simplification.specs.Examples.{WorkedExamples};

use formulas::stands::course_stands;

// A simplified formula holds in the same states, of every system that keeps the rules.
pub fn truth_kept_stands()
    ensures ruled { WeighedLaw }
    ensures kept { KeepsTruthLaw }
{
    course_stands();
}

// It is well-formed again, and its sums keep to their bounds.
pub fn form_kept_stands()
    ensures form { KeepsFormLaw }
    ensures bounds { KeepsBoundsLaw }
{}

// Its lines are those that the root reaches once every line is what it becomes.
pub fn reach_stands()
    ensures { ReachLaw }
{}

// Without move alternatives it is one line, yes or no.
pub fn settled_stands()
    ensures { SettlesLaw }
{}

// It has no more lines, terms and alternatives.
pub fn fills_stand()
    ensures { FillsLaw }
{}

// Worked examples.
pub fn examples_stand()
    ensures { WorkedExamples }
{}
