// The law of runs, and the books that each call keeps.
ghost use Rattle.claims.specs.Examples.{WorkedExamples};
ghost use Rattle.claims.specs.Law.{LawOfRuns, RemoveKeeps, SimplifyKeeps, JudgeKeeps};

use formulas::stands::{layout_stands, tables_stand};
use quotient::{quotient_stands, stack_stands};
use simplification::{settled_stands, truth_kept_stands};
use systems::pile::pile_stands;

// Whatever calls are made on a new claim, refused ones among them: its formula says of a system what the first formula
// says of the removed systems piled over it, every verdict is that truth, and the order of removals does not matter.
pub fn runs_stand()
    ensures { LawOfRuns }
{
    tables_stand();
    layout_stands();
    quotient_stands();
    stack_stands();
    pile_stands();
    truth_kept_stands();
    settled_stands();
}

// Each call keeps every book that is right about its claim.
pub(crate) fn books_stand()
    ensures remove { RemoveKeeps }
    ensures simplify { SimplifyKeeps }
    ensures judge { JudgeKeeps }
{
    tables_stand();
    layout_stands();
    quotient_stands();
    stack_stands();
    pile_stands();
    truth_kept_stands();
}

// The worked examples, computed by the definitions.
pub fn examples_stand()
    ensures { WorkedExamples }
{}
