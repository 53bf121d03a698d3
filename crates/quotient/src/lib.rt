// Quotients: what a formula says of a system over others, said of the others alone.
#![tactic(auto)]

pub mod divide;
mod need;
mod plan;
mod write;

ghost use Rattle.quotient.specs.Theorems.{QuotientLaw, QuotientAt, BoundsLaw, OrderLaw, ShapeLaw};

use formulas::stands::course_stands;

// Removing a system from the top of a pile: the whole formula, line by line, and the bounds of its sums.
pub fn quotient_stands()
    ensures whole { QuotientLaw }
    ensures lines { QuotientAt }
    ensures bounds { BoundsLaw }
{
    course_stands();
}

// Stacks: their order does not matter, for systems that are in shape, as those that keep the rules are.
pub fn stack_stands()
    ensures order { OrderLaw }
    ensures shape { ShapeLaw }
{
    course_stands();
}
