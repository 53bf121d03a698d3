// Why a call on a formula in its tables is refused.
ghost use Rattle.std.specs.Prelude.{◌≡◌, Some};
ghost use Rattle.formulas.specs.Refusals.{number, meaning};

use std::error::Error;
use std::fmt;

// Each by its number.
#[derive(Clone, Copy, PartialEq, Debug)]
pub enum Refusal {
    // The tables hold no formula, or less than is used of them.
    NoFormula = 8,
    // The system has too many states, or is too broad.
    Large = 9,
    // The masses multiply to too much.
    Heavy = 10,
    // A table has too few places.
    Short = 11,
}

impl Refusal {
    pub fn number(&self) -> u8
        ensures { result ≡ number self.now }
    {
        *self as u8
    }
}

// What the refusal means. By hand, since what `thiserror` derives promises no text.
impl fmt::Display for Refusal {
    ghost output = { λ r. Some (meaning r) };

    fn fmt<W: fmt::Write>(&self, f: &mut fmt::Formatter<W>) -> fmt::Result {
        f.write_str(match self {
            Refusal::NoFormula => "the tables do not hold the formula",
            Refusal::Large => "the system has too many states or is too broad",
            Refusal::Heavy => "the product of the masses is above 10^15",
            Refusal::Short => "a table is too short for what has to be written",
        })
    }
}

impl Error for Refusal {}
