// What a judgement says.
ghost use Rattle.std.specs.Prelude.{◌≡◌, Some};
ghost use Rattle.claims.specs.Verdicts.{verdict, word};

use std::fmt;

// Whether the formula of a claim holds of a system.
#[derive(Clone, Copy, PartialEq, Eq, Debug)]
pub enum Verdict {
    Yes,
    No,
}

impl Verdict {
    // No `From<bool>`: it would hold this same choice, and an `into()` would not say that a verdict is made.
    pub fn of(holds: bool) -> Verdict
        ensures { result ≡ verdict holds }
    {
        if holds { Verdict::Yes } else { Verdict::No }
    }
}

// By hand: it is no error, and no derive promises the text.
impl fmt::Display for Verdict {
    ghost output = { λ v. Some (word v) };

    fn fmt<W: fmt::Write>(&self, f: &mut fmt::Formatter<W>) -> fmt::Result {
        f.write_str(match self {
            Verdict::Yes => "yes",
            Verdict::No => "no",
        })
    }
}
