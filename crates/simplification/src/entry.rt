// The entries of runs.
ghost use Rattle.std.specs.Prelude.{◌≡◌, ℕ};

use formulas::node::Term;

// An entry of a run names a node.
pub(crate) trait Entry: Copy {
    ghost part: { Self → ℕ };

    fn part(self) -> u32
        ensures { result ≡ part self };
}

// An alternative.
impl Entry for u32 {
    ghost part = { λ d. d };

    fn part(self) -> u32 {
        self
    }
}

impl Entry for Term {
    ghost part = { λ k. k.node };

    fn part(self) -> u32 {
        self.node
    }
}
