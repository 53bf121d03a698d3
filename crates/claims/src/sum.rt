// Whether a sum holds of a move or point, by the truth table.
ghost use Rattle.std.specs.Prelude.{◌≡◌, ◌*◌, ◌<◌, length, nat_le, slice_index_or};
ghost use Rattle.formulas.specs.Lines.{entries};
ghost use Rattle.formulas.specs.Truths.{total};
ghost use Rattle.claims.specs.Spots.{spot_of};
ghost use Rattle.claims.specs.Sums.{lit, coefficients_of, ReadyTerms, ReadySum, no_target};

use crate::board::Site;
use formulas::node::{Run, Term};
use systems::system::System;

impl<S: System> Site<'_, '_, S> {
    // What one target adds to the sum of the terms.
    fn share(self, terms: &[Term], index: u32) -> u64
        requires ready { let b = self.board in ReadyTerms (S.meaning b.system.now) (length b.truths.bytes.now) terms.now }
        requires inside { index < length (spot_of (S.meaning self.board.system.now) self.spot) }
        ensures { let b = self.entry.board in let M = S.meaning b.system.now in let t = slice_index_or (spot_of M self.entry.spot) index no_target in result ≡ t.weight * coefficients_of (λ i. lit b.truths.bytes.now M.states i t.state) terms.now }
    {
        self.spot.target(self.board.system, index).map_or(
            0,
            |t| t.weight * self.board.truths.coefficients_at(terms, t.state),
        )
    }

    // The sum of coefficient × weight over the terms: each target is asked for once.
    fn sum_terms(self, terms: &[Term]) -> u64
        requires { let b = self.board in ReadyTerms (S.meaning b.system.now) (length b.truths.bytes.now) terms.now }
        ensures { let b = self.entry.board in let M = S.meaning b.system.now in result ≡ total (lit b.truths.bytes.now M.states) terms.now (spot_of M self.entry.spot) }
    {
        (0..self.spot.targets(self.board.system))
            .map(|index| self.share(terms, index))
            .sum()
    }

    pub(crate) fn sum_holds(self, threshold: u64, run: Run) -> bool
        requires { let b = self.board in ReadySum (S.meaning b.system.now) (length b.truths.bytes.now) b.tables.terms.now threshold run }
        ensures { let b = self.entry.board in let M = S.meaning b.system.now in result ≡ nat_le (threshold * M.mass) (total (lit b.truths.bytes.now M.states) (entries b.tables.terms.now run) (spot_of M self.entry.spot)) }
    {
        let tables = self.board.tables;
        let terms = run.entries(tables.terms);
        threshold * self.board.system.mass() <= self.sum_terms(terms)
    }
}
