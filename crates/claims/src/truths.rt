// The truth table of a formula on a system: a byte for each node and state, node by node.
ghost use Rattle.std.specs.Prelude.{◌≡◌, ◌^◌, ◌<◌, ◌≤◌, length, if◌then◌else◌};
ghost use Rattle.claims.specs.Sums.{lit, RowAt, RowsAt, coefficients, coefficients_of};

use formulas::node::Term;

// The bytes of nodes in each of so many states, 1 where the node holds: bytes and no bools, since the caller lends them.
#[derive(Clone, Copy)]
pub(crate) struct Truths<'a> {
    pub bytes: &'a [u8],
    pub states: usize,
    ghost few: { states ≤ 2 ^ 30 },
}

impl Truths<'_> {
    // Whether node `i` holds in a state.
    pub(crate) fn holds(&self, i: u32, state: u32) -> bool
        requires room { RowAt self.now.states (length self.now.bytes.now) i }
        requires inside { state < self.now.states }
        ensures { result ≡ lit self.now.bytes.now self.now.states i state }
    {
        self.bytes[i as usize * self.states + state as usize] == 1
    }

    // The coefficient of a term, if its node holds in the state.
    fn coefficient_at(&self, term: Term, state: u32) -> u64
        requires room { RowAt self.now.states (length self.now.bytes.now) term.node }
        requires inside { state < self.now.states }
        ensures { result ≡ (if lit self.now.bytes.now self.now.states term.node state then term.coefficient else 0) }
    {
        if self.holds(term.node, state) {
            term.coefficient
        } else {
            0
        }
    }

    // The coefficients of the terms whose node holds in the state.
    pub(crate) fn coefficients_at(&self, terms: &[Term], state: u32) -> u64
        requires room { RowsAt self.now.states (length self.now.bytes.now) terms.now }
        requires inside { state < self.now.states }
        requires light { coefficients terms.now ≤ 1000000000000000000 }
        ensures { result ≡ coefficients_of (λ i. lit self.now.bytes.now self.now.states i state) terms.now }
    {
        terms.iter().map(|t| self.coefficient_at(*t, state)).sum()
    }
}
