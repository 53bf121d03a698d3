// Where nodes and their entries come to stand.
use formulas::node::Run;

// A step: its action, and the runs of its alternatives. Quotient has one too: the crates do not know each other, and a
// node of formulas names the three itself.
#[derive(Clone, Copy)]
pub(crate) struct Step {
    pub action: u32,
    pub moves: Run,
    pub heres: Run,
}

// How far entries go in the tables of terms and alternatives.
#[derive(Clone, Copy)]
pub(crate) struct Ends {
    pub term: u32,
    pub alternative: u32,
}

// A node, and where its entries end: in the table of its sort, or in both.
#[derive(Clone, Copy)]
pub(crate) struct Placed<N, E> {
    pub node: N,
    pub end: E,
}
