// Whether an alternative holds of a move or point: a row gets the truths of the nodes that the alternatives reach.
ghost use Rattle.std.specs.Prelude.{◌≡◌, ℕ, ◌<◌, ◌≤◌, length, slice_index_or};
ghost use Rattle.std.specs.List.{AllByRecursion};
ghost use Rattle.formulas.specs.Lines.{entries, line};
ghost use Rattle.formulas.specs.Truths.{any, holds_of, of_node};
ghost use Rattle.claims.specs.Spots.{spot_of};
ghost use Rattle.claims.specs.Sums.{lit};
ghost use Rattle.claims.specs.Rows.{lit_row, Mark, marked, lowest, parts, no_node, Parted, Spread, Reached, Ready, Filling, Blank};
ghost use Rattle.claims.specs.Boards.{truths_in, Before};

use crate::board::Site;
use formulas::node::{DistNode, Node, Run};
use systems::system::System;

// In a row, a node whose truth is wanted. A byte and no enum, since the caller lends the row as a table of bytes.
const MARK: u8 = 2;

// Places of a row, from `low` up to before `high`.
#[derive(Clone, Copy)]
struct Span {
    low: usize,
    high: usize,
}

// Marks the nodes given, and says where they are.
fn mark(wanted: &[u32], upto: usize, row: &mut [u8]) -> Span
    requires before { AllByRecursion (λ d. d < upto) wanted.now }
    requires long { upto ≤ length row.old }
    ensures row { row.new ≡ marked row.old wanted.now }
    ensures around { AllByRecursion (λ d. (result.low ≤ d) × (d < result.high)) wanted.now }
    ensures ordered { result.low ≤ result.high }
    ensures top { result.high ≤ upto }
{
    // A loop and no chain: each step writes to the row and moves both ends.
    let mut low = upto;
    let mut high: usize = 0;
    for d in wanted {
        let place = *d as usize;
        row[place] = MARK;
        low = low.min(place);
        high = high.max(place + 1);
    }
    Span {
        low: low.min(high),
        high,
    }
}

// Marks the parts of a node, and says where the lowest mark is then.
fn mark_parts(node: Node, low: usize, row: &mut [u8]) -> usize
    requires { AllByRecursion (λ p. p < length row.old) (parts node) }
    ensures row { row.new ≡ marked row.old (parts node) }
    ensures low { result ≡ lowest low (parts node) }
{
    match node {
        Node::Dist(DistNode::And(i, j)) => {
            row[i as usize] = MARK;
            row[j as usize] = MARK;
            low.min(i as usize).min(j as usize)
        }
        Node::Dist(DistNode::Not(i)) => {
            row[i as usize] = MARK;
            low.min(i as usize)
        }
        _ => low,
    }
}

// Marks what the marked nodes are made of, from the highest down, and says where the lowest mark is.
fn spread(nodes: &[Node], span: Span, row: &mut [u8]) -> usize
    requires parted { Parted nodes.now }
    requires inside { span.high ≤ length nodes.now }
    requires long { span.high ≤ length row.old }
    ensures { Spread nodes.now result span.low result span.high row.old row.new }
{
    let mut low = span.low;
    let mut j = span.high;
    // No range: its lower end moves down with the marks.
    while low < j {
        j -= 1;
        if row[j] == MARK {
            low = mark_parts(nodes[j], low, row);
        }
    }
    low
}

// Marks the nodes given and all that they are made of, in a blank row, and says where the marks are.
fn reach(nodes: &[Node], wanted: &[u32], upto: usize, row: &mut [u8]) -> Span
    requires parted { Parted nodes.now }
    requires before { AllByRecursion (λ d. d < upto) wanted.now }
    requires nodes { upto ≤ length nodes.now }
    requires blank { Blank upto row.old }
    ensures { Reached nodes.now wanted.now upto result.low result.high row.old row.new }
{
    let marks = mark(wanted, upto, row);
    let low = spread(nodes, marks, row);
    Span {
        low,
        high: marks.high,
    }
}

// Whether some byte is 1.
fn some_lit(row: &[u8], wanted: &[u32]) -> bool
    requires { AllByRecursion (λ d. d < length row.now) wanted.now }
    ensures { result ≡ any (lit_row row.now) wanted.now }
{
    wanted.iter().any(|d| row[*d as usize] == 1)
}

impl<S: System> Site<'_, '_, S> {
    // Whether a node holds, its parts by the row. One of the state sort does not.
    fn holds(self, node: Node, row: &[u8]) -> bool
        requires { let b = self.board in Ready (S.meaning b.system.now) (length b.truths.bytes.now) (length row.now) b.tables.terms.now node }
        ensures { let b = self.entry.board in let M = S.meaning b.system.now in result ≡ holds_of M (lit b.truths.bytes.now M.states) (λ d _. lit_row row.now d) (line b.tables.terms.now b.tables.alternatives.now node) (spot_of M self.entry.spot) }
    {
        match node {
            Node::State(_) => false,
            Node::Dist(DistNode::Yes) => true,
            Node::Dist(DistNode::No) => false,
            Node::Dist(DistNode::And(i, j)) => row[i as usize] == 1 && row[j as usize] == 1,
            Node::Dist(DistNode::Not(i)) => row[i as usize] != 1,
            Node::Dist(DistNode::Sum { threshold, terms }) => self.sum_holds(threshold, terms),
        }
    }

    // Replaces the marks by the truths of their nodes, from the lowest up.
    fn fill(self, span: Span, row: &mut [u8])
        requires ordered { span.low ≤ span.high }
        requires top { span.high ≤ self.board.upto }
        requires long { span.high ≤ length row.old }
        requires bare { (k : ℕ) → k < span.low → Mark row.old k → ⊥ }
        requires closed { (k : ℕ) → k < span.high → Mark row.old k → AllByRecursion (Mark row.old) (parts (slice_index_or self.board.tables.nodes.now k no_node)) }
        ensures { let b = self.entry.board in let M = S.meaning b.system.now in Filling (truths_in M b.tables) (spot_of M self.entry.spot) span.low span.high row.old row.new }
    {
        let tables = self.board.tables;
        // By place, since the whole row is read while one place of it is written.
        for j in span.low..span.high {
            if row[j] == MARK {
                let holds = self.holds(tables.nodes[j], row);
                row[j] = u8::from(holds);
            }
        }
    }

    // Whether some alternative of the run holds of the move or point. The row is blank before and after.
    pub(crate) fn some_holds(self, run: Run, row: &mut [u8]) -> bool
        requires blank { Blank self.board.upto row.old }
        requires run { let b = self.board in Before b.tables b.upto run }
        ensures value { let b = self.entry.board in let M = S.meaning b.system.now in result ≡ any (λ d. of_node (truths_in M b.tables) d (spot_of M self.entry.spot)) (entries b.tables.alternatives.now run) }
        ensures row { row.new ≡ row.old }
    {
        let tables = self.board.tables;
        let wanted = run.entries(tables.alternatives);
        let span = reach(tables.nodes, wanted, self.board.upto, row);
        self.fill(span, row);
        let answer = some_lit(row, wanted);
        row[span.low..span.high].fill(0);
        answer
    }
}
