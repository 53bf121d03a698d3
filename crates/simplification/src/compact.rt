// The third pass over the tables: the nodes that are ticked move to the front, with their terms and alternatives.
ghost use Rattle.std.specs.Prelude.{◌≡◌, ℕ, ◌+◌, ◌^◌, ◌<◌, ◌≤◌, true, length, ◌≢◌, slice_index, slice_index_or};
ghost use Rattle.std.specs.List.{AllByRecursion};
ghost use Rattle.formulas.specs.Lines.{step, sum, entries, line};
ghost use Rattle.formulas.specs.Layout.{fills};
ghost use Rattle.formulas.specs.Tables.{SameLoans, held, laid};
ghost use Rattle.formulas.specs.WellFormed.{line_at};
ghost use Rattle.simplification.specs.Simplify.{parts, renumber, rank};
ghost use Rattle.simplification.specs.Tables.{blank_node};
ghost use Rattle.simplification.specs.Packed.{all_lines, Packed};
ghost use Rattle.simplification.specs.Moving.{FitStep, FitSum, Fit, StateAt, DistAt, LaidAt};
ghost use Rattle.simplification.specs.Compacting.{new_number, is_ticked, KeptAt, GoneAt, compacted};

use crate::placed::{Ends, Placed, Step};
use crate::reach::TICK;
use crate::runs::move_run;
use formulas::node::{DistNode, Fills, Node, Run, StateNode, Term};
use formulas::tables::TablesMut;

// Moves the entries of a step.
fn move_step(
    of: Step,
    start: u32,
    alternatives: &mut [u32],
    numbers: &[u32],
) -> Placed<StateNode, u32>
    requires { FitStep (λ d. d < length numbers.now) alternatives.old start of.moves of.heres }
    ensures { StateAt (renumber (new_number numbers.now) (step of.action (entries alternatives.old of.moves) (entries alternatives.old of.heres))) start alternatives.old result.node result.end alternatives.new }
{
    let middle = move_run(alternatives, of.moves, start, |d| Some(numbers[d as usize]));
    let end = move_run(
        alternatives,
        of.heres,
        middle,
        |d| Some(numbers[d as usize]),
    );
    let node = StateNode::Step {
        action: of.action,
        moves: Run {
            first: start,
            ..of.moves
        },
        heres: Run {
            first: middle,
            ..of.heres
        },
    };
    Placed { node, end }
}

// Moves the terms of a sum.
fn move_sum(
    threshold: u64,
    run: Run,
    start: u32,
    terms: &mut [Term],
    numbers: &[u32],
) -> Placed<DistNode, u32>
    requires { FitSum (λ d. d < length numbers.now) terms.old start run }
    ensures { DistAt (renumber (new_number numbers.now) (sum threshold (entries terms.old run))) start terms.old result.node result.end terms.new }
{
    let end = move_run(terms, run, start, |t| {
        Some(Term {
            node: numbers[t.node as usize],
            ..t
        })
    });
    let node = DistNode::Sum {
        threshold,
        terms: Run {
            first: start,
            ..run
        },
    };
    Placed { node, end }
}

// Moves the entries of a node, and renumbers its parts. It takes slices: the node comes from the third table, which the
// caller writes. The arms of both sorts are written out: by `Plain` each would be a call and a wrapping, no shorter.
fn move_node(
    node: Node,
    start: Ends,
    terms: &mut [Term],
    alternatives: &mut [u32],
    numbers: &[u32],
) -> Placed<Node, Ends>
    requires { Fit (λ d. d < length numbers.now) terms.old alternatives.old start.term start.alternative node }
    ensures { LaidAt (renumber (new_number numbers.now) (line terms.old alternatives.old node)) start.term start.alternative terms.old alternatives.old result.node result.end.term result.end.alternative terms.new alternatives.new }
{
    let mut end = start;
    let node = match node {
        Node::State(StateNode::And(a, b)) => {
            Node::State(StateNode::And(numbers[a as usize], numbers[b as usize]))
        }
        Node::State(StateNode::Not(a)) => Node::State(StateNode::Not(numbers[a as usize])),
        Node::State(
            StateNode::Step {
                action,
                moves,
                heres,
            },
        ) => {
            let step = Step {
                action,
                moves,
                heres,
            };
            let moved = move_step(step, start.alternative, alternatives, numbers);
            end.alternative = moved.end;
            Node::State(moved.node)
        }
        Node::Dist(DistNode::And(a, b)) => {
            Node::Dist(DistNode::And(numbers[a as usize], numbers[b as usize]))
        }
        Node::Dist(DistNode::Not(a)) => Node::Dist(DistNode::Not(numbers[a as usize])),
        Node::Dist(
            DistNode::Sum {
                threshold,
                terms: run,
            },
        ) => {
            let moved = move_sum(threshold, run, start.term, terms, numbers);
            end.term = moved.end;
            Node::Dist(moved.node)
        }
        _ => node,
    };
    Placed { node, end }
}

// Moves node `i` to the end of what is used, if it is ticked, and notes its new number.
fn compact_at(i: usize, used: Fills, tables: &mut TablesMut, map: &mut [u32]) -> Fills
    requires node { i < length tables.old.nodes.now }
    requires map { i < length map.old }
    requires low { used.nodes ≤ i }
    requires few { i + 1 < 2 ^ 32 }
    requires fit { Fit (λ d. d < length map.old) tables.old.terms.now tables.old.alternatives.now used.terms used.alternatives (slice_index_or tables.old.nodes.now i blank_node) }
    ensures lent { SameLoans tables.old tables.new }
    ensures kept { slice_index map.old i ≡ 1 → KeptAt i used (held tables.old) map.old result (held tables.new) map.new }
    ensures gone { (slice_index map.old i ≢ 1) → GoneAt used (held tables.old) map.old result (held tables.new) map.new }
{
    if map[i] != TICK {
        return used;
    }
    let start = Ends {
        term: used.terms,
        alternative: used.alternatives,
    };
    let node = tables.nodes[i];
    let moved = move_node(node, start, tables.terms, tables.alternatives, map);
    tables.nodes[used.nodes as usize] = moved.node;
    map[i] = used.nodes;
    Fills {
        nodes: used.nodes + 1,
        terms: moved.end.term,
        alternatives: moved.end.alternative,
    }
}

// Moves all nodes that are ticked to the front, and says what is used then.
pub(crate) fn compact(tables: &mut TablesMut, map: &mut [u32]) -> Fills
    requires packed { Packed (held tables.old) }
    requires room { length tables.old.nodes.now ≤ length map.old }
    requires closed { (i : ℕ) → i < length tables.old.nodes.now → is_ticked map.old i ≡ true → AllByRecursion (λ j. is_ticked map.old j ≡ true) (parts (line_at (all_lines (held tables.old)) i)) }
    ensures lent { SameLoans tables.old tables.new }
    ensures tables { held tables.new ≡ laid (compacted (is_ticked map.old) (all_lines (held tables.old))) (held tables.old) }
    ensures used { result ≡ fills (compacted (is_ticked map.old) (all_lines (held tables.old))) }
    ensures numbers { (j : ℕ) → j < length tables.old.nodes.now → is_ticked map.old j ≡ true → slice_index map.new j ≡ rank (is_ticked map.old) j }
{
    let mut used = Fills {
        nodes: 0,
        terms: 0,
        alternatives: 0,
    };
    // By index: the table that is read is the one that is written.
    for i in 0..tables.nodes.len() {
        used = compact_at(i, used, tables, map);
    }
    used
}
