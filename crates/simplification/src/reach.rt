// The second pass over the tables: what the root reaches is ticked.
ghost use Rattle.std.specs.Prelude.{◌≡◌, ℕ, ◌<◌, [], ◌∷◌, ◌++◌, map, length, slice_index};
ghost use Rattle.std.specs.List.{AllByRecursion};
ghost use Rattle.formulas.specs.Lines.{entries, line};
ghost use Rattle.formulas.specs.Tables.{contents};
ghost use Rattle.simplification.specs.Simplify.{parts, reached};
ghost use Rattle.simplification.specs.Packed.{all_lines, Packed};
ghost use Rattle.simplification.specs.Moving.{FitStep, FitSum, Fit};
ghost use Rattle.simplification.specs.Reaching.{ticked, Ticks};

use crate::entry::Entry;
use formulas::node::{DistNode, Node, Run, StateNode, Term};
use formulas::tables::Tables;

// In the map, a node that is reached: a number and no enum, since the caller lends the map, and it has new numbers later.
pub(crate) const TICK: u32 = 1;

// Ticks the nodes that are wanted.
fn tick_all<T: Entry>(wanted: &[T], ticks: &mut [u32])
    requires { AllByRecursion (λ k. T.part k < length ticks.old) wanted.now }
    ensures { ticks.new ≡ ticked ticks.old (map (λ k. T.part k) wanted.now) }
{
    for entry in wanted {
        ticks[entry.part() as usize] = TICK;
    }
}

// Ticks the alternatives of a step.
fn tick_step(moves: Run, heres: Run, alternatives: &[u32], ticks: &mut [u32])
    requires { FitStep (λ d. d < length ticks.old) alternatives.now 0 moves heres }
    ensures { ticks.new ≡ ticked ticks.old (entries alternatives.now moves ++ entries alternatives.now heres) }
{
    tick_all(moves.entries(alternatives), ticks);
    tick_all(heres.entries(alternatives), ticks);
}

// Ticks the nodes of a sum.
fn tick_sum(run: Run, terms: &[Term], ticks: &mut [u32])
    requires { FitSum (λ d. d < length ticks.old) terms.now 0 run }
    ensures { ticks.new ≡ ticked ticks.old (map (λ k. k.node) (entries terms.now run)) }
{
    tick_all(run.entries(terms), ticks);
}

// Ticks the parts of a node.
fn tick_node(node: Node, tables: Tables, ticks: &mut [u32])
    requires { Fit (λ d. d < length ticks.old) tables.terms.now tables.alternatives.now 0 0 node }
    ensures { ticks.new ≡ ticked ticks.old (parts (line tables.entry.terms.now tables.entry.alternatives.now node)) }
{
    match node {
        Node::State(StateNode::And(a, b)) | Node::Dist(DistNode::And(a, b)) => {
            tick_all(&[a, b], ticks)
        }
        Node::State(StateNode::Not(a)) | Node::Dist(DistNode::Not(a)) => tick_all(&[a], ticks),
        Node::State(StateNode::Step { moves, heres, .. }) => {
            tick_step(moves, heres, tables.alternatives, ticks)
        }
        Node::Dist(DistNode::Sum { terms, .. }) => tick_sum(terms, tables.terms, ticks),
        _ => {}
    }
}

// Ticks what the root reaches: from the last node to the first, the parts of each that is ticked.
pub(crate) fn reach(root: u32, tables: Tables, ticks: &mut [u32])
    requires root { root < length ticks.old }
    requires long { length ticks.old ≡ length tables.nodes.now }
    requires blank { (j : ℕ) → slice_index ticks.old j ≡ 0 }
    requires packed { Packed (contents tables) }
    ensures { Ticks ticks.new (reached 0 (all_lines (contents tables.entry)) (root ∷ [])) }
{
    ticks[root as usize] = TICK;
    // The tick is looked up, since those before it are written meanwhile.
    for (i, node) in tables.nodes.iter().enumerate().rev() {
        if ticks[i] == TICK {
            tick_node(*node, tables, ticks);
        }
    }
}
