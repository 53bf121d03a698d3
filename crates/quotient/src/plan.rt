// Where the lines of a quotient go: the rows of a system, and the places of the lines that each node gives.
ghost use Rattle.std.specs.Prelude.{◌≡◌, ◌+◌, ◌*◌, ◌<◌, ◌≤◌, length, sum_by};
ghost use Rattle.std.specs.List.{range_with_len};
ghost use Rattle.quotient.specs.Quotient.{rows as all_rows, move_rows};
ghost use Rattle.quotient.specs.Plans.{Numbered, node_width, width_before, Sampled, Firsts, plan_nodes, place_in, Planned};

use formulas::node::{Node, Run};
use formulas::tables::Tables;
use systems::actions::{ACTIONS, ActionSet};
use systems::system::System;

// The number of lines is kept for every 32nd node.
const BLOCK: usize = 32;

// A formula in its tables, the numbers of a system, and places in the quotient.
#[derive(Clone, Copy)]
pub(crate) struct Plan<'a> {
    pub tables: Tables<'a>,
    pub shared: ActionSet,
    pub states: u32,
    pub rows: u32,
    pub mass: u64,
    // How many lines come before those of every 32nd node.
    pub offsets: &'a [u64],
    // The row of the first move of each state on each action.
    pub firsts: &'a [u32],
}

// A system, and the plan of a quotient by it.
#[derive(Drop)]
pub(crate) struct Division<'a, S: System> {
    pub system: &'a S,
    pub plan: Plan<'a>,
    ghost planned: { Planned (S.meaning system.now) plan },
}

// Fills in the row of the first move of each state on each action, and answers the number of all rows.
pub(crate) fn fill_firsts<S: System>(system: &S, firsts: &mut [u32]) -> u32
    requires few { (S.meaning system.now).states ≤ 4096 }
    requires narrow { (S.meaning system.now).breadth ≤ 4096 }
    requires long { (S.meaning system.now).states * 32 ≤ length firsts.old }
    ensures rows { result ≡ length (all_rows (S.meaning system.now)) }
    ensures small { Numbered result }
    ensures firsts { Firsts (S.meaning system.now) firsts.new ((S.meaning system.now).states * 32) }
{
    let n = system.states();
    let mut next = n;
    for (i, first) in firsts[..(n * ACTIONS) as usize].iter_mut().enumerate() {
        *first = next;
        next += system.moves(i as u32 / ACTIONS, i as u32 % ACTIONS);
    }
    next
}

// How many lines a node gives. States and rows come as two numbers: a plan is not made before they are used.
pub(crate) fn width(node: Node, states: u32, rows: u32) -> u32
    ensures { result ≡ node_width states rows node }
{
    match node {
        Node::State(_) => states,
        Node::Dist(_) => rows,
    }
}

// How many lines nodes give.
fn lines(nodes: &[Node], states: u32, rows: u32) -> u64
    requires few { length nodes.now ≤ 1048576 }
    requires states { Numbered states }
    requires rows { Numbered rows }
    ensures { result ≡ sum_by (node_width states rows) nodes.now }
{
    nodes
        .iter()
        .map(|node| width(*node, states, rows) as u64)
        .sum::<u64>()
}

// Fills in the number of lines before every 32nd node, and answers the number of all lines.
pub(crate) fn fill_offsets(nodes: &[Node], states: u32, rows: u32, offsets: &mut [u64]) -> u64
    requires few { length nodes.now ≤ 1048576 }
    requires states { Numbered states }
    requires rows { Numbered rows }
    requires room { length nodes.now ≤ length offsets.old * 32 }
    ensures total { result ≡ width_before states rows nodes.now (length nodes.now) }
    ensures offsets { Sampled states rows nodes.now offsets.new (length nodes.now) }
{
    let mut total: u64 = 0;
    // The offset goes by the number of its block: a `zip` is no shorter, and its facts are of two iterators.
    for (block, nodes) in nodes.chunks(BLOCK).enumerate() {
        offsets[block] = total;
        total += lines(nodes, states, rows);
    }
    total
}

impl<'a, S: System> Division<'a, S> {
    // The rows of the moves of a state on an action; on no action past the last is there a move.
    pub(crate) fn rows_of(&self, state: u32, action: u32) -> Run
        requires inside { state < (S.meaning self.now.system.now).states }
        ensures rows { range_with_len result.first result.count ≡ move_rows (S.meaning self.now.system.now) state action }
        ensures small { Numbered (result.first + result.count) }
    {
        let count = self.system.moves(state, action);
        let first = if action < ACTIONS {
            self.plan.firsts[state as usize * ACTIONS as usize + action as usize]
        } else {
            0
        };
        Run { first, count }
    }

    // How many lines come before those of node `d`.
    pub(crate) fn offset(&self, d: u32) -> u64
        requires inside { d < length (plan_nodes self.now.plan) }
        ensures value { result ≡ width_before self.now.plan.states self.now.plan.rows (plan_nodes self.now.plan) d }
        ensures small { result ≤ 1048576 }
    {
        let plan = self.plan;
        let end = d as usize;
        let block = end / BLOCK;
        let rest = &plan.tables.nodes[block * BLOCK..end];
        plan.offsets[block] + lines(rest, plan.states, plan.rows)
    }

    // The number of the line that node `d` gives at the state or row `p`.
    pub(crate) fn place(&self, d: u32, p: u32) -> u32
        requires inside { d < length (plan_nodes self.now.plan) }
        requires small { Numbered p }
        ensures { result ≡ place_in self.now.plan d p }
    {
        (self.offset(d) + p as u64) as u32
    }
}
