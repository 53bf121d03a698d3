// Whether tables hold a formula.
ghost use Rattle.std.specs.Prelude.{◌≡◌, ◌*◌, ◌≤◌, true, ◌&&◌, length, take, nat_le};
ghost use Rattle.formulas.specs.Laws.{TruthLaw, CourseLaw, FormedLaw, InLaw, OfLaw, LayoutLaw, LinesLaw, HeldLaw, LaidLaw};
ghost use Rattle.formulas.specs.Right.{AllRight};
ghost use Rattle.formulas.specs.Stands.{is_state_node, is_dist_node, below_state, below_dist, run_ok, all_dist, term_ok, terms_ok, step_ok, sum_ok, node_ok, terms_of, alternatives_of, stands, formula_in};

use crate::node::{DistNode, Fills, Node, Run, StateNode, Term};
use crate::tables::{Standing, Tables, front};

const LAST_ACTION: u32 = 31;

// One function for each sort, here and in a place: the specification has a word for each, and a sort as a parameter is no plainer.
fn is_state(nodes: &[Node], i: u32) -> bool
    ensures { result ≡ is_state_node nodes.now i }
{
    matches!(nodes.get(i as usize), Some(Node::State(_)))
}

fn is_dist(nodes: &[Node], i: u32) -> bool
    ensures { result ≡ is_dist_node nodes.now i }
{
    matches!(nodes.get(i as usize), Some(Node::Dist(_)))
}

// A run starts at the first free place of its table and ends within the table.
fn run_stands(len: usize, free: usize, run: Run) -> bool
    requires { free ≤ len }
    ensures { result ≡ run_ok len free run }
{
    run.first as usize == free && run.count as usize <= len - free
}

// The place of node `i` in its tables, `mass` having been removed: so many terms and alternatives belong to the nodes before it.
#[derive(Clone, Copy)]
struct Place<'a> {
    tables: Tables<'a>,
    mass: u64,
    i: usize,
    terms: usize,
    alternatives: usize,
    ghost within: { (terms ≤ length tables.terms.now) × (alternatives ≤ length tables.alternatives.now) },
}

impl Place<'_> {
    // A part of the node: it comes before the node.
    fn below_state(&self, j: u32) -> bool
        ensures { result ≡ below_state self.now.tables.nodes.now self.now.i j }
    {
        (j as usize) < self.i && is_state(self.tables.nodes, j)
    }

    fn below_dist(&self, j: u32) -> bool
        ensures { result ≡ below_dist self.now.tables.nodes.now self.now.i j }
    {
        (j as usize) < self.i && is_dist(self.tables.nodes, j)
    }

    fn all_dist(&self, parts: &[u32]) -> bool
        ensures { result ≡ all_dist self.now.tables.nodes.now self.now.i parts.now }
    {
        parts.iter().all(|j| self.below_dist(*j))
    }

    fn term(&self, left: u128, term: Term) -> bool
        ensures { result ≡ term_ok self.now.tables.nodes.now self.now.i left term }
    {
        1 <= term.coefficient && term.coefficient as u128 <= left && self.below_state(term.node)
    }

    fn all_terms(&self, parts: &[Term]) -> bool
        ensures { result ≡ terms_ok self.now.tables.nodes.now self.now.i (1000 * self.now.mass) parts.now }
    {
        // A loop and no chain: what is left falls from term to term.
        let mut left = self.limit();
        for t in parts {
            if !self.term(left, *t) {
                return false;
            }
            left -= t.coefficient as u128;
        }
        true
    }

    // What the coefficients of a sum add up to at most, and its threshold is at most.
    fn limit(&self) -> u128
        ensures { result ≡ 1000 * self.now.mass }
    {
        1000 * self.mass as u128
    }

    fn step(&self, moves: Run, heres: Run) -> bool
        ensures { result ≡ step_ok self.now.tables.nodes.now self.now.tables.alternatives.now self.now.i self.now.alternatives moves heres }
    {
        let alternatives = self.tables.alternatives;
        let free = self.alternatives;
        if !run_stands(alternatives.len(), free, moves) {
            return false;
        }
        let middle = free + moves.count as usize;
        run_stands(alternatives.len(), middle, heres)
            && self.all_dist(&alternatives[free..middle + heres.count as usize])
    }

    fn sum(&self, run: Run) -> bool
        ensures { result ≡ sum_ok self.now.tables.nodes.now self.now.tables.terms.now self.now.mass self.now.i self.now.terms run }
    {
        let free = self.terms;
        run_stands(self.tables.terms.len(), free, run)
            && self.all_terms(&self.tables.terms[free..free + run.count as usize])
    }

    fn node(&self, node: Node) -> bool
        ensures { result ≡ node_ok self.now.tables.nodes.now self.now.tables.terms.now self.now.tables.alternatives.now self.now.mass self.now.i self.now.terms self.now.alternatives node }
    {
        match node {
            Node::State(StateNode::Yes | StateNode::No) => true,
            Node::State(StateNode::And(j, k)) => self.below_state(j) && self.below_state(k),
            Node::State(StateNode::Not(j)) => self.below_state(j),
            Node::State(
                StateNode::Step {
                    action,
                    moves,
                    heres,
                },
            ) => action <= LAST_ACTION && self.step(moves, heres),
            Node::Dist(DistNode::Yes | DistNode::No) => true,
            Node::Dist(DistNode::And(j, k)) => self.below_dist(j) && self.below_dist(k),
            Node::Dist(DistNode::Not(j)) => self.below_dist(j),
            Node::Dist(DistNode::Sum { threshold, terms }) => {
                threshold as u128 <= self.limit() && self.sum(terms)
            }
        }
    }
}

fn term_count(node: Node) -> usize
    ensures { result ≡ terms_of node }
{
    match node {
        Node::Dist(DistNode::Sum { terms, .. }) => terms.count as usize,
        _ => 0,
    }
}

fn alternative_count(node: Node) -> usize
    ensures { result ≡ alternatives_of node }
{
    match node {
        Node::State(StateNode::Step { moves, heres, .. }) => moves.count as usize
            + heres.count as usize,
        _ => 0,
    }
}

// Whether the formula that fills its tables is one with the root `root`, `mass` having been removed.
pub fn formula_stands(tables: Tables, root: u32, mass: u64) -> bool
    ensures value { result ≡ stands tables.entry.nodes.now tables.entry.terms.now tables.entry.alternatives.now root mass }
    ensures right { result ≡ true → AllRight tables.entry.nodes.now tables.entry.terms.now tables.entry.alternatives.now mass }
{
    let mut terms = 0;
    let mut alternatives = 0;
    for (i, node) in tables.nodes.iter().enumerate() {
        let place = Place {
            tables,
            mass,
            i,
            terms,
            alternatives,
        };
        if !place.node(*node) {
            return false;
        }
        terms += term_count(*node);
        alternatives += alternative_count(*node);
    }
    terms == tables.terms.len()
        && alternatives == tables.alternatives.len()
        && is_state(tables.nodes, root)
}

fn fills_fit(fills: Fills, tables: Tables) -> bool
    ensures { result ≡ (nat_le fills.nodes (length tables.entry.nodes.now) && (nat_le fills.terms (length tables.entry.terms.now) && nat_le fills.alternatives (length tables.entry.alternatives.now))) }
{
    fills.nodes as usize <= tables.nodes.len()
        && fills.terms as usize <= tables.terms.len()
        && fills.alternatives as usize <= tables.alternatives.len()
}

// Whether the used part of each table is there and together they hold a formula.
pub fn formula_in(standing: Standing, mass: u64, tables: Tables) -> bool
    ensures value { result ≡ formula_in standing.fills standing.root mass tables.entry.nodes.now tables.entry.terms.now tables.entry.alternatives.now }
    ensures right { result ≡ true → AllRight (take standing.fills.nodes tables.entry.nodes.now) (take standing.fills.terms tables.entry.terms.now) (take standing.fills.alternatives tables.entry.alternatives.now) mass }
{
    fills_fit(standing.fills, tables)
        && formula_stands(front(standing.fills, tables), standing.root, mass)
}

// The law of truth.
pub fn truth_stands()
    ensures { TruthLaw }
{}

// The law of truth on lines alone.
pub fn course_stands()
    ensures { CourseLaw }
{}

// The laws of satisfaction: a line holds where it is satisfied, by its kind.
pub fn satisfaction_stands()
    ensures formed { FormedLaw }
    ensures states { InLaw }
    ensures moves { OfLaw }
{}

// The laws of layout: tables that hold a formula and their lines determine each other.
pub fn layout_stands()
    ensures tables { LayoutLaw }
    ensures lines { LinesLaw }
{}

// Tables that hold a formula have a well-formed one within its bounds, and the tables of such a formula hold it.
pub fn tables_stand()
    ensures held { HeldLaw }
    ensures laid { LaidLaw }
{}
