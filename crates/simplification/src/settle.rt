// The first pass over the tables: yes and no are worked into the nodes that use them.
ghost use Rattle.std.specs.Prelude.{◌≡◌, ◌-◌, ◌^◌, ◌<◌, ◌≤◌, not, Some, None, [], length, if◌then◌else◌, slice_index_or};
ghost use Rattle.std.specs.List.{AllByRecursion};
ghost use Rattle.formulas.specs.Lines.{step, sum, entries, line};
ghost use Rattle.formulas.specs.Tables.{slots, SameLoans, held, over, laid};
ghost use Rattle.simplification.specs.Simplify.{tone, tone_of, is_yes, is_no, is_neither, retarget, both_outcome, non_line, became, coefficients, has_yes, terms_left, yes_part};
ghost use Rattle.simplification.specs.Tables.{blank_node};
ghost use Rattle.simplification.specs.Packed.{all_lines, Packed};
ghost use Rattle.simplification.specs.Moving.{FitStep, FitSum, Fit, Bare, StateAt, DistAt, LaidAt};
ghost use Rattle.simplification.specs.Settling.{shade, glance_of, both_left, leaves, Led, LedBy, SettledAt, left_lines, left_numbers};

use crate::placed::{Ends, Placed, Step};
use crate::plain::Plain;
use crate::runs::move_run;
use formulas::node::{DistNode, Node, Run, StateNode, Term};
use formulas::tables::TablesMut;

// What a node is seen to be. No Option<bool>: the specs have a word for each of the three, and yes is no more present than no.
#[derive(Clone, Copy, PartialEq)]
pub(crate) enum Seen {
    Yes,
    No,
    Open,
}

fn see(node: Node) -> Seen
    ensures { shade result ≡ tone (line [] [] node) }
{
    match node {
        Node::State(StateNode::Yes) | Node::Dist(DistNode::Yes) => Seen::Yes,
        Node::State(StateNode::No) | Node::Dist(DistNode::No) => Seen::No,
        _ => Seen::Open,
    }
}

// The number of a node that is settled, and the nodes before it. The map leads from each to the node that stands for it.
#[derive(Clone, Copy)]
pub(crate) struct Before<'a> {
    pub number: u32,
    pub nodes: &'a [Node],
    pub map: &'a [u32],
}

impl Before<'_> {
    // What the node is seen to be that stands for a part.
    fn see(self, part: u32) -> Seen
        requires { LedBy self part }
        ensures { shade result ≡ tone_of (glance_of self.entry) part }
    {
        see(self.nodes[self.map[part as usize] as usize])
    }

    // What is left of an alternative: nothing of a no.
    fn alternative_left(self, d: u32) -> Option<u32>
        requires { LedBy self d }
        ensures { result ≡ (if not (is_no (tone_of (glance_of self.entry) d)) then Some (glance_of self.entry d).to else None) }
    {
        match self.see(d) {
            Seen::No => None,
            _ => Some(self.map[d as usize]),
        }
    }

    // What is left of a term: nothing of a yes or a no.
    fn term_left(self, t: Term) -> Option<Term>
        requires { LedBy self t.node }
        ensures { result ≡ (if is_neither (tone_of (glance_of self.entry) t.node) then Some (retarget (λ j. (glance_of self.entry j).to) t) else None) }
    {
        match self.see(t.node) {
            Seen::Open => Some(Term {
                node: self.map[t.node as usize],
                ..t
            }),
            _ => None,
        }
    }

    // Whether one of the alternatives is yes.
    fn some_yes(self, alternatives: &[u32]) -> bool
        requires { AllByRecursion (LedBy self) alternatives.now }
        ensures { result ≡ has_yes (glance_of self.entry) alternatives.now }
    {
        alternatives.iter().any(|d| self.see(*d) == Seen::Yes)
    }
}

// What a sum is left with: its threshold, and how far the coefficients of its terms fall short of that.
// Both only fall, so no sum of coefficients has to fit a number.
#[derive(Clone, Copy)]
pub(crate) struct Rest {
    pub threshold: u64,
    pub lack: u64,
}

// Works one term into what is left of a sum.
fn weigh_term(rest: Rest, coefficient: u64, seen: Seen) -> Rest
    ensures threshold { result.threshold ≡ rest.threshold - (if is_yes (shade seen) then coefficient else 0) }
    ensures lack { result.lack ≡ rest.lack - (if is_no (shade seen) then 0 else coefficient) }
{
    match seen {
        Seen::Yes => Rest {
            threshold: rest.threshold.saturating_sub(coefficient),
            lack: rest.lack.saturating_sub(coefficient),
        },
        Seen::No => rest,
        Seen::Open => Rest {
            lack: rest.lack.saturating_sub(coefficient),
            ..rest
        },
    }
}

// What a sum of these terms is left with: no terms go, and yes terms lower the threshold.
fn weigh(terms: &[Term], threshold: u64, before: Before) -> Rest
    requires { AllByRecursion (λ k. LedBy before k.node) terms.now }
    ensures threshold { result.threshold ≡ threshold - yes_part (glance_of before.entry) terms.now }
    ensures lack { result.lack ≡ result.threshold - coefficients (terms_left (glance_of before.entry) terms.now) }
{
    let mut rest = Rest {
        threshold,
        lack: threshold,
    };
    for t in terms {
        rest = weigh_term(rest, t.coefficient, before.see(t.node));
    }
    rest
}

// What becomes of a node: the number that its users take, and what stands at its place.
#[derive(Clone, Copy)]
pub(crate) struct Turn {
    pub to: u32,
    pub placed: Placed<Node, Ends>,
}

// What is left of a not, by what its part is.
fn settle_not<N: Plain>(a: u32, before: Before) -> N
    requires { LedBy before a }
    ensures { Bare (N.node result) (non_line N.sort (tone_of (glance_of before.entry) a) (glance_of before.entry a).to) }
{
    match before.see(a) {
        Seen::Yes => N::constant(false),
        Seen::No => N::constant(true),
        Seen::Open => N::not(before.map[a as usize]),
    }
}

// An and with one yes part stands for the other part: its users take the number of that, and nobody reads its own place.
fn settle_and<N: Plain>(a: u32, b: u32, before: Before) -> (u32, N)
    requires { LedBy before a × LedBy before b }
    ensures to { result.0 ≡ (both_outcome before.entry.number N.sort (tone_of (glance_of before.entry) a) (tone_of (glance_of before.entry) b) (glance_of before.entry a) (glance_of before.entry b)).to }
    ensures left { Bare (N.node result.1) (both_left N.sort (tone_of (glance_of before.entry) a) (tone_of (glance_of before.entry) b) (glance_of before.entry a).to (glance_of before.entry b).to) }
{
    let (left, right) = (before.map[a as usize], before.map[b as usize]);
    match (before.see(a), before.see(b)) {
        (Seen::No, _) | (_, Seen::No) => (before.number, N::constant(false)),
        (Seen::Yes, Seen::Yes) => (before.number, N::constant(true)),
        (Seen::Yes, Seen::Open) => (right, N::constant(true)),
        (Seen::Open, Seen::Yes) => (left, N::constant(true)),
        (Seen::Open, Seen::Open) => (before.number, N::and(left, right)),
    }
}

// A step is yes with a yes for here, and no with nothing left. A yes for moves decides nothing: there may be no move.
fn settle_step(
    of: Step,
    start: u32,
    before: Before,
    alternatives: &mut [u32],
) -> Placed<StateNode, u32>
    requires { FitStep (LedBy before) alternatives.old start of.moves of.heres }
    ensures { StateAt (leaves (glance_of before.entry) (step of.action (entries alternatives.old of.moves) (entries alternatives.old of.heres))) start alternatives.old result.node result.end alternatives.new }
{
    if before.some_yes(of.heres.entries(alternatives)) {
        return Placed {
            node: StateNode::Yes,
            end: start,
        };
    }
    let middle = move_run(
        alternatives,
        of.moves,
        start,
        |d| before.alternative_left(d),
    );
    let end = move_run(
        alternatives,
        of.heres,
        middle,
        |d| before.alternative_left(d),
    );
    if end == start {
        return Placed {
            node: StateNode::No,
            end,
        };
    }
    let node = StateNode::Step {
        action: of.action,
        moves: Run {
            first: start,
            count: middle - start,
        },
        heres: Run {
            first: middle,
            count: end - middle,
        },
    };
    Placed { node, end }
}

// A sum is yes with threshold 0, and no if its terms fall short.
fn settle_sum(
    threshold: u64,
    run: Run,
    start: u32,
    before: Before,
    terms: &mut [Term],
) -> Placed<DistNode, u32>
    requires { FitSum (LedBy before) terms.old start run }
    ensures { DistAt (leaves (glance_of before.entry) (sum threshold (entries terms.old run))) start terms.old result.node result.end terms.new }
{
    let rest = weigh(run.entries(terms), threshold, before);
    if rest.threshold == 0 {
        return Placed {
            node: DistNode::Yes,
            end: start,
        };
    }
    if rest.lack > 0 {
        return Placed {
            node: DistNode::No,
            end: start,
        };
    }
    let end = move_run(terms, run, start, |t| before.term_left(t));
    let node = DistNode::Sum {
        threshold: rest.threshold,
        terms: Run {
            first: start,
            count: end - start,
        },
    };
    Placed { node, end }
}

// What becomes of a node. The tables of entries are apart from that of nodes, which is read while they are written.
fn settle_node(
    node: Node,
    start: Ends,
    before: Before,
    terms: &mut [Term],
    alternatives: &mut [u32],
) -> Turn
    requires { Fit (LedBy before) terms.old alternatives.old start.term start.alternative node }
    ensures to { result.to ≡ (became before.entry.number (glance_of before.entry) (line terms.old alternatives.old node)).to }
    ensures laid { LaidAt (leaves (glance_of before.entry) (line terms.old alternatives.old node)) start.term start.alternative terms.old alternatives.old result.placed.node result.placed.end.term result.placed.end.alternative terms.new alternatives.new }
{
    let mut end = start;
    let (to, node) = match node {
        Node::State(StateNode::Not(a)) => (before.number, Node::State(settle_not(a, before))),
        Node::State(StateNode::And(a, b)) => {
            let (to, left) = settle_and(a, b, before);
            (to, Node::State(left))
        }
        Node::State(
            StateNode::Step {
                action,
                moves,
                heres,
            },
        ) => {
            let step = Step {
                action,
                moves,
                heres,
            };
            let placed = settle_step(step, start.alternative, before, alternatives);
            end.alternative = placed.end;
            (before.number, Node::State(placed.node))
        }
        Node::Dist(DistNode::Not(a)) => (before.number, Node::Dist(settle_not(a, before))),
        Node::Dist(DistNode::And(a, b)) => {
            let (to, left) = settle_and(a, b, before);
            (to, Node::Dist(left))
        }
        Node::Dist(
            DistNode::Sum {
                threshold,
                terms: run,
            },
        ) => {
            let placed = settle_sum(threshold, run, start.term, before, terms);
            end.term = placed.end;
            (before.number, Node::Dist(placed.node))
        }
        _ => (before.number, node),
    };
    Turn {
        to,
        placed: Placed { node, end },
    }
}

// Settles node `i`: what is left of its entries goes to where those of the nodes before it end.
// It takes slices: tried with one struct, and the borrow checker covers no field that is read while another is lent.
fn settle_at(
    i: usize,
    ends: Ends,
    nodes: &mut [Node],
    terms: &mut [Term],
    alternatives: &mut [u32],
    map: &mut [u32],
) -> Ends
    requires node { i < length nodes.old }
    requires map { i < length map.old }
    requires few { i < 2 ^ 32 }
    requires fit { Fit (Led nodes.old map.old) terms.old alternatives.old ends.term ends.alternative (slice_index_or nodes.old i blank_node) }
    ensures { SettledAt i ends.term ends.alternative (slots nodes.old terms.old alternatives.old) map.old result.term result.alternative (slots nodes.new terms.new alternatives.new) map.new }
{
    let before = Before {
        number: i as u32,
        nodes,
        map,
    };
    let Turn { to, placed } = settle_node(nodes[i], ends, before, terms, alternatives);
    map[i] = to;
    nodes[i] = placed.node;
    placed.end
}

// Settles all nodes, each after its parts.
pub(crate) fn settle(tables: &mut TablesMut, map: &mut [u32])
    requires packed { Packed (held tables.old) }
    requires room { length tables.old.nodes.now ≤ length map.old }
    ensures lent { SameLoans tables.old tables.new }
    ensures tables { held tables.new ≡ laid (left_lines (all_lines (held tables.old))) (held tables.old) }
    ensures map { map.new ≡ over (left_numbers (all_lines (held tables.old))) map.old }
{
    let mut ends = Ends {
        term: 0,
        alternative: 0,
    };
    // By index: each node that is read is written.
    for i in 0..tables.nodes.len() {
        ends = settle_at(
            i,
            ends,
            tables.nodes,
            tables.terms,
            tables.alternatives,
            map,
        );
    }
}
