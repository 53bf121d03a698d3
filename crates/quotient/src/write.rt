// The lines of a quotient, as they are written to the second tables.
ghost use Rattle.std.specs.Prelude.{◌≡◌, ℕ, ◌+◌, ◌<◌, ◌≤◌, true, ◌++◌, map, length, if◌then◌else◌, slice_index_or, []};
ghost use Rattle.std.specs.List.{range_with_len, flat_map, AllByRecursion};
ghost use Rattle.systems.specs.Meaning.{point};
ghost use Rattle.systems.specs.Piles.{cross};
ghost use Rattle.formulas.specs.Append.{table};
ghost use Rattle.formulas.specs.Layout.{fills};
ghost use Rattle.formulas.specs.Stores.{store};
ghost use Rattle.formulas.specs.Tables.{held, SameLoans, fits, laid};
ghost use Rattle.quotient.specs.Layings.{extended, filled, SameSlots, SameTables, lay, lay_all};
ghost use Rattle.quotient.specs.Plans.{Numbered, plan_nodes, place_in, AllInside, Fit, AllFit, LightTerm, LightTarget, plan_quotient, moved, Plain, node_width, node_line, node_lines, term_at, sum_at, step_node, sum_node};
ghost use Rattle.quotient.specs.Quotient.{moves_of};

use crate::plan::{Division, width};
use formulas::append::AppendList;
use formulas::node::{DistNode, Node, Run, StateNode, Term};
use formulas::tables::TablesMut;
use systems::actions::ACTIONS;
use systems::system::{System, Target};

// The greatest breadth of a system that can be removed: no move has more targets.
const MOST_TARGETS: usize = 4096;
// What the buffer of targets has where none is read. An array and no `ArrayVec`: the part that is read goes on as a slice,
// so no length is kept beside it.
const NO_TARGET: Target = Target {
    state: 0,
    weight: 0,
};

// A step of a formula: its action, and the runs of its alternatives. Simplification has one too: the crates do not know
// each other, and a node of formulas names the three itself.
#[derive(Clone, Copy)]
pub(crate) struct Step {
    action: u32,
    moves: Run,
    heres: Run,
}

// How a system can go along with a step: the state it is in, whether it shares the action, and the rows of its moves on it.
#[derive(Clone, Copy)]
pub(crate) struct Ways {
    state: u32,
    shared: bool,
    rows: Run,
}

// A sum of a formula: its threshold, and the run of its terms.
#[derive(Clone, Copy)]
pub(crate) struct Sum {
    threshold: u64,
    terms: Run,
}

// The three tables that a quotient is written to, as they fill. They are lent, each at a lifetime of its own: once
// a struct is let go, nothing is known of the slices that lie in a struct in it, nor of three lists at one lifetime.
#[derive(Drop)]
pub(crate) struct Lists<'i, 'j, 'k, 'n, 't, 'a> {
    nodes: &'i mut AppendList<'n, Node>,
    terms: &'j mut AppendList<'t, Term>,
    alternatives: &'k mut AppendList<'a, u32>,
}

impl<'a, S: System> Division<'a, S> {
    // Appends the lines of the parts at the state or row `p`.
    fn put_places(&self, parts: &[u32], p: u32, out: &mut AppendList<u32>)
        requires inside { AllInside self.now.plan parts.now }
        requires small { Numbered p }
        ensures same { SameSlots out.old out.new }
        ensures wrote { table out.new ≡ extended (table out.old) (map (λ d. place_in self.now.plan d p) parts.now) }
    {
        for d in parts {
            out.put(self.place(*d, p));
        }
    }

    // Appends the lines of the part `d` at a run of rows.
    fn put_rows(&self, d: u32, rows: Run, out: &mut AppendList<u32>)
        requires inside { d < length (plan_nodes self.now.plan) }
        requires small { Numbered (rows.first + rows.count) }
        ensures same { SameSlots out.old out.new }
        ensures wrote { table out.new ≡ extended (table out.old) (map (place_in self.now.plan d) (range_with_len rows.first rows.count)) }
    {
        let before = self.offset(d);
        for row in rows.first..rows.first + rows.count {
            out.put((before + row as u64) as u32);
        }
    }

    // Appends the lines of the parts at a run of rows.
    fn put_crossed(&self, parts: &[u32], rows: Run, out: &mut AppendList<u32>)
        requires inside { AllInside self.now.plan parts.now }
        requires small { Numbered (rows.first + rows.count) }
        ensures same { SameSlots out.old out.new }
        ensures wrote { table out.new ≡ extended (table out.old) (cross (place_in self.now.plan) parts.now (range_with_len rows.first rows.count)) }
    {
        for d in parts {
            self.put_rows(*d, rows, out);
        }
    }

    // Appends the move alternatives of a step: on a shared action at the moves, else at the point.
    fn put_move_parts(&self, parts: &[u32], ways: Ways, out: &mut AppendList<u32>)
        requires inside { AllInside self.now.plan parts.now }
        requires point { Numbered ways.state }
        requires small { Numbered (ways.rows.first + ways.rows.count) }
        ensures same { SameSlots out.old out.new }
        ensures wrote { table out.new ≡ extended (table out.old) (if ways.shared then cross (place_in self.now.plan) parts.now (range_with_len ways.rows.first ways.rows.count) else map (λ d. place_in self.now.plan d ways.state) parts.now) }
    {
        if ways.shared {
            self.put_crossed(parts, ways.rows, out);
        } else {
            self.put_places(parts, ways.state, out);
        }
    }

    // Appends the here alternatives: on an action that is not shared, the old move alternatives at the moves come first.
    fn put_here_parts(&self, parts: &[u32], heres: &[u32], ways: Ways, out: &mut AppendList<u32>)
        requires inside { AllInside self.now.plan parts.now }
        requires heres { AllInside self.now.plan heres.now }
        requires point { Numbered ways.state }
        requires small { Numbered (ways.rows.first + ways.rows.count) }
        ensures same { SameSlots out.old out.new }
        ensures wrote { table out.new ≡ extended (table out.old) (if ways.shared then map (λ d. place_in self.now.plan d ways.state) heres.now else cross (place_in self.now.plan) parts.now (range_with_len ways.rows.first ways.rows.count) ++ map (λ d. place_in self.now.plan d ways.state) heres.now) }
    {
        if !ways.shared {
            self.put_crossed(parts, ways.rows, out);
        }
        self.put_places(heres, ways.state, out);
    }

    // Writes the line of a step in the state `p`.
    fn put_step(&self, step: Step, p: u32, out: &mut Lists)
        requires inside { p < (S.meaning self.now.system.now).states }
        requires fit { Fit self.now.plan (step_node step) }
        ensures same { SameTables out.old out.new }
        ensures wrote { filled out.new ≡ lay (filled out.old) (node_line (S.meaning self.now.system.now) self.now.plan (step_node step) p) }
    {
        let alternatives = self.plan.tables.alternatives;
        let ways = Ways {
            state: p,
            shared: self.plan.shared.contains(step.action),
            rows: self.rows_of(p, step.action),
        };
        let parts = step.moves.entries(alternatives);
        let here_parts = step.heres.entries(alternatives);
        let first = out.alternatives.fill;
        self.put_move_parts(parts, ways, out.alternatives);
        let middle = out.alternatives.fill;
        self.put_here_parts(parts, here_parts, ways, out.alternatives);
        let end = out.alternatives.fill;
        let moves = Run {
            first,
            count: middle - first,
        };
        let heres = Run {
            first: middle,
            count: end - middle,
        };
        out.nodes.put(Node::State(StateNode::Step {
            action: step.action,
            moves,
            heres,
        }));
    }

    // Writes the lines of a step in each state.
    fn put_steps(&self, step: Step, out: &mut Lists)
        requires fit { Fit self.now.plan (step_node step) }
        ensures same { SameTables out.old out.new }
        ensures wrote { filled out.new ≡ lay_all (filled out.old) (node_lines (S.meaning self.now.system.now) self.now.plan (step_node step)) }
    {
        for p in 0..self.plan.states {
            self.put_step(step, p, out);
        }
    }

    // Appends the terms that a term gives: one for each target.
    fn put_targets(&self, targets: &[Target], term: Term, out: &mut AppendList<Term>)
        requires targets { AllByRecursion (LightTarget self.now.plan) targets.now }
        requires term { LightTerm self.now.plan term }
        ensures same { SameSlots out.old out.new }
        ensures wrote { table out.new ≡ extended (table out.old) (map (term_at self.now.plan term) targets.now) }
    {
        let before = self.offset(term.node);
        for t in targets {
            out.put(Term {
                coefficient: term.coefficient * t.weight,
                node: (before + t.state as u64) as u32,
            });
        }
    }

    // Appends the terms that the terms of a sum give.
    fn put_terms(&self, targets: &[Target], parts: &[Term], out: &mut AppendList<Term>)
        requires targets { AllByRecursion (LightTarget self.now.plan) targets.now }
        requires terms { AllByRecursion (LightTerm self.now.plan) parts.now }
        ensures same { SameSlots out.old out.new }
        ensures wrote { table out.new ≡ extended (table out.old) (cross (term_at self.now.plan) parts.now targets.now) }
    {
        for t in parts {
            self.put_targets(targets, *t, out);
        }
    }

    // Writes the line of a sum at a move or point of these targets.
    fn put_sum(&self, sum: Sum, targets: &[Target], out: &mut Lists)
        requires targets { AllByRecursion (LightTarget self.now.plan) targets.now }
        requires fit { Fit self.now.plan (sum_node sum) }
        ensures same { SameTables out.old out.new }
        ensures wrote { filled out.new ≡ lay (filled out.old) (sum_at self.now.plan sum targets.now) }
    {
        let first = out.terms.fill;
        let parts = sum.terms.entries(self.plan.tables.terms);
        self.put_terms(targets, parts, out.terms);
        let end = out.terms.fill;
        out.nodes.put(Node::Dist(DistNode::Sum {
            threshold: sum.threshold * self.plan.mass,
            terms: Run {
                first,
                count: end - first,
            },
        }));
    }

    // Writes the lines of a sum at the points of the states.
    fn put_sums_here(&self, sum: Sum, out: &mut Lists)
        requires fit { Fit self.now.plan (sum_node sum) }
        ensures same { SameTables out.old out.new }
        ensures wrote { filled out.new ≡ lay_all (filled out.old) (map (λ p. sum_at self.now.plan sum (point (S.meaning self.now.system.now) p)) (range_with_len 0 (S.meaning self.now.system.now).states)) }
    {
        for p in 0..self.plan.states {
            let here = [Target {
                state: p,
                weight: self.plan.mass,
            }];
            self.put_sum(sum, &here, out);
        }
    }

    // Reads the targets of a move to the front of the buffer, and answers them.
    fn read_targets<'b>(
        &self,
        state: u32,
        action: u32,
        number: u32,
        buffer: &'b mut [Target; MOST_TARGETS],
    ) -> &'b [Target]
        requires inside { number < length ((S.meaning self.now.system.now).moves state action) }
        ensures { result.now ≡ slice_index_or ((S.meaning self.now.system.now).moves state action) number [] }
    {
        let count = self.system.targets(state, action, number);
        for (index, slot) in buffer[..count as usize].iter_mut().enumerate() {
            *slot = self
                .system
                .target(state, action, number, index as u32)
                .unwrap();
        }
        &buffer[..count as usize]
    }

    // Writes the lines of a sum at the moves of a state on an action, asking for the targets of each once.
    // The buffer is no part of the lists: it is read while they are written.
    fn put_sums_on(
        &self,
        sum: Sum,
        state: u32,
        action: u32,
        buffer: &mut [Target; MOST_TARGETS],
        out: &mut Lists,
    )
        requires fit { Fit self.now.plan (sum_node sum) }
        ensures same { SameTables out.old out.new }
        ensures wrote { filled out.new ≡ lay_all (filled out.old) (map (sum_at self.now.plan sum) ((S.meaning self.now.system.now).moves state action)) }
    {
        for k in 0..self.system.moves(state, action) {
            let targets = self.read_targets(state, action, k, buffer);
            self.put_sum(sum, targets, out);
        }
    }

    // Writes its lines at the moves of a state.
    fn put_sums_from(
        &self,
        sum: Sum,
        state: u32,
        buffer: &mut [Target; MOST_TARGETS],
        out: &mut Lists,
    )
        requires fit { Fit self.now.plan (sum_node sum) }
        ensures same { SameTables out.old out.new }
        ensures wrote { filled out.new ≡ lay_all (filled out.old) (map (sum_at self.now.plan sum) (moves_of (S.meaning self.now.system.now) state)) }
    {
        for action in 0..ACTIONS {
            self.put_sums_on(sum, state, action, buffer, out);
        }
    }

    // Writes its lines at all moves.
    fn put_sums_along(&self, sum: Sum, buffer: &mut [Target; MOST_TARGETS], out: &mut Lists)
        requires fit { Fit self.now.plan (sum_node sum) }
        ensures same { SameTables out.old out.new }
        ensures wrote { filled out.new ≡ lay_all (filled out.old) (map (sum_at self.now.plan sum) (flat_map (moves_of (S.meaning self.now.system.now)) (range_with_len 0 (S.meaning self.now.system.now).states))) }
    {
        for p in 0..self.plan.states {
            self.put_sums_from(sum, p, buffer, out);
        }
    }

    // Writes its lines at all rows.
    fn put_sums(&self, sum: Sum, buffer: &mut [Target; MOST_TARGETS], out: &mut Lists)
        requires fit { Fit self.now.plan (sum_node sum) }
        ensures same { SameTables out.old out.new }
        ensures wrote { filled out.new ≡ lay_all (filled out.old) (node_lines (S.meaning self.now.system.now) self.now.plan (sum_node sum)) }
    {
        self.put_sums_here(sum, out);
        self.put_sums_along(sum, buffer, out);
    }

    // A node that is neither a step nor a sum, at the state or row `p`.
    fn node_at(&self, node: Node, p: u32) -> Node
        requires plain { Plain (length (plan_nodes self.now.plan)) node }
        requires small { Numbered p }
        ensures { result ≡ moved (λ d. place_in self.now.plan d p) node }
    {
        match node {
            Node::State(StateNode::And(i, j)) => {
                Node::State(StateNode::And(self.place(i, p), self.place(j, p)))
            }
            Node::State(StateNode::Not(i)) => Node::State(StateNode::Not(self.place(i, p))),
            Node::Dist(DistNode::And(i, j)) => {
                Node::Dist(DistNode::And(self.place(i, p), self.place(j, p)))
            }
            Node::Dist(DistNode::Not(i)) => Node::Dist(DistNode::Not(self.place(i, p))),
            _ => node,
        }
    }

    // Writes the lines of a node that is neither a step nor a sum, at each state or row.
    fn put_plain(&self, node: Node, out: &mut Lists)
        requires plain { Plain (length (plan_nodes self.now.plan)) node }
        ensures same { SameTables out.old out.new }
        ensures wrote { filled out.new ≡ lay_all (filled out.old) (node_lines (S.meaning self.now.system.now) self.now.plan node) }
    {
        for p in 0..width(node, self.plan.states, self.plan.rows) {
            out.nodes.put(self.node_at(node, p));
        }
    }

    // Writes the lines of a node.
    fn put_node(&self, node: Node, buffer: &mut [Target; MOST_TARGETS], out: &mut Lists)
        requires fit { Fit self.now.plan node }
        ensures same { SameTables out.old out.new }
        ensures wrote { filled out.new ≡ lay_all (filled out.old) (node_lines (S.meaning self.now.system.now) self.now.plan node) }
    {
        match node {
            Node::State(
                StateNode::Step {
                    action,
                    moves,
                    heres,
                },
            ) => self.put_steps(
                Step {
                    action,
                    moves,
                    heres,
                },
                out,
            ),
            Node::Dist(DistNode::Sum { threshold, terms }) => {
                self.put_sums(Sum { threshold, terms }, buffer, out)
            }
            _ => self.put_plain(node, out),
        }
    }

    // Writes the lines of all nodes, in their order.
    fn put_nodes(&self, buffer: &mut [Target; MOST_TARGETS], out: &mut Lists)
        requires fit { AllFit self.now.plan }
        ensures same { SameTables out.old out.new }
        ensures wrote { filled out.new ≡ lay_all (filled out.old) (plan_quotient (S.meaning self.now.system.now) self.now.plan) }
    {
        for node in self.plan.tables.nodes {
            self.put_node(*node, buffer, out);
        }
    }

    // Writes the quotient to three lists, which come apart for the reason that `Lists` gives.
    fn put_quotient(
        &self,
        nodes: &mut AppendList<Node>,
        terms: &mut AppendList<Term>,
        alternatives: &mut AppendList<u32>,
    )
        requires fit { AllFit self.now.plan }
        ensures same { SameSlots nodes.old nodes.new × SameSlots terms.old terms.new × SameSlots alternatives.old alternatives.new }
        ensures wrote { store nodes.new terms.new alternatives.new ≡ lay_all (store nodes.old terms.old alternatives.old) (plan_quotient (S.meaning self.now.system.now) self.now.plan) }
    {
        let mut buffer = [NO_TARGET; MOST_TARGETS];
        let mut out = Lists {
            nodes,
            terms,
            alternatives,
        };
        self.put_nodes(&mut buffer, &mut out);
    }

    // Writes the quotient to the fronts of tables that have the room.
    pub(crate) fn write(&self, second: &mut TablesMut)
        requires fit { AllFit self.now.plan }
        requires room { fits (fills (plan_quotient (S.meaning self.now.system.now) self.now.plan)) (held second.old) ≡ true }
        ensures lent { SameLoans second.old second.new }
        ensures wrote { held second.new ≡ laid (plan_quotient (S.meaning self.now.system.now) self.now.plan) (held second.old) }
    {
        let mut nodes = AppendList::new(second.nodes);
        let mut terms = AppendList::new(second.terms);
        let mut alternatives = AppendList::new(second.alternatives);
        self.put_quotient(&mut nodes, &mut terms, &mut alternatives);
    }
}
