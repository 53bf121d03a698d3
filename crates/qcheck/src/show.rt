// How fills and the tables of a claim are printed.
use claims::claim::Claim;
use claims::tables::Tables;
use formulas::node::{DistNode, Fills, Node, Run, StateNode, Term};
use std::{fmt, io};

// How much of each table is filled.
#[derive(Clone, Copy)]
pub struct Filled(pub Fills);

impl fmt::Display for Filled {
    fn fmt<W: fmt::Write>(&self, f: &mut fmt::Formatter<W>) -> fmt::Result {
        let Fills {
            nodes,
            terms,
            alternatives,
        } = self.0;
        write!(
            f,
            "{nodes} nodes, {terms} terms, {alternatives} alternatives"
        )
    }
}

// An entry of a run.
trait Entry {
    fn put<W: fmt::Write>(&self, f: &mut fmt::Formatter<W>) -> fmt::Result;
}

impl Entry for u32 {
    fn put<W: fmt::Write>(&self, f: &mut fmt::Formatter<W>) -> fmt::Result {
        write!(f, " {self}")
    }
}

impl Entry for Term {
    fn put<W: fmt::Write>(&self, f: &mut fmt::Formatter<W>) -> fmt::Result {
        write!(f, " {}*{}", self.coefficient, self.node)
    }
}

// The entries of a run, or a dash for none.
#[derive(Drop)]
struct Entries<'a, T>(&'a [T], Run);

impl<T: Entry> fmt::Display for Entries<'_, T> {
    fn fmt<W: fmt::Write>(&self, f: &mut fmt::Formatter<W>) -> fmt::Result {
        let Entries(table, run) = self;
        if run.count == 0 {
            return f.write_str(" -");
        }
        for entry in run.entries(table) {
            entry.put(f)?;
        }
        Ok(())
    }
}

// A node of these tables.
#[derive(Drop)]
struct Shown<'a>(Node, Tables<'a>);

impl fmt::Display for Shown<'_> {
    fn fmt<W: fmt::Write>(&self, f: &mut fmt::Formatter<W>) -> fmt::Result {
        let Shown(node, tables) = self;
        match *node {
            Node::State(StateNode::Yes) => f.write_str("state yes"),
            Node::State(StateNode::No) => f.write_str("state no"),
            Node::State(StateNode::And(i, j)) => write!(f, "state and {i} {j}"),
            Node::State(StateNode::Not(i)) => write!(f, "state not {i}"),
            Node::State(
                StateNode::Step {
                    action,
                    moves,
                    heres,
                },
            ) => {
                let moves = Entries(tables.alternatives, moves);
                let heres = Entries(tables.alternatives, heres);
                write!(f, "state step {action} moves{moves} heres{heres}")
            }
            Node::Dist(DistNode::Yes) => f.write_str("dist yes"),
            Node::Dist(DistNode::No) => f.write_str("dist no"),
            Node::Dist(DistNode::And(i, j)) => write!(f, "dist and {i} {j}"),
            Node::Dist(DistNode::Not(i)) => write!(f, "dist not {i}"),
            Node::Dist(DistNode::Sum { threshold, terms }) => {
                let terms = Entries(tables.terms, terms);
                write!(f, "dist sum {threshold} terms{terms}")
            }
        }
    }
}

// Prints the claim's nodes, one a line, then its root and the mass removed.
pub fn print_claim(rt: &HostRuntime, claim: &Claim, tables: Tables) -> io::Result<()> {
    let count = claim.fills().nodes as usize;
    for (i, node) in tables.nodes.iter().take(count).enumerate() {
        let shown = Shown(*node, tables);
        println!(rt; "{i}: {shown}")?;
    }
    let root = claim.root();
    let mass = claim.mass();
    println!(rt; "root {root}, mass {mass}")
}
