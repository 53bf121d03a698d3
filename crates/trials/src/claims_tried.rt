// Claims on tables that are longer or shorter than needed, or changed behind their back.
use crate::slots::{Blank, Slots};
use anyhow::anyhow;
use claims::claim::Claim;
use claims::judge::judge;
use claims::opening::open;
use claims::tables::Tables;
use formulas::draft::Draft;
use formulas::node::{Node, StateNode, Term};
use std::io;
use systems::actions::ActionSet;
use systems::component::Component;
use systems::records::MoveRecord;
use systems::system::{System, Target};

// What fills the bytes that a judgement is lent.
const BLANK_BYTE: u8 = 7;

const BLANK: Blank = Blank {
    node: Node::State(StateNode::Yes),
    term: Term {
        coefficient: 0,
        node: 0,
    },
    alternative: 9,
};

const PROMISE: &[u8] = b"(dia 0 (>= (* 1000 (prob (dia 1 true))) 750))";

// A loop, since `join` is of texts alone.
fn print_bytes(rt: &HostRuntime, label: &str, bytes: &[u8]) -> io::Result<()> {
    print!(rt; "{label}")?;
    for b in bytes {
        print!(rt; " {b}")?;
    }
    println!(rt; "")
}

// What is judged, and on what.
#[derive(Drop)]
struct Trial<'a> {
    rt: &'a HostRuntime,
    claim: &'a Claim,
    worker: &'a Component,
}

impl Trial<'_> {
    // Judges with a truth table and a row of these lengths, and prints the answer and both.
    fn judge(&self, label: &str, tables: Tables, size: usize, len: usize) -> anyhow::Result<()> {
        let rt = self.rt;
        let mut truth = vec![in rt.alloc(); BLANK_BYTE; size]?;
        let mut row = vec![in rt.alloc(); BLANK_BYTE; len]?;
        match judge(
            self.claim,
            tables,
            self.worker,
            truth.as_mut_slice(),
            row.as_mut_slice(),
        ) {
            Ok(verdict) => println!(rt; "{label}: {verdict}")?,
            Err(refusal) => {
                let number = refusal.number();
                println!(rt; "{label}: refused {number}")?;
            }
        }
        print_bytes(rt, "  truth", truth.as_slice())?;
        print_bytes(rt, "  row", row.as_slice())?;
        Ok(())
    }

    // Truth tables and rows of several lengths.
    fn try_lengths(&self, slots: &Slots) -> anyhow::Result<()> {
        self.judge("just long enough", slots.tables(), 8, 4)?;
        self.judge("longer than needed", slots.tables(), 10, 6)?;
        self.judge("truth table a byte short", slots.tables(), 7, 4)?;
        self.judge("row a byte short", slots.tables(), 8, 3)
    }

    // Tables that were changed behind the claim's back: a node that is its own part, then fewer nodes than it has.
    fn try_changed(&self, slots: &mut Slots) -> anyhow::Result<()> {
        if let Some(node) = slots.nodes.get_mut(1) {
            *node = Node::State(StateNode::Not(1));
        }
        self.judge("a node that is its own part", slots.tables(), 8, 4)?;
        slots.nodes.truncate(3);
        self.judge("node table shorter than the fill", slots.tables(), 8, 4)
    }
}

fn worker(rt: &HostRuntime) -> anyhow::Result<Component> {
    let moves = [
        MoveRecord {
            state: 0,
            action: 0,
            first: 0,
            count: 2,
        },
        MoveRecord {
            state: 1,
            action: 1,
            first: 2,
            count: 1,
        },
    ];
    let targets = [(1, 750), (0, 250), (0, 1000)].map(|(state, weight)| Target { state, weight });
    Component::mount(rt.alloc(), 2, &moves, &targets).map_err(|_| anyhow!(
        "the worker is not mounted"
    ))
}

fn try_open(rt: &HostRuntime, draft: Draft, tables: Tables) -> anyhow::Result<Option<Claim>> {
    match open(draft, tables, ActionSet::empty()) {
        Ok(claim) => {
            let root = claim.root();
            let mass = claim.mass();
            println!(rt; "open: root {root}, mass {mass}")?;
            Ok(Some(claim))
        }
        Err((draft, refusal)) => {
            let number = refusal.number();
            let root = draft.root();
            println!(rt; "open: refused {number}, the draft with root {root} comes back")?;
            Ok(None)
        }
    }
}

// Tables that are longer than the promise needs, and the promise read into them.
fn read_promise(rt: &HostRuntime) -> anyhow::Result<(Slots, Draft)> {
    let mut slots = Slots::blank(rt.alloc(), BLANK, 6, 3, 5)?;
    let draft = slots
        .read(PROMISE)
        .map_err(|_| anyhow!("the promise is not read"))?;
    Ok((slots, draft))
}

pub fn try_claims(rt: &HostRuntime) -> anyhow::Result<()> {
    let worker = worker(rt)?;
    let (mut slots, draft) = read_promise(rt)?;
    if let Some(claim) = try_open(rt, draft, slots.tables())? {
        let trial = Trial {
            rt,
            claim: &claim,
            worker: &worker,
        };
        trial.try_lengths(&slots)?;
        trial.try_changed(&mut slots)?;
    }
    let (mut slots, draft) = read_promise(rt)?;
    if let Some(alternative) = slots.alternatives.get_mut(1) {
        *alternative = 3;
    }
    try_open(rt, draft, slots.tables())?;
    Ok(())
}
