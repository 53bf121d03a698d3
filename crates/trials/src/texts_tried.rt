// Texts at the limits of reading.
use crate::slots::{Blank, Slots};
use formulas::fault::ReadFault;
use formulas::node::{Fills, Node, StateNode, Term};
use std::io;

const BLANK: Blank = Blank {
    node: Node::State(StateNode::Not(77)),
    term: Term {
        coefficient: 77,
        node: 77,
    },
    alternative: 77,
};

// How many entries of the three tables are as they were.
fn untouched(tables: &Slots) -> usize {
    let nodes = tables
        .nodes
        .iter()
        .filter(|node| **node == BLANK.node)
        .count();
    let terms = tables
        .terms
        .iter()
        .filter(|term| **term == BLANK.term)
        .count();
    let alternatives = tables
        .alternatives
        .iter()
        .filter(|alternative| **alternative == BLANK.alternative)
        .count();
    nodes.saturating_add(terms).saturating_add(alternatives)
}

fn print_fault(rt: &HostRuntime, fault: &ReadFault) -> io::Result<()> {
    let number = fault.number();
    let layer = fault.layer();
    match fault.place() {
        Some(place) => print!(rt; "refused {number} at {place} ({layer})"),
        None => print!(rt; "refused {number} ({layer})"),
    }
}

// Reads a text into the tables, and prints the answer and how many entries are as they were.
fn try_into(rt: &HostRuntime, label: &str, text: &[u8], tables: &mut Slots) -> io::Result<()> {
    print!(rt; "{label}: ")?;
    match tables.read(text) {
        Ok(draft) => {
            let Fills {
                nodes,
                terms,
                alternatives,
            } = draft.fills();
            let root = draft.root();
            print!(rt; "{nodes} nodes, {terms} terms, {alternatives} alternatives, root {root}")?;
        }
        Err(fault) => print_fault(rt, &fault)?,
    }
    let kept = untouched(tables);
    println!(rt; ", {kept} entries as they were")
}

fn try_text(rt: &HostRuntime, label: &str, text: &[u8]) -> anyhow::Result<()> {
    let mut tables = Slots::blank(rt.alloc(), BLANK, 100, 20, 20)?;
    Ok(try_into(rt, label, text, &mut tables)?)
}

fn try_nots(rt: &HostRuntime, label: &str, count: usize) -> anyhow::Result<()> {
    let heap = rt.alloc();
    let nots = "(not ".repeat(heap, count)?;
    let ends = ")".repeat(heap, count)?;
    let text = format!(in heap; "{nots}true{ends}")?;
    try_text(rt, label, text.as_str().as_bytes())
}

fn try_sum(rt: &HostRuntime, label: &str, count: usize) -> anyhow::Result<()> {
    let heap = rt.alloc();
    let products = "(* 1 (prob true)) ".repeat(heap, count)?;
    let text = format!(in heap; "(here (>= (+ {products}) 0))")?;
    try_text(rt, label, text.as_str().as_bytes())
}

fn try_digits(rt: &HostRuntime, label: &str, count: usize) -> anyhow::Result<()> {
    let heap = rt.alloc();
    let digits = "9".repeat(heap, count)?;
    let text = format!(in heap; "(here (>= 0 {digits}))")?;
    try_text(rt, label, text.as_str().as_bytes())
}

// One text into tables of several lengths, three numbers as those of their slots.
fn try_room(
    rt: &HostRuntime,
    label: &str,
    nodes: usize,
    terms: usize,
    alternatives: usize,
) -> anyhow::Result<()> {
    let mut tables = Slots::blank(rt.alloc(), BLANK, nodes, terms, alternatives)?;
    Ok(try_into(
        rt,
        label,
        b"(dia 0 (>= (* 1000 (prob (dia 1 true))) 937))",
        &mut tables,
    )?)
}

fn try_words(rt: &HostRuntime) -> anyhow::Result<()> {
    try_text(rt, "no bytes", b"")?;
    try_text(rt, "blanks and a comment", b" \t; true\n ")?;
    try_text(rt, "a comment ends at LF, not at CR", b";x\r true\ntrue")?;
    try_text(rt, "a semicolon ends a word", b"true;x")?;
    try_text(rt, "NUL is no blank", b"true\0")?;
    try_text(rt, "a byte above 127", b"\xc8")?;
    try_text(rt, "a form feed is no blank", b"true\x0c")?;
    try_text(rt, "two zeros", b"00")?;
    try_text(rt, "no blank behind a word", b"(>=0 0)")?;
    try_text(rt, "parentheses need no blanks", b"(and(not true)false)")?;
    try_text(rt, "a known word behind the end", b"true true")?;
    try_text(rt, "an unknown word behind the end", b"true tru")
}

fn try_grammar(rt: &HostRuntime) -> anyhow::Result<()> {
    try_text(rt, "a distribution term for a state term", b"(>= 0 0)")?;
    try_text(
        rt,
        "a state term for a distribution term",
        b"(here (here true))",
    )?;
    try_text(rt, "a part too few", b"(not)")?;
    try_text(rt, "a part too many", b"(not true true)")?;
    try_text(rt, "it ends early", b"(and true")?;
    try_text(rt, "a numeral for a sum", b"(here (>= 1 0))")?;
    try_text(
        rt,
        "one term behind a plus",
        b"(here (>= (+ (* 1 (prob true))) 0))",
    )?;
    try_text(rt, "no term behind a plus", b"(here (>= (+) 0))")
}

fn try_ranges(rt: &HostRuntime) -> anyhow::Result<()> {
    try_text(rt, "action 31", b"(dia 31 true)")?;
    try_text(rt, "action 32", b"(dia 32 true)")?;
    try_text(rt, "coefficient 0", b"(here (>= (* 0 (prob true)) 0))")?;
    try_text(
        rt,
        "coefficient 1000",
        b"(here (>= (* 1000 (prob true)) 1000))",
    )?;
    try_text(
        rt,
        "coefficient 1001",
        b"(here (>= (* 1001 (prob true)) 0))",
    )?;
    try_text(rt, "threshold 1001", b"(here (>= 0 1001))")?;
    try_text(
        rt,
        "coefficients 1000",
        b"(here (>= (+ (* 999 (prob true)) (* 1 (prob true))) 0))",
    )?;
    try_text(
        rt,
        "coefficients 1001",
        b"(here (>= (+ (* 999 (prob true)) (* 2 (prob true))) 0))",
    )?;
    try_digits(rt, "5000 digits", 5000)
}

fn try_counts(rt: &HostRuntime) -> anyhow::Result<()> {
    try_nots(rt, "64 parentheses", 64)?;
    try_nots(rt, "65 parentheses", 65)?;
    try_sum(rt, "8 terms", 8)?;
    try_sum(rt, "9 terms", 9)?;
    try_room(rt, "tables just long enough", 4, 1, 2)?;
    try_room(rt, "tables longer than needed", 6, 2, 5)?;
    try_room(rt, "a node too few", 3, 1, 2)?;
    try_room(rt, "a term too few", 4, 0, 2)?;
    try_room(rt, "an alternative too few", 4, 1, 1)
}

pub fn try_texts(rt: &HostRuntime) -> anyhow::Result<()> {
    try_words(rt)?;
    try_grammar(rt)?;
    try_ranges(rt)?;
    try_counts(rt)
}
