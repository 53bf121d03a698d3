// The tables of one text.
use claims::tables::{Tables, TablesMut};
use formulas::draft::Draft;
use formulas::fault::ReadFault;
use formulas::node::{Node, Term};
use formulas::read::read;
use std::alloc::{AllocError, Global};

// What fills the tables before a reading, to see what it leaves.
#[derive(Clone, Copy)]
pub struct Blank {
    pub node: Node,
    pub term: Term,
    pub alternative: u32,
}

// Like the store of the program qcheck: a program hands no type on.
#[derive(Drop)]
pub struct Slots {
    pub nodes: Vec<Node>,
    pub terms: Vec<Term>,
    pub alternatives: Vec<u32>,
}

impl Slots {
    // Blank tables of these lengths: three numbers and no fills, since a length is a `usize`.
    pub fn blank(
        heap: Global,
        blank: Blank,
        nodes: usize,
        terms: usize,
        alternatives: usize,
    ) -> Result<Slots, AllocError> {
        Ok(Slots {
            nodes: vec![in heap; blank.node; nodes]?,
            terms: vec![in heap; blank.term; terms]?,
            alternatives: vec![in heap; blank.alternative; alternatives]?,
        })
    }

    pub fn tables(&self) -> Tables {
        Tables {
            nodes: self.nodes.as_slice(),
            terms: self.terms.as_slice(),
            alternatives: self.alternatives.as_slice(),
        }
    }

    // Reads a text into the tables.
    pub fn read(&mut self, text: &[u8]) -> Result<Draft, ReadFault> {
        read(
            text,
            &mut TablesMut {
                nodes: &mut self.nodes[..],
                terms: &mut self.terms[..],
                alternatives: &mut self.alternatives[..],
            },
        )
    }
}
