// The tables that a formula stands in.
ghost use Rattle.std.specs.Prelude.{◌≡◌, take};
ghost use Rattle.formulas.specs.Tables.{contents, held, Front};

use crate::node::{Fills, Node, Term};

// A formula's tables, lent. They may be longer than what the formula uses of them.
#[derive(Clone, Copy)]
pub struct Tables<'a> {
    pub nodes: &'a [Node],
    pub terms: &'a [Term],
    pub alternatives: &'a [u32],
}

// A formula's tables, lent to be changed. Each loan has a lifetime of its own: at one for all, a proof knows nothing of
// the lender's tables once the loans are over.
#[derive(Drop)]
pub struct TablesMut<'n, 't, 'a> {
    pub nodes: &'n mut [Node],
    pub terms: &'t mut [Term],
    pub alternatives: &'a mut [u32],
}

impl TablesMut<'_, '_, '_> {
    // The tables, to be read.
    pub fn shared(&self) -> Tables
        ensures { contents result ≡ held self.now }
    {
        Tables {
            nodes: self.nodes,
            terms: self.terms,
            alternatives: self.alternatives,
        }
    }
}

// Where a formula stands in its tables: how much of each it uses, and the number of its root.
#[derive(Clone, Copy)]
pub struct Standing {
    pub fills: Fills,
    pub root: u32,
}

// The first `n` entries of a table; a table that is shorter is taken whole.
fn first<'a, T>(table: &'a [T], n: u32) -> &'a [T]
    ensures { result.now ≡ take n table.now }
{
    &table[..table.len().min(n as usize)]
}

// What a formula of these fills uses of its tables: the front of each.
pub fn front<'a>(fills: Fills, tables: Tables<'a>) -> Tables<'a>
    ensures { Front fills tables.entry result }
{
    Tables {
        nodes: first(tables.nodes, fills.nodes),
        terms: first(tables.terms, fills.terms),
        alternatives: first(tables.alternatives, fills.alternatives),
    }
}
