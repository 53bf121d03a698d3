// A claim with the tables that hold its formula.
ghost use Rattle.std.specs.Prelude.{◌≡◌, length, IfOk};
ghost use Rattle.formulas.specs.Tables.{contents};
ghost use Rattle.simplification.specs.Tables.{desk};
ghost use Rattle.claims.specs.Simplifications.{Simplifies};
ghost use Rattle.qcheck.specs.Cases.{owned, Simplification, Removal};

use claims::claim::Claim;
use claims::fault::Refusal;
use claims::remove::remove;
use claims::simplify::simplify;
use claims::tables::{Tables, TablesMut};
use formulas::node::{Fills, Node, StateNode, Term};
use std::alloc::{AllocError, Global};
use systems::system::System;

// No table is made longer than a formula may use.
pub const MOST_ENTRIES: usize = 1048576;

// Second tables of this length serve most removals.
const FEW_ENTRIES: usize = 4096;

// The three tables of a formula, owned.
#[derive(Drop)]
pub struct Store {
    pub nodes: Vec<Node>,
    pub terms: Vec<Term>,
    pub alternatives: Vec<u32>,
}

#[derive(Drop)]
pub struct Case {
    pub claim: Claim,
    pub store: Store,
}

impl Store {
    // Blank tables of this length.
    pub fn blank(heap: Global, room: usize) -> Result<Store, AllocError>
        ensures { IfOk result (λ s. (length s.nodes.items ≡ room) × (length s.terms.items ≡ room) × (length s.alternatives.items ≡ room)) }
    {
        const TERM: Term = Term {
            coefficient: 0,
            node: 0,
        };
        Ok(Store {
            nodes: vec![in heap; Node::State(StateNode::Yes); room]?,
            terms: vec![in heap; TERM; room]?,
            alternatives: vec![in heap; 0; room]?,
        })
    }

    // To be changed they are lent where they are needed: a function cannot promise what three loans leave.
    pub fn tables(&self) -> Tables
        ensures { contents result ≡ owned self.now }
    {
        Tables {
            nodes: self.nodes.as_slice(),
            terms: self.terms.as_slice(),
            alternatives: self.alternatives.as_slice(),
        }
    }

    // Simplifies the claim that these tables hold.
    fn simplify(&mut self, claim: &mut Claim, map: &mut [u32]) -> Result<Fills, Refusal>
        ensures { Simplifies claim.old (desk (owned self.old) map.old) result claim.new (desk (owned self.new) map.new) }
    {
        simplify(
            claim,
            &mut TablesMut {
                nodes: &mut self.nodes[..],
                terms: &mut self.terms[..],
                alternatives: &mut self.alternatives[..],
            },
            map,
        )
    }
}

impl Case {
    // Simplifies the claim in its tables.
    pub fn simplify(&mut self, heap: Global) -> Result<Result<Fills, Refusal>, AllocError>
        ensures { IfOk result (Simplification self.old self.new) }
    {
        let count = self.claim.fills().nodes as usize;
        let mut map = vec![in heap; 0u32; count]?;
        let store = &mut self.store;
        Ok(store.simplify(&mut self.claim, map.as_mut_slice()))
    }
}

// What came of a removal: what is left and its fills, or the case as it was and why.
pub type Removed = Result<(Case, Fills), (Case, Refusal)>;

// Removes a system by way of second tables of the given length.
fn remove_into<S: System>(
    heap: Global,
    case: Case,
    system: &S,
    room: usize,
) -> Result<Removed, AllocError>
    ensures step { IfOk result (Removal (S.System.meaning system.now) case) }
    ensures fills { IfOk result (λ r. IfOk r (λ left. left.1 ≡ left.0.claim.fills)) }
{
    let mut second = Store::blank(heap, room)?;
    let Case { claim, store } = case;
    match remove(
        claim,
        store.tables(),
        system,
        &mut TablesMut {
            nodes: &mut second.nodes[..],
            terms: &mut second.terms[..],
            alternatives: &mut second.alternatives[..],
        },
    ) {
        Ok((claim, fills)) => Ok(Ok((
            Case {
                claim,
                store: second,
            },
            fills,
        ))),
        Err((claim, why)) => Ok(Err((Case { claim, store }, why))),
    }
}

// Removes a system: first with few entries, and if they do not do, with as many as a formula may use.
pub fn remove_from<S: System>(heap: Global, case: Case, system: &S) -> Result<Removed, AllocError>
    ensures step { IfOk result (Removal (S.System.meaning system.now) case) }
    ensures fills { IfOk result (λ r. IfOk r (λ left. left.1 ≡ left.0.claim.fills)) }
{
    match remove_into(heap, case, system, FEW_ENTRIES)? {
        Err((case, Refusal::Short)) => remove_into(heap, case, system, MOST_ENTRIES),
        removed => Ok(removed),
    }
}
