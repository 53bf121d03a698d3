// Whether the formula of a claim holds of a system.
ghost use Rattle.std.specs.Prelude.{◌≡◌, ◌+◌, ◌*◌, ◌<◌, ◌≤◌, ◌||◌, length, replicate, is_err, Ok, nat_lt};
ghost use Rattle.formulas.specs.Lines.{line, state_line, entries};
ghost use Rattle.formulas.specs.Right.{Right, RightState};
ghost use Rattle.formulas.specs.Truths.{any, holds_at, at_node, of_node};
ghost use Rattle.formulas.specs.Tables.{contents, over};
ghost use Rattle.claims.specs.Verdicts.{verdict, judged, node_bytes, bytes, truth_bytes, row_bytes, after};
ghost use Rattle.claims.specs.Sums.{lit};
ghost use Rattle.claims.specs.Rows.{Blank};
ghost use Rattle.claims.specs.Boards.{truths_in, most_removed, Sits, Before, Passed};
ghost use Rattle.claims.specs.Books.{judging, entry, Book, fed, stage, Stands};
ghost use Rattle.claims.specs.Law.{Said};

use crate::board::{Board, Site};
use crate::claim::Claim;
use crate::fault::Refusal;
use crate::law::books_stand;
use crate::spot::Spot;
use crate::tables::Tables;
use crate::truths::Truths;
use crate::verdict::Verdict;
use formulas::node::{Node, Run, StateNode};
use formulas::stands::{formula_in, truth_stands};
use formulas::tables::front;
use systems::system::System;

// The greatest product of masses.
const MOST_MASS: u128 = 1000000000000000;

impl<S: System> Board<'_, '_, S> {
    // Whether some alternative of the run holds of some move of the state on the action.
    fn some_move(self, state: u32, action: u32, run: Run, row: &mut [u8]) -> bool
        requires blank { Blank self.upto row.old }
        requires run { Before self.tables self.upto run }
        ensures value { let M = S.meaning self.entry.system.now in let t = self.entry.tables in result ≡ any (λ mv. any (λ d. of_node (truths_in M t) d mv) (entries t.alternatives.now run)) (M.moves state action) }
        ensures row { row.new ≡ row.old }
    {
        // No `any`: tried, and nothing is known after it of the row that its closure lends to each call.
        for place in 0..self.system.moves(state, action) {
            let site = Site {
                board: self,
                spot: Spot::Along(state, action, place),
            };
            if site.some_holds(run, row) {
                return true;
            }
        }
        false
    }

    // Whether a node of the state sort holds in a state.
    fn state_holds(self, state: u32, node: StateNode, row: &mut [u8]) -> bool
        requires inside { state < (S.meaning self.system.now).states }
        requires blank { Blank self.upto row.old }
        requires right { RightState self.tables.alternatives.now self.upto node }
        ensures value { let M = S.meaning self.entry.system.now in let t = self.entry.tables in result ≡ holds_at M (lit self.entry.truths.bytes.now M.states) (of_node (truths_in M t)) (state_line t.alternatives.now node) state }
        ensures row { row.new ≡ row.old }
    {
        match node {
            StateNode::Yes => true,
            StateNode::No => false,
            StateNode::And(j, k) => self.truths.holds(j, state) && self.truths.holds(k, state),
            StateNode::Not(j) => !self.truths.holds(j, state),
            StateNode::Step {
                action,
                moves,
                heres,
            } => {
                let here = Site {
                    board: self,
                    spot: Spot::Here(state),
                };
                self.some_move(state, action, moves, row) || here.some_holds(heres, row)
            }
        }
    }

    // Whether a node holds in a state. One of the distribution sort does not.
    fn holds(self, state: u32, node: Node, row: &mut [u8]) -> bool
        requires inside { state < (S.meaning self.system.now).states }
        requires blank { Blank self.upto row.old }
        requires right { Right self.tables.terms.now self.tables.alternatives.now (most_removed (S.meaning self.system.now)) self.upto node }
        ensures value { let M = S.meaning self.entry.system.now in let t = self.entry.tables in result ≡ holds_at M (lit self.entry.truths.bytes.now M.states) (of_node (truths_in M t)) (line t.terms.now t.alternatives.now node) state }
        ensures row { row.new ≡ row.old }
    {
        match node {
            Node::State(x) => self.state_holds(state, x, row),
            Node::Dist(_) => false,
        }
    }

    // Fills in the bytes of the node whose turn it is, one for each state.
    fn fill_node(self, bytes: &mut [u8], row: &mut [u8])
        requires node { self.upto < length self.tables.nodes.now }
        requires room { length bytes.old ≡ (S.meaning self.system.now).states }
        requires blank { Blank self.upto row.old }
        ensures bytes { let M = S.meaning self.entry.system.now in bytes.new ≡ node_bytes (truths_in M self.entry.tables) M.states self.entry.upto }
        ensures row { row.new ≡ row.old }
    {
        let node = self.tables.nodes[self.upto];
        for (state, byte) in bytes.iter_mut().enumerate() {
            *byte = u8::from(self.holds(state as u32, node, row));
        }
    }
}

// Fills in the bytes of all nodes.
fn fill_table<'a, S: System>(system: &'a S, tables: Tables<'a>, truth: &mut [u8], row: &mut [u8])
    requires sits { Sits (S.meaning system.now) tables }
    requires room { length tables.nodes.now * (S.meaning system.now).states ≤ length truth.old }
    requires blank { Blank (length tables.nodes.now) row.old }
    ensures truth { truth.new ≡ over (bytes (truths_in (S.meaning system.now) tables.entry) (S.meaning system.now).states (length tables.entry.nodes.now)) truth.old }
    ensures row { row.new ≡ row.old }
{
    let states = system.states() as usize;
    // By number: each turn splits the table anew, since the bytes before a node are read while its own are written.
    for upto in 0..tables.nodes.len() {
        let (known, rest) = truth.split_at_mut(upto * states);
        let truths = Truths {
            bytes: known,
            states,
        };
        let board = Board {
            system,
            tables,
            upto,
            truths,
        };
        board.fill_node(&mut rest[..states], row);
    }
}

// Fills in all truths, and looks up the root's.
fn evaluate<S: System>(
    root: u32,
    tables: Tables,
    system: &S,
    truth: &mut [u8],
    row: &mut [u8],
) -> Verdict
    requires sits { Sits (S.meaning system.now) tables }
    requires root { root < length tables.nodes.now }
    requires room { length tables.nodes.now * (S.meaning system.now).states ≤ length truth.old }
    requires long { length tables.nodes.now ≤ length row.old }
    ensures value { result ≡ verdict (at_node (truths_in (S.meaning system.now) tables.entry) root 0) }
    ensures truth { truth.new ≡ over (bytes (truths_in (S.meaning system.now) tables.entry) (S.meaning system.now).states (length tables.entry.nodes.now)) truth.old }
    ensures row { row.new ≡ over (replicate (length tables.entry.nodes.now) 0) row.old }
{
    row[..tables.nodes.len()].fill(0);
    fill_table(system, tables, truth, row);
    let truths = Truths {
        bytes: truth,
        states: system.states() as usize,
    };
    Verdict::of(truths.holds(root, 0))
}

// The verdict on a claim that passes the tests.
fn decide<S: System>(
    claim: &Claim,
    tables: Tables,
    system: &S,
    truth: &mut [u8],
    row: &mut [u8],
) -> Verdict
    requires { Passed (S.meaning system.now) claim.now tables (length truth.old) (length row.old) }
    ensures value { Ok result ≡ judged (S.meaning system.now) claim.now tables.entry (length truth.old) (length row.old) }
    ensures truth { truth.new ≡ over (truth_bytes (S.meaning system.now) claim.now tables.entry) truth.old }
    ensures row { row.new ≡ over (row_bytes claim.now) row.old }
{
    let used = front(claim.fills(), tables);
    evaluate(claim.root(), used, system, truth, row)
}

// Whether two masses multiply to more than is allowed.
fn too_heavy(removed: u64, mass: u64) -> bool
    ensures { result ≡ nat_lt 1000000000000000 (removed * mass) }
{
    MOST_MASS < removed as u128 * mass as u128
}

// Whether the truth table, or the row, is too short for these nodes and states.
fn too_short(nodes: u32, states: u32, size: usize, len: usize) -> bool
    ensures { result ≡ (nat_lt size (nodes * states) || nat_lt len nodes) }
{
    size < nodes as usize * states as usize || len < nodes as usize
}

// The answer of judge, and what it leaves in its two tables: apart, since what judge says of books follows from it.
fn answer<S: System>(
    claim: &Claim,
    tables: Tables,
    system: &S,
    truth: &mut [u8],
    row: &mut [u8],
) -> Result<Verdict, Refusal>
    ensures value { result ≡ judged (S.meaning system.now) claim.now tables.entry (length truth.old) (length row.old) }
    ensures truth { truth.new ≡ after result (truth_bytes (S.meaning system.now) claim.now tables.entry) truth.old }
    ensures row { row.new ≡ after result (row_bytes claim.now) row.old }
{
    let standing = claim.standing();
    let removed = claim.mass();
    if !formula_in(standing, removed, tables) {
        return Err(Refusal::NoFormula);
    }
    if too_heavy(removed, system.mass()) {
        return Err(Refusal::Heavy);
    }
    if too_short(
        standing.fills.nodes,
        system.states(),
        truth.len(),
        row.len(),
    ) {
        return Err(Refusal::Short);
    }
    truth_stands();
    Ok(decide(claim, tables, system, truth, row))
}

// Judges a claim on a system: yes if its formula holds in state 0.
// The truth table gets the truth of every node in every state, and the row is cleared.
pub fn judge<S: System>(
    claim: &Claim,
    tables: Tables,
    system: &S,
    truth: &mut [u8],
    row: &mut [u8],
) -> Result<Verdict, Refusal>
    ensures value { result ≡ judged (S.meaning system.now) claim.now tables.entry (length truth.old) (length row.old) }
    ensures truth { truth.new ≡ after result (truth_bytes (S.meaning system.now) claim.now tables.entry) truth.old }
    ensures row { row.new ≡ after result (row_bytes claim.now) row.old }
    ensures book { (k : Book) → Stands k (stage claim.now (contents tables.entry)) → Said k claim.now (S.meaning system.now) result × Stands (fed k (entry (judging (S.meaning system.now)) (is_err result))) (stage claim.now (contents tables.entry)) }
{
    books_stand();
    answer(claim, tables, system, truth, row)
}
