// Dividing a formula by a system: the quotient of the formula, written to second tables.
ghost use Rattle.std.specs.Prelude.{◌≡◌};
ghost use Rattle.formulas.specs.Tables.{contents, held, SameLoans};
ghost use Rattle.quotient.specs.Divisions.{removable, remainder, divided, after as afterwards, placed, whole_remainder, Dividable};

use crate::need::{alternatives_need, room, terms_need};
use crate::plan::{Division, Plan, fill_firsts, fill_offsets};
use formulas::node::Fills;
use formulas::refusal::Refusal;
use formulas::stands::{formula_in, layout_stands, tables_stand};
use formulas::tables::{Standing, Tables, TablesMut, front};
use systems::actions::ActionSet;
use systems::system::System;

// The most states, and the greatest breadth, of a system that can be removed.
const MOST_STATES: u32 = 4096;
// The greatest mass that can be removed in all.
const MOST_MASS: u128 = 1000000000000000;
// The most nodes of a formula that has a quotient: each gives at least one.
const MOST_NODES: usize = 1048576;
// A first row for each action of each state.
const FIRSTS: usize = 131072;
// An offset for every 32nd node.
const OFFSETS: usize = 32768;

// Whether a system can be removed, `mass` having been removed.
fn removable<S: System>(mass: u64, system: &S) -> Result<(), Refusal>
    ensures { result ≡ removable mass (S.meaning system.now) }
{
    if MOST_STATES < system.states() || MOST_STATES < system.breadth() {
        return Err(Refusal::Large);
    }
    if MOST_MASS < mass as u128 * system.mass() as u128 {
        return Err(Refusal::Heavy);
    }
    Ok(())
}

// Writes the quotient of the formula that fills its tables, once all that it takes is counted and fits.
fn divide_whole<'a, S: System>(
    used: Tables<'a>,
    root: u32,
    shared: ActionSet,
    system: &'a S,
    second: &mut TablesMut,
) -> Result<Standing, Refusal>
    requires { Dividable (S.meaning system.now) used root }
    ensures lent { SameLoans second.old second.new }
    ensures value { result ≡ placed (whole_remainder shared (S.meaning system.now) used.entry root) (held second.old) }
    ensures tables { held second.new ≡ afterwards result (whole_remainder shared (S.meaning system.now) used.entry root) (held second.old) }
{
    layout_stands();
    tables_stand();
    if MOST_NODES < used.nodes.len() {
        return Err(Refusal::Short);
    }
    // Local arrays, since a removal allocates nothing.
    let mut firsts = [0; FIRSTS];
    let rows = fill_firsts(system, &mut firsts);
    let states = system.states();
    let mut offsets = [0; OFFSETS];
    let lines = fill_offsets(used.nodes, states, rows, &mut offsets);
    let nodes = room(second.nodes.len(), lines)?;
    let terms = room(second.terms.len(), terms_need(system, used.terms.len()))?;
    let alternatives = room(
        second.alternatives.len(),
        alternatives_need(system, shared, used.nodes),
    )?;
    let plan = Plan {
        tables: used,
        shared,
        states,
        rows,
        mass: system.mass(),
        offsets: &offsets,
        firsts: &firsts,
    };
    let division = Division { system, plan };
    division.write(second);
    let fills = Fills {
        nodes,
        terms,
        alternatives,
    };
    Ok(Standing {
        fills,
        root: division.place(root, 0),
    })
}

// Divides the formula that stands in the tables, `mass` having been removed, by a system that shares these
// actions. The answer is where the quotient stands in the second tables; a refusal leaves them as they were.
// Standing and mass come apart, as in the test that a formula stands: one is of tables, the other of what was removed.
pub fn divide<S: System>(
    standing: Standing,
    mass: u64,
    shared: ActionSet,
    tables: Tables,
    system: &S,
    second: &mut TablesMut,
) -> Result<Standing, Refusal>
    ensures lent { SameLoans second.old second.new }
    ensures value { result ≡ divided shared (S.meaning system.now) standing.fills standing.root mass (contents tables.entry) (held second.old) }
    ensures tables { held second.new ≡ afterwards result (remainder shared (S.meaning system.now) standing.fills standing.root (contents tables.entry)) (held second.old) }
{
    if !formula_in(standing, mass, tables) {
        return Err(Refusal::NoFormula);
    }
    removable(mass, system)?;
    let used = front(standing.fills, tables);
    divide_whole(used, standing.root, shared, system, second)
}
