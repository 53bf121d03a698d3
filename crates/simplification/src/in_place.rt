// Simplification of a formula in its own tables.
ghost use Rattle.std.specs.Prelude.{◌≡◌, ◌-◌, ◌<◌, ◌≤◌, [], ◌++◌, length, take, replicate};
ghost use Rattle.formulas.specs.Tables.{slots, SameLoans, contents, held, laid, formula_at, standing as standing_of};
ghost use Rattle.simplification.specs.Simplify.{prune, simplify};
ghost use Rattle.simplification.specs.Tables.{blank_node, blank_term, padded, desk, taken_up, done, simplified, NoMore, SettlesIn};
ghost use Rattle.simplification.specs.Packed.{whole, Packed, filled, Ready};

use crate::compact::compact;
use crate::reach::reach;
use crate::settle::settle;
use formulas::node::{Fills, Node, StateNode, Term};
use formulas::refusal::Refusal;
use formulas::stands::{formula_in, layout_stands, tables_stand};
use formulas::tables::{Standing, Tables, TablesMut};

// Drops the nodes that the root does not reach.
fn cut(root: u32, tables: &mut TablesMut, map: &mut [u32]) -> Standing
    requires packed { Packed (held tables.old) }
    requires long { length map.old ≡ length tables.old.nodes.now }
    requires root { root < length tables.old.nodes.now }
    ensures lent { SameLoans tables.old tables.new }
    ensures answer { result ≡ standing_of (prune (whole root (held tables.old))) }
    ensures tables { held tables.new ≡ laid (prune (whole root (held tables.old))).lines (held tables.old) }
{
    map.fill(0);
    reach(root, tables.shared(), map);
    let fills = compact(tables, map);
    Standing {
        fills,
        root: map[root as usize],
    }
}

// Blanks what is not used, and clears the map.
fn tidy(used: Fills, tables: &mut TablesMut, map: &mut [u32])
    requires nodes { used.nodes ≤ length tables.old.nodes.now }
    requires terms { used.terms ≤ length tables.old.terms.now }
    requires alternatives { used.alternatives ≤ length tables.old.alternatives.now }
    ensures lent { SameLoans tables.old tables.new }
    ensures nodes { tables.new.nodes.now ≡ take used.nodes tables.old.nodes.now ++ replicate (length tables.old.nodes.now - used.nodes) blank_node }
    ensures terms { tables.new.terms.now ≡ take used.terms tables.old.terms.now ++ replicate (length tables.old.terms.now - used.terms) blank_term }
    ensures alternatives { tables.new.alternatives.now ≡ take used.alternatives tables.old.alternatives.now ++ replicate (length tables.old.alternatives.now - used.alternatives) 0 }
    ensures map { map.new ≡ padded (length map.old) 0 [] }
{
    tables.nodes[used.nodes as usize..].fill(Node::State(StateNode::Yes));
    tables.terms[used.terms as usize..].fill(Term {
        coefficient: 0,
        node: 0,
    });
    tables.alternatives[used.alternatives as usize..].fill(0);
    map.fill(0);
}

// Simplifies the formula that fills these tables. The map has an entry for each node.
// It takes slices: of parts of tables that a struct holds, a caller would not learn what they became.
fn shrink(
    root: u32,
    nodes: &mut [Node],
    terms: &mut [Term],
    alternatives: &mut [u32],
    map: &mut [u32],
) -> Standing
    requires packed { Packed (slots nodes.old terms.old alternatives.old) }
    requires long { length map.old ≡ length nodes.old }
    requires root { root < length nodes.old }
    ensures answer { result ≡ standing_of (simplify (whole root (slots nodes.old terms.old alternatives.old))) }
    ensures tables { slots nodes.new terms.new alternatives.new ≡ filled (simplify (whole root (slots nodes.old terms.old alternatives.old))).lines (slots nodes.old terms.old alternatives.old) }
    ensures map { map.new ≡ padded (length map.old) 0 [] }
{
    let mut tables = TablesMut {
        nodes,
        terms,
        alternatives,
    };
    settle(&mut tables, map);
    let top = map[root as usize];
    let standing = cut(top, &mut tables, map);
    tidy(standing.fills, &mut tables, map);
    standing
}

// Simplifies the formula that stands at the front of the tables, which come as slices, as `shrink` needs parts of them.
fn simplify_front(
    standing: Standing,
    nodes: &mut [Node],
    terms: &mut [Term],
    alternatives: &mut [u32],
    map: &mut [u32],
) -> Standing
    requires ready { Ready standing.fills standing.root (slots nodes.old terms.old alternatives.old) }
    requires room { standing.fills.nodes ≤ length map.old }
    ensures answer { result ≡ standing_of (simplify (formula_at standing.fills standing.root (slots nodes.old terms.old alternatives.old))) }
    ensures left { desk (slots nodes.new terms.new alternatives.new) map.new ≡ taken_up (simplify (formula_at standing.fills standing.root (slots nodes.old terms.old alternatives.old))) standing.fills (desk (slots nodes.old terms.old alternatives.old) map.old) }
{
    let fills = standing.fills;
    let count = fills.nodes as usize;
    shrink(
        standing.root,
        &mut nodes[..count],
        &mut terms[..fills.terms as usize],
        &mut alternatives[..fills.alternatives as usize],
        &mut map[..count],
    )
}

// Simplifies a formula in its own tables, `mass` having been removed, and says where it stands then.
// The map needs an entry for each node, and is cleared. A refusal changes nothing.
pub fn simplify_in_place(
    standing: Standing,
    mass: u64,
    tables: &mut TablesMut,
    map: &mut [u32],
) -> Result<Standing, Refusal>
    ensures lent { SameLoans tables.old tables.new }
    ensures outcome { done result (desk (held tables.new) map.new) ≡ simplified standing.fills standing.root mass (desk (held tables.old) map.old) }
    ensures fewer { NoMore standing.fills result }
    ensures settled { SettlesIn (held tables.new) result }
{
    if !formula_in(standing, mass, tables.shared()) {
        return Err(Refusal::NoFormula);
    }
    if map.len() < standing.fills.nodes as usize {
        return Err(Refusal::Short);
    }
    layout_stands();
    tables_stand();
    Ok(simplify_front(
        standing,
        tables.nodes,
        tables.terms,
        tables.alternatives,
        map,
    ))
}
