// How many entries a quotient takes. Counts stop at the largest number.
ghost use Rattle.std.specs.Prelude.{◌≡◌, ◌*◌, sum_by};
ghost use Rattle.systems.specs.Actions.{has};
ghost use Rattle.quotient.specs.Divisions.{room_for};
ghost use Rattle.quotient.specs.Plans.{topped, targets_on, targets_from, all_targets, step_need, steps_need, alternative_need};

use formulas::node::{Node, StateNode};
use formulas::refusal::Refusal;
use systems::actions::{ACTIONS, ActionSet};
use systems::system::System;

// The most entries that a table may use.
const MOST_ENTRIES: u64 = 1048576;

// The targets of the moves of a state on an action.
// A loop, as those over ranges below: of a fold over a range the library gives no equation.
fn targets_on<S: System>(system: &S, state: u32, action: u32) -> u64
    ensures { result ≡ topped (targets_on (S.meaning system.now) state action) }
{
    let mut sum: u64 = 0;
    let count = system.moves(state, action);
    for k in 0..count {
        sum = sum.saturating_add(system.targets(state, action, k) as u64);
    }
    sum
}

// The targets of the moves of a state.
fn targets_from<S: System>(system: &S, state: u32) -> u64
    ensures { result ≡ topped (targets_from (S.meaning system.now) state) }
{
    let mut sum: u64 = 0;
    for action in 0..ACTIONS {
        sum = sum.saturating_add(targets_on(system, state, action));
    }
    sum
}

// The targets of all rows.
fn all_targets<S: System>(system: &S) -> u64
    ensures { result ≡ topped (all_targets (S.meaning system.now)) }
{
    let n = system.states();
    let mut sum = n as u64;
    for p in 0..n {
        sum = sum.saturating_add(targets_from(system, p));
    }
    sum
}

// The terms of the quotient of a formula that has so many: each gives one for each target of a row.
// Without terms there may be far more rows than lines, so then no target is counted.
pub(crate) fn terms_need<S: System>(system: &S, terms: usize) -> u64
    ensures { result ≡ topped (terms * all_targets (S.meaning system.now)) }
{
    if terms == 0 {
        return 0;
    }
    (terms as u64).saturating_mul(all_targets(system))
}

// The alternatives that a step gives in a state of `k` moves, if it has `m` move and `h` here alternatives.
fn step_need(shared: bool, m: u32, h: u32, k: u32) -> u64
    ensures { result ≡ topped (step_need shared m h k) }
{
    let both = (m as u64).saturating_mul(k as u64).saturating_add(h as u64);
    if shared {
        both
    } else {
        both.saturating_add(m as u64)
    }
}

// The alternatives that it gives in all states.
fn steps_need<S: System>(system: &S, shared: bool, action: u32, m: u32, h: u32) -> u64
    ensures { result ≡ topped (steps_need (S.meaning system.now) shared action m h) }
{
    let n = system.states();
    let mut sum: u64 = 0;
    for p in 0..n {
        sum = sum.saturating_add(step_need(shared, m, h, system.moves(p, action)));
    }
    sum
}

// The alternatives that a node gives.
fn alternative_need<S: System>(system: &S, shared: ActionSet, node: Node) -> u64
    ensures { result ≡ topped (alternative_need (has shared) (S.meaning system.now) node) }
{
    match node {
        Node::State(
            StateNode::Step {
                action,
                moves,
                heres,
            },
        ) => steps_need(
            system,
            shared.contains(action),
            action,
            moves.count,
            heres.count,
        ),
        _ => 0,
    }
}

// The alternatives that all nodes give.
pub(crate) fn alternatives_need<S: System>(system: &S, shared: ActionSet, nodes: &[Node]) -> u64
    ensures { result ≡ topped (sum_by (alternative_need (has shared) (S.meaning system.now)) nodes.now) }
{
    nodes
        .iter()
        .map(|node| alternative_need(system, shared, *node))
        .fold(0, u64::saturating_add)
}

// The room that so many entries take in a table of that length.
pub(crate) fn room(len: usize, need: u64) -> Result<u32, Refusal>
    ensures { result ≡ room_for len need }
{
    if need <= len as u64 && need <= MOST_ENTRIES {
        Ok(need as u32)
    } else {
        Err(Refusal::Short)
    }
}
