// Components at the limits of mounting.
use std::alloc::{AllocError, Global};
use systems::component::Component;
use systems::records::MoveRecord;
use systems::system::{System, Target};

// Mounts two tables and prints the answer.
fn try_mount(
    rt: &HostRuntime,
    label: &str,
    states: u32,
    moves: &[MoveRecord],
    targets: &[Target],
) -> anyhow::Result<()> {
    match Component::mount(rt.alloc(), states, moves, targets) {
        Ok(component) => {
            let states = component.states();
            let breadth = component.breadth();
            println!(rt; "{label}: {states} states, breadth {breadth}")?;
        }
        Err(fault) => {
            let (Some(number), Some(place)) = (fault.number(), fault.place()) else {
                return Err(AllocError.into());
            };
            println!(rt; "{label}: refused {number} at {place}")?;
        }
    }
    Ok(())
}

fn one_move(state: u32, action: u32, first: u32, count: u32) -> [MoveRecord; 1] {
    [MoveRecord {
        state,
        action,
        first,
        count,
    }]
}

const WHOLE: Target = Target {
    state: 0,
    weight: 1000,
};

// The same move so many times, each to state 0.
fn same_moves(heap: Global, count: usize) -> Result<Vec<MoveRecord>, AllocError> {
    let [record] = one_move(0, 0, 0, 1);
    vec![in heap; record; count]
}

// So many moves, two for each state and action.
fn spread_moves(heap: Global, count: u32) -> Result<Vec<MoveRecord>, AllocError> {
    (0..count)
        .map(|i| MoveRecord {
            state: i / 2 % 64,
            action: i / 128 % 32,
            first: 0,
            count: 1,
        })
        .collect(heap)
}

// So many targets of the same weight, and a last one.
fn many_targets(
    heap: Global,
    count: usize,
    weight: u64,
    last: u64,
) -> Result<Vec<Target>, AllocError> {
    let mut targets = vec![in heap; Target { state: 0, weight }; count]?;
    targets.push(Target {
        state: 0,
        weight: last,
    })?;
    Ok(targets)
}

fn try_sizes(rt: &HostRuntime) -> anyhow::Result<()> {
    let heap = rt.alloc();
    try_mount(rt, "no states", 0, &[], &[])?;
    try_mount(rt, "64 states", 64, &[], &[])?;
    try_mount(rt, "65 states", 65, &[], &[])?;
    try_mount(
        rt,
        "4096 moves",
        64,
        spread_moves(heap, 4096)?.as_slice(),
        &[WHOLE],
    )?;
    try_mount(
        rt,
        "4097 moves",
        64,
        spread_moves(heap, 4097)?.as_slice(),
        &[WHOLE],
    )?;
    try_mount(
        rt,
        "4096 targets",
        1,
        &[],
        many_targets(heap, 4095, 0, 0)?.as_slice(),
    )?;
    try_mount(
        rt,
        "4097 targets",
        1,
        &[],
        many_targets(heap, 4096, 0, 0)?.as_slice(),
    )
}

fn try_lists(rt: &HostRuntime) -> anyhow::Result<()> {
    let heap = rt.alloc();
    try_mount(
        rt,
        "64 targets",
        1,
        &one_move(0, 0, 0, 64),
        many_targets(heap, 63, 15, 55)?.as_slice(),
    )?;
    try_mount(
        rt,
        "65 targets",
        1,
        &one_move(0, 0, 0, 65),
        many_targets(heap, 64, 15, 40)?.as_slice(),
    )?;
    try_mount(rt, "no target", 1, &one_move(0, 0, 0, 0), &[WHOLE])?;
    try_mount(
        rt,
        "64 moves on an action",
        1,
        same_moves(heap, 64)?.as_slice(),
        &[WHOLE],
    )?;
    try_mount(
        rt,
        "65 moves on an action",
        1,
        same_moves(heap, 65)?.as_slice(),
        &[WHOLE],
    )?;
    try_mount(
        rt,
        "weights past 2^64",
        1,
        &one_move(0, 0, 0, 64),
        many_targets(heap, 63, u64::MAX, u64::MAX)?.as_slice(),
    )?;
    try_mount(
        rt,
        "a run past 2^32",
        1,
        &one_move(0, 0, u32::MAX, 1),
        &[WHOLE],
    )?;
    try_mount(
        rt,
        "a run past the table",
        1,
        &one_move(0, 0, 1, 1),
        &[WHOLE],
    )
}

fn try_records(rt: &HostRuntime) -> anyhow::Result<()> {
    let light = Target {
        state: 0,
        weight: 999,
    };
    let nothing = Target {
        state: 0,
        weight: 0,
    };
    let outside = Target {
        state: 1,
        weight: 1000,
    };
    try_mount(rt, "action 31", 1, &one_move(0, 31, 0, 1), &[WHOLE])?;
    try_mount(rt, "action 32", 1, &one_move(0, 32, 0, 1), &[WHOLE])?;
    try_mount(rt, "a state outside", 1, &one_move(1, 0, 0, 1), &[WHOLE])?;
    try_mount(rt, "a target outside", 1, &one_move(0, 0, 0, 1), &[outside])?;
    try_mount(
        rt,
        "a target that no move has",
        1,
        &one_move(0, 0, 1, 1),
        &[outside, WHOLE],
    )?;
    try_mount(
        rt,
        "a weight of 0",
        1,
        &one_move(0, 0, 0, 2),
        &[WHOLE, nothing],
    )?;
    try_mount(rt, "weights of 999", 1, &one_move(0, 0, 0, 1), &[light])?;
    let [first] = one_move(0, 0, 0, 1);
    let [second] = one_move(9, 0, 0, 1);
    try_mount(
        rt,
        "weights at 0 before a record at 1",
        1,
        &[first, second],
        &[light],
    )?;
    try_mount(rt, "a record at 1", 1, &[first, second], &[WHOLE])
}

pub fn try_components(rt: &HostRuntime) -> anyhow::Result<()> {
    try_sizes(rt)?;
    try_lists(rt)?;
    try_records(rt)
}
