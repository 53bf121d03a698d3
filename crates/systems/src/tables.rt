// Whether two tables make a component, and how broad it is.
ghost use Rattle.std.specs.Prelude.{◌≡◌, ◌+◌, ◌≤◌, length, take, drop, slice_index, Some, None, Ok, Err};
ghost use Rattle.systems.specs.Meaning.{total};
ghost use Rattle.systems.specs.Tables.{cell_of, fits_alone, good_run, longest};
ghost use Rattle.systems.specs.Mounts.{record_fault, first_fault, mount_fault, blamed};

use crate::actions::ACTIONS;
use crate::fault::MountFault;
use crate::records::MoveRecord;
use crate::system::Target;

const MOST_STATES: u32 = 64;

const MOST_RECORDS: usize = 4096;

const MOST_LISTED: u32 = 64;

// What the weights of each move of a component add up to.
pub(crate) const MASS: u64 = 1000;

const CELLS: usize = MOST_STATES as usize * ACTIONS as usize;

// The place of a state and an action among those of all states.
pub(crate) fn cell(state: u32, action: u32) -> usize
    ensures { result ≡ cell_of state action }
{
    state as usize * ACTIONS as usize + action as usize
}

// Whether a record keeps the rules that ask for no other record.
fn fits_alone(states: u32, places: usize, r: MoveRecord) -> bool
    ensures { result ≡ fits_alone states places r }
{
    r.state < states
        && r.action < ACTIONS
        && r.count >= 1
        && r.count <= MOST_LISTED
        && r.first as usize + r.count as usize <= places
}

// The targets of a record.
pub(crate) fn run_of(targets: &[Target], r: MoveRecord) -> &[Target]
    requires { r.first + r.count ≤ length targets.now }
    ensures { result.now ≡ take r.count (drop r.first targets.now) }
{
    let first = r.first as usize;
    &targets[first..first + r.count as usize]
}

// Whether each target goes to one of the states, with some weight.
fn all_good(states: u32, list: &[Target]) -> bool
    ensures { result ≡ good_run states list.now }
{
    list.iter().all(|t| t.state < states && t.weight >= 1)
}

// The weights added up.
fn weigh(list: &[Target]) -> u128
    requires { length list.now ≤ 64 }
    ensures { result ≡ total list.now }
{
    list.iter().map(|t| t.weight as u128).sum()
}

// Which one of its state and action the record is, counted from 1, or what is wrong with it, where
// `earlier` counts the records before it.
fn ordinal(
    states: u32,
    targets: &[Target],
    earlier: &[u8],
    i: u32,
    r: MoveRecord,
) -> Result<u8, MountFault>
    requires bound { states ≤ 64 }
    requires cells { length earlier.now ≡ 2048 }
    ensures { elim result [ Ok nth ↦ (record_fault states targets.now (slice_index earlier.now (cell_of r.state r.action) + 1) i r ≡ None) × (nth ≡ slice_index earlier.now (cell_of r.state r.action) + 1) | Err f ↦ record_fault states targets.now (slice_index earlier.now (cell_of r.state r.action) + 1) i r ≡ Some f ] }
{
    if !fits_alone(states, targets.len(), r) {
        return Err(MountFault::Record(i));
    }
    let before = earlier[cell(r.state, r.action)];
    if before as u32 >= MOST_LISTED {
        return Err(MountFault::Record(i));
    }
    let list = run_of(targets, r);
    if !all_good(states, list) {
        return Err(MountFault::Record(i));
    }
    if weigh(list) != MASS as u128 {
        return Err(MountFault::Weights(i));
    }
    Ok(before + 1)
}

// The length of the longest list of moves or targets, and at least 2; or what is wrong with the
// first record that is.
fn walk(states: u32, rows: &[MoveRecord], targets: &[Target]) -> Result<u32, MountFault>
    requires bound { states ≤ 64 }
    requires short { length rows.now ≤ 4096 }
    ensures { elim result [ Ok b ↦ (first_fault states rows.now targets.now (length rows.now) ≡ None) × (b ≡ longest rows.now (length rows.now)) | Err f ↦ first_fault states rows.now targets.now (length rows.now) ≡ blamed f ] }
{
    // One count for each state and action; a local array, so that nothing is allocated for tables that are refused.
    let mut earlier = [0u8; CELLS];
    let mut breadth: u32 = 2;
    for (i, r) in rows.iter().enumerate() {
        let nth = ordinal(states, targets, &earlier, i as u32, *r)?;
        earlier[cell(r.state, r.action)] = nth;
        breadth = breadth.max(r.count).max(nth as u32);
    }
    Ok(breadth)
}

// The breadth of the component that two tables make, or why they make none.
pub(crate) fn survey(
    states: u32,
    rows: &[MoveRecord],
    targets: &[Target],
) -> Result<u32, MountFault>
    ensures { elim result [ Ok b ↦ (mount_fault states rows.now targets.now ≡ None) × (b ≡ longest rows.now (length rows.now)) | Err f ↦ mount_fault states rows.now targets.now ≡ blamed f ] }
{
    if states < 1
        || states > MOST_STATES
        || rows.len() > MOST_RECORDS
        || targets.len() > MOST_RECORDS
    {
        return Err(MountFault::Record(0));
    }
    walk(states, rows, targets)
}
