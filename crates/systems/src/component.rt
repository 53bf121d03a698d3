// A component: the moves of two tables, grouped by state and action.
ghost use Rattle.std.specs.Prelude.{◌≡◌, ◌*◌, ◌<◌, ◌≤◌, true, map, length, All, IfOk, None, Ok, Err, vec_items};
ghost use Rattle.systems.specs.Index.{index_meaning, good_index, listed, Grouped};
ghost use Rattle.systems.specs.Meaning.{Between};
ghost use Rattle.systems.specs.Mounts.{mount_fault, blamed};
ghost use Rattle.systems.specs.Tables.{table_meaning};
ghost use Rattle.systems.specs.Indexed.{sound_index};

use crate::actions::ACTIONS;
use crate::fault::MountFault;
use crate::records::MoveRecord;
use crate::system::{System, Target};
use crate::tables::{MASS, cell, run_of, survey};
use std::alloc::{AllocError, Global};

// The moves of each state and action are a list of records of their own, so that every question is
// answered in constant time.
#[derive(Drop)]
pub struct Component {
    states: u32,
    breadth: u32,
    cells: Vec<Vec<MoveRecord>>,
    targets: Vec<Target>,
    ghost counted: { Between 1 64 states },
    ghost broad: { Between 2 64 breadth },
    ghost covered: { length cells.items ≡ states * 32 },
    ghost short: { length targets.items ≤ 4096 },
    ghost good: { good_index states breadth (map vec_items cells.items) targets.items ≡ true },
}

// The records by state and action, in the order of the table.
fn grouped(
    heap: Global,
    states: u32,
    rows: &[MoveRecord],
) -> Result<Vec<Vec<MoveRecord>>, AllocError>
    requires { All (λ (r : MoveRecord). (r.state < states) × (r.action < 32)) rows.now }
    ensures { IfOk result (λ v. Grouped states rows.now (length rows.now) (map vec_items v.items)) }
{
    let mut cells = Vec::new(heap);
    cells.resize_with(states as usize * ACTIONS as usize, || Vec::new(heap))?;
    for r in rows {
        cells[cell(r.state, r.action)].push(*r)?;
    }
    Ok(cells)
}

impl Component {
    // The component that two tables make: what it means is what the tables mean.
    pub fn mount(
        heap: Global,
        states: u32,
        moves: &[MoveRecord],
        targets: &[Target],
    ) -> Result<Component, MountFault>
        ensures { elim result [ Ok v ↦ (mount_fault states moves.now targets.now ≡ None) × (⟦<Component as System>⟧.meaning v ≡ table_meaning states moves.now targets.now) | Err f ↦ mount_fault states moves.now targets.now ≡ blamed f ] }
    {
        let breadth = survey(states, moves, targets)?;
        let cells = grouped(heap, states, moves)?;
        let targets = Vec::from_slice(heap, targets)?;
        Ok(Component {
            states,
            breadth,
            cells,
            targets,
        })
    }

    // The records of a state and an action.
    fn listed(&self, state: u32, action: u32) -> &[MoveRecord]
        ensures { result.now ≡ listed self.now.states (map vec_items self.now.cells.items) state action }
    {
        if state >= self.states || action >= ACTIONS {
            return &[];
        }
        self.cells[cell(state, action)].as_slice()
    }
}

impl System for Component {
    ghost meaning = { λ c. index_meaning c.states c.breadth (map vec_items c.cells.items) c.targets.items };

    ghost sound = { λ x. sound_index x.states x.breadth x.targets.items (map vec_items x.cells.items) x.good x.counted x.broad };

    fn states(&self) -> u32 {
        self.states
    }

    fn mass(&self) -> u64 {
        MASS
    }

    fn breadth(&self) -> u32 {
        self.breadth
    }

    fn moves(&self, state: u32, action: u32) -> u32 {
        self.listed(state, action).len() as u32
    }

    fn targets(&self, state: u32, action: u32, mv: u32) -> u32 {
        self.listed(state, action)
            .get(mv as usize)
            .map_or(0, |r| r.count)
    }

    fn target(&self, state: u32, action: u32, mv: u32, index: u32) -> Option<Target> {
        let r = self.listed(state, action).get(mv as usize)?;
        run_of(&self.targets, *r).get(index as usize).copied()
    }
}
