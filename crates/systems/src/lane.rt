// A lane: jobs are put and taken, and a put may be lost. Its state is the number of waiting jobs.
ghost use Rattle.std.specs.Prelude.{◌≡◌, ◌<◌, ◌≤◌, ◌&&◌, ◌==◌, true, false, nat_le, nat_lt, Ok, Err};
ghost use Rattle.systems.specs.Meaning.{Between};
ghost use Rattle.systems.specs.Kinds.{lane_meaning, lane_numbers};
ghost use Rattle.std.proofs.Common.{rules};

use crate::actions::ACTIONS;
use crate::fault::Fault;
use crate::system::{System, Target};

const MOST_WAITING: u32 = 60;

// What the weights of each move add up to.
const MASS: u32 = 1000;

#[derive(Clone, Copy)]
pub struct Lane {
    capacity: u32,
    put: u32,
    take: u32,
    loss: u32,
    // Four facts, since from one, that `lane_numbers` is true, the law `sound` was not found.
    ghost counted: { Between 1 60 capacity },
    ghost acts: { (put < 32) × (take < 32) },
    ghost apart: { put ≡ take → ⊥ },
    ghost partly: { loss ≤ 999 },
}

impl Lane {
    // A lane for so many waiting jobs, with different actions to put and to take one; of 1,000 puts
    // `loss` are lost.
    pub fn new(capacity: u32, put: u32, take: u32, loss: u32) -> Result<Lane, Fault>
        ensures { elim result [ Ok v ↦ (lane_numbers capacity put take loss ≡ true) × (⟦<Lane as System>⟧.meaning v ≡ lane_meaning capacity put take loss) | Err e ↦ (lane_numbers capacity put take loss ≡ false) × (e ≡ Fault.Number) ] }
    {
        if capacity < 1
            || capacity > MOST_WAITING
            || put >= ACTIONS
            || take >= ACTIONS
            || put == take
            || loss > 999
        {
            return Err(Fault::Number);
        }
        Ok(Lane {
            capacity,
            put,
            take,
            loss,
        })
    }

    // Whether the action puts a job in the state.
    fn puts(&self, state: u32, action: u32) -> bool
        ensures { result ≡ (action == self.now.put && nat_lt state self.now.capacity) }
    {
        action == self.put && state < self.capacity
    }

    // Whether the action takes a job in the state.
    fn takes(&self, state: u32, action: u32) -> bool
        ensures { result ≡ (action == self.now.take && (nat_lt 0 state && nat_le state self.now.capacity)) }
    {
        action == self.take && 0 < state && state <= self.capacity
    }
}

impl System for Lane {
    ghost meaning = { λ v. lane_meaning v.capacity v.put v.take v.loss };

    ghost sound = { Prim.search rules };

    fn states(&self) -> u32 {
        self.capacity + 1
    }

    fn mass(&self) -> u64 {
        MASS as u64
    }

    fn breadth(&self) -> u32 {
        2
    }

    fn moves(&self, state: u32, action: u32) -> u32 {
        u32::from(self.puts(state, action) || self.takes(state, action))
    }

    fn targets(&self, state: u32, action: u32, mv: u32) -> u32 {
        if mv != 0 {
            0
        } else if self.puts(state, action) {
            1 + u32::from(self.loss > 0)
        } else {
            u32::from(self.takes(state, action))
        }
    }

    fn target(&self, state: u32, action: u32, mv: u32, index: u32) -> Option<Target> {
        if mv != 0 {
            return None;
        }
        if self.puts(state, action) {
            return match index {
                0 => Some(Target {
                    state: state + 1,
                    weight: (MASS - self.loss) as u64,
                }),
                1 if self.loss > 0 => Some(Target {
                    state,
                    weight: self.loss as u64,
                }),
                _ => None,
            };
        }
        if self.takes(state, action) && index == 0 {
            return Some(Target {
                state: state - 1,
                weight: MASS as u64,
            });
        }
        None
    }
}
