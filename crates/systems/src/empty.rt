// The empty system of a shared set: it has one state, and takes part in every shared action.
ghost use Rattle.std.specs.Prelude.{◌≡◌, ◌&&◌, ◌==◌};
ghost use Rattle.systems.specs.Actions.{has};
ghost use Rattle.systems.specs.Kinds.{empty_meaning};
ghost use Rattle.std.proofs.Common.{rules};

use crate::actions::ActionSet;
use crate::system::{System, Target};

#[derive(Clone, Copy)]
pub struct Empty {
    pub shared: ActionSet,
}

impl Empty {
    // Whether the state takes part in the action.
    fn takes_part(&self, state: u32, action: u32) -> bool
        ensures { result ≡ (state == 0 && has self.now.shared action) }
    {
        state == 0 && self.shared.contains(action)
    }
}

impl System for Empty {
    ghost meaning = { λ e. empty_meaning (has e.shared) };

    ghost sound = { Prim.search rules };

    fn states(&self) -> u32 {
        1
    }

    fn mass(&self) -> u64 {
        1
    }

    fn breadth(&self) -> u32 {
        2
    }

    fn moves(&self, state: u32, action: u32) -> u32 {
        u32::from(self.takes_part(state, action))
    }

    fn targets(&self, state: u32, action: u32, mv: u32) -> u32 {
        u32::from(self.takes_part(state, action) && mv == 0)
    }

    fn target(&self, state: u32, action: u32, mv: u32, index: u32) -> Option<Target> {
        let goes = self.takes_part(state, action) && mv == 0 && index == 0;
        goes.then_some(Target {
            state: 0,
            weight: 1,
        })
    }
}
