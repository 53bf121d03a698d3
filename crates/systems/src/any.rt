// A system whose kind is known only when the program runs.
ghost use Rattle.systems.specs.Any.{any_meaning};
ghost use Rattle.std.proofs.Common.{rules};
ghost use Rattle.systems.specs.declared.any.AnySystem.TheVariants.{Component, Lane, Empty};
ghost use Rattle.systems.specs.SoundKinds.{sound_component};

use crate::component::Component;
use crate::empty::Empty;
use crate::lane::Lane;
use crate::system::{System, Target};

#[derive(Drop)]
pub enum AnySystem {
    Component(Component),
    Lane(Lane),
    Empty(Empty),
}

// Asks the system, whichever kind it is. A macro: none may hand out a `dyn`, and a method that takes a closure would have
// to say for each kind what it answers.
macro_rules! ask {
    ($any:expr, $system:ident => $question:expr) => {
        match $any {
            AnySystem::Component($system) => $question,
            AnySystem::Lane($system) => $question,
            AnySystem::Empty($system) => $question,
        }
    };
}

impl System for AnySystem {
    ghost meaning = { any_meaning };

    ghost sound = { elim [ Component s ↦ sound_component s | Lane s ↦ Prim.search rules | Empty s ↦ Prim.search rules ] };

    fn states(&self) -> u32 {
        ask!(self, s => s.states())
    }

    fn mass(&self) -> u64 {
        ask!(self, s => s.mass())
    }

    fn breadth(&self) -> u32 {
        ask!(self, s => s.breadth())
    }

    fn moves(&self, state: u32, action: u32) -> u32 {
        ask!(self, s => s.moves(state, action))
    }

    fn targets(&self, state: u32, action: u32, mv: u32) -> u32 {
        ask!(self, s => s.targets(state, action, mv))
    }

    fn target(&self, state: u32, action: u32, mv: u32, index: u32) -> Option<Target> {
        ask!(self, s => s.target(state, action, mv, index))
    }
}
