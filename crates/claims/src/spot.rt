// Moves and points of a system, by their places.
ghost use Rattle.std.specs.Prelude.{◌≡◌, [], ◌∷◌, length};
ghost use Rattle.std.specs.List.{slice_get};
ghost use Rattle.claims.specs.Spots.{spot_of};

use systems::system::{System, Target};

// A move, by state, action and number, or the point of a state.
#[derive(Clone, Copy)]
pub(crate) enum Spot {
    Along(u32, u32, u32),
    Here(u32),
}

impl Spot {
    // How many targets there are.
    pub(crate) fn targets<S: System>(self, system: &S) -> u32
        ensures { result ≡ length (spot_of (S.meaning system.now) self) }
    {
        match self {
            Spot::Along(state, action, place) => system.targets(state, action, place),
            Spot::Here(_) => 1,
        }
    }

    pub(crate) fn target<S: System>(self, system: &S, index: u32) -> Option<Target>
        ensures { result ≡ slice_get (spot_of (S.meaning system.now) self) index }
    {
        match self {
            Spot::Along(state, action, place) => system.target(state, action, place, index),
            Spot::Here(state) => point(state, system.mass(), index),
        }
    }
}

// The targets of a point: the state itself, with the whole mass.
fn point(state: u32, mass: u64, index: u32) -> Option<Target>
    ensures { result ≡ slice_get (record { state = state; weight = mass } ∷ []) index }
{
    (index == 0).then_some(Target {
        state,
        weight: mass,
    })
}
