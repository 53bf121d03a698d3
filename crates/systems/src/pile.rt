// A system over another.
ghost use Rattle.std.specs.Prelude.{◌≡◌, ◌+◌, ◌*◌, ◌≤◌, Some, None, Ok, Err, MatchOption};
ghost use Rattle.systems.specs.Actions.{has};
ghost use Rattle.systems.specs.Meaning.{Limited};
ghost use Rattle.systems.specs.Piles.{over, pile, refusal};
ghost use Rattle.systems.specs.PileLaw.{PileLaw};
ghost use Rattle.systems.specs.Splits.{Split};
ghost use Rattle.systems.specs.PiledSound.{ruled_pile};

use crate::actions::ActionSet;
use crate::fault::Fault;
use crate::system::{System, Target};

const LARGEST_SIZE: u64 = 1_073_741_824;

const LARGEST_MASS: u128 = 1_000_000_000_000_000;

// The upper system over the lower one: they take part together in the actions of the shared set, and
// move apart in the others.
#[derive(Drop)]
pub struct Pile<U: System, L: System> {
    upper: U,
    lower: L,
    shared: ActionSet,
    // Kept: asked of the parts anew, each would take as many questions as the pile has parts.
    states: u32,
    mass: u64,
    breadth: u32,
    ghost counted: { states ≡ (U.System.meaning upper).states * (L.System.meaning lower).states },
    ghost weighed: { mass ≡ (U.System.meaning upper).mass * (L.System.meaning lower).mass },
    ghost broad: { breadth ≡ (U.System.meaning upper).breadth * (L.System.meaning lower).breadth },
    ghost limited: { Limited (pile (has shared) (U.System.meaning upper) (L.System.meaning lower)) },
}

impl<U: System, L: System> Pile<U, L> {
    // The pile of two systems, or both of them back with the reason why there is none.
    pub fn new(upper: U, lower: L, shared: ActionSet) -> Result<Pile<U, L>, (U, L, Fault)>
        ensures { elim result [ Ok p ↦ (refusal (U.System.meaning upper) (L.System.meaning lower) ≡ None) × (⟦<Pile<U, L> as System>⟧.meaning p ≡ pile (has shared) (U.System.meaning upper) (L.System.meaning lower)) × (p.upper ≡ upper) × (p.lower ≡ lower) × (p.shared ≡ shared) | Err e ↦ (refusal (U.System.meaning upper) (L.System.meaning lower) ≡ Some e.2) × (e.0 ≡ upper) × (e.1 ≡ lower) ] }
    {
        let states = upper.states() as u64 * lower.states() as u64;
        let breadth = upper.breadth() as u64 * lower.breadth() as u64;
        if states > LARGEST_SIZE || breadth > LARGEST_SIZE {
            return Err((upper, lower, Fault::Size));
        }
        let mass = upper.mass() as u128 * lower.mass() as u128;
        if mass > LARGEST_MASS {
            return Err((upper, lower, Fault::Mass));
        }
        Ok(Pile {
            upper,
            lower,
            shared,
            states: states as u32,
            mass: mass as u64,
            breadth: breadth as u32,
        })
    }

    // The states of the two parts in a state of the pile.
    fn split(&self, state: u32) -> Option<(u32, u32)>
        ensures { MatchOption result ((U.System.meaning self.now.upper).states * (L.System.meaning self.now.lower).states ≤ state) (λ p. Split (has self.now.shared) (U.System.meaning self.now.upper) (L.System.meaning self.now.lower) state p.0 p.1) }
    {
        if state >= self.states {
            return None;
        }
        let k = self.lower.states();
        Some((state / k, state % k))
    }
}

// An upper target over a lower one, where the lower system has `k` states.
fn over(k: u32, x: Target, y: Target) -> Target
    requires { (x.state * k + y.state ≤ 1073741824) × (x.weight * y.weight ≤ 1000000000000000) }
    ensures { result ≡ over k x y }
{
    Target {
        state: x.state * k + y.state,
        weight: x.weight * y.weight,
    }
}

impl<U: System, L: System> System for Pile<U, L> {
    ghost meaning = { λ p. pile (has p.shared) (U.System.meaning p.upper) (L.System.meaning p.lower) };

    ghost sound = { λ p. record {
      ruled = ruled_pile (has p.shared) (U.System.meaning p.upper) (L.System.meaning p.lower) (U.System.sound p.upper).ruled (L.System.sound p.lower).ruled;
      limited = p.limited;
    } };

    fn states(&self) -> u32 {
        self.states
    }

    fn mass(&self) -> u64 {
        self.mass
    }

    fn breadth(&self) -> u32 {
        self.breadth
    }

    fn moves(&self, state: u32, action: u32) -> u32 {
        let Some((u, v)) = self.split(state) else {
            return 0;
        };
        let up = self.upper.moves(u, action);
        let low = self.lower.moves(v, action);
        if self.shared.contains(action) {
            up * low
        } else {
            up + low
        }
    }

    fn targets(&self, state: u32, action: u32, mv: u32) -> u32 {
        let Some((u, v)) = self.split(state) else {
            return 0;
        };
        if self.shared.contains(action) {
            let low = self.lower.moves(v, action);
            if low == 0 {
                return 0;
            }
            return self.upper.targets(u, action, mv / low)
                * self.lower.targets(v, action, mv % low);
        }
        let up = self.upper.moves(u, action);
        if mv < up {
            self.upper.targets(u, action, mv)
        } else {
            self.lower.targets(v, action, mv - up)
        }
    }

    fn target(&self, state: u32, action: u32, mv: u32, index: u32) -> Option<Target> {
        let (u, v) = self.split(state)?;
        let k = self.lower.states();
        if self.shared.contains(action) {
            let low = self.lower.moves(v, action);
            if low == 0 {
                return None;
            }
            let n = self.lower.targets(v, action, mv % low);
            if n == 0 {
                return None;
            }
            let x = self.upper.target(u, action, mv / low, index / n)?;
            let y = self.lower.target(v, action, mv % low, index % n)?;
            return Some(over(k, x, y));
        }
        let up = self.upper.moves(u, action);
        if mv < up {
            let x = self.upper.target(u, action, mv, index)?;
            let weight = self.lower.mass();
            Some(over(k, x, Target { state: v, weight }))
        } else {
            let y = self.lower.target(v, action, mv - up, index)?;
            let weight = self.upper.mass();
            Some(over(k, Target { state: u, weight }, y))
        }
    }
}

// The law of piles.
pub fn pile_stands()
    ensures { PileLaw }
{}
