// Sets of actions.
ghost use Rattle.std.specs.Prelude.{◌≡◌, ℕ, ◌<◌, ◌≤◌, false, ◌||◌, MatchOption, ◌==◌};
ghost use Rattle.systems.specs.Actions.{has};

// Each system has the actions 0 to 31.
pub const ACTIONS: u32 = 32;

// A set of actions, a bit for each.
#[derive(Clone, Copy, PartialEq, Debug)]
pub struct ActionSet {
    bits: u32,
}

impl ActionSet {
    pub fn empty() -> ActionSet
        ensures { (a : ℕ) → has result a ≡ false }
    {
        ActionSet { bits: 0 }
    }

    // The set with one more action, if that is an action.
    pub fn with(self, action: u32) -> Option<ActionSet>
        ensures { MatchOption result (31 < action) (λ s. (action ≤ 31) × ((a : ℕ) → has s a ≡ (a == action || has self a))) }
    {
        if action >= ACTIONS {
            return None;
        }
        Some(ActionSet {
            bits: self.bits | 1 << action,
        })
    }

    pub fn contains(&self, action: u32) -> bool
        ensures { result ≡ has self.now action }
    {
        action < ACTIONS && (self.bits >> action) % 2 == 1
    }
}
