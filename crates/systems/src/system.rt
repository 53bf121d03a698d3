// What every system answers, and what the answers mean.
ghost use Rattle.std.specs.Prelude.{◌≡◌, [], length, slice_index_or};
ghost use Rattle.std.specs.List.{slice_get};
ghost use Rattle.systems.specs.Meaning.{Meaning, Sound};

// A state and the weight with which a move goes to it.
#[derive(Clone, Copy, PartialEq, Debug)]
pub struct Target {
    pub state: u32,
    pub weight: u64,
}

// What answers the six questions. A question changes nothing, so it always gets the same answer. Out
// of range, a count is 0 and a target is absent.
pub trait System {
    // The states, the mass, the breadth and all the lists of moves.
    ghost meaning: { Self → Meaning };

    // How many states there are; the first is state 0.
    fn states(&self) -> u32
        ensures { result ≡ (meaning self.now).states };

    // What the weights of each move add up to.
    fn mass(&self) -> u64
        ensures { result ≡ (meaning self.now).mass };

    // A bound on the length of each list of moves or targets.
    fn breadth(&self) -> u32
        ensures { result ≡ (meaning self.now).breadth };

    // How many moves a state has on an action.
    fn moves(&self, state: u32, action: u32) -> u32
        ensures { result ≡ length ((meaning self.now).moves state action) };

    // How many targets the move of a number has.
    fn targets(&self, state: u32, action: u32, mv: u32) -> u32
        ensures { result ≡ length (slice_index_or ((meaning self.now).moves state action) mv []) };

    // The target at an index of a move.
    fn target(&self, state: u32, action: u32, mv: u32, index: u32) -> Option<Target>
        ensures { result ≡ slice_get (slice_index_or ((meaning self.now).moves state action) mv []) index };

    // The meaning keeps the rules and the limits.
    ghost sound: { (x : Self) → Sound (meaning x) };
}
