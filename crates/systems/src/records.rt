// The records of the table of moves from which a component is mounted.

// A move of a state on an action: its targets are the `count` target records from place `first` on.
#[derive(Clone, Copy, PartialEq, Debug)]
pub struct MoveRecord {
    pub state: u32,
    pub action: u32,
    pub first: u32,
    pub count: u32,
}
