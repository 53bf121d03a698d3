// The entries of a formula's tables.
ghost use Rattle.std.specs.Prelude.{◌≡◌};
ghost use Rattle.formulas.specs.Lines.{entries};

// A run of consecutive entries of a table.
#[derive(Clone, Copy, PartialEq, Debug)]
pub struct Run {
    pub first: u32,
    pub count: u32,
}

impl Run {
    // The entries of the run; of a table that ends before it, those that are there.
    pub fn entries<T>(self, table: &[T]) -> &[T]
        ensures { result.now ≡ entries table.now self }
    {
        let first = table.len().min(self.first as usize);
        let end = table.len().min(first + self.count as usize);
        &table[first..end]
    }
}

// A term of a sum: how much the states that satisfy a node count.
#[derive(Clone, Copy, PartialEq, Debug, Default)]
pub struct Term {
    pub coefficient: u64,
    pub node: u32,
}

// What is said of a state.
#[derive(Clone, Copy, PartialEq, Debug)]
pub enum StateNode {
    Yes,
    No,
    And(u32, u32),
    Not(u32),
    // Some move on the action satisfies a move alternative, or the state's point satisfies a here alternative.
    Step { action: u32, moves: Run, heres: Run },
}

// What is said of a move or of a point.
#[derive(Clone, Copy, PartialEq, Debug)]
pub enum DistNode {
    Yes,
    No,
    And(u32, u32),
    Not(u32),
    // The terms weigh at least the threshold, in thousandths of the mass.
    Sum { threshold: u64, terms: Run },
}

// A node is of the state sort or of the distribution sort. Each sort has an enum of its own, so that no node has a kind of the other.
#[derive(Clone, Copy, PartialEq, Debug)]
pub enum Node {
    State(StateNode),
    Dist(DistNode),
}

// How many entries of each table a formula uses.
#[derive(Clone, Copy, PartialEq, Debug)]
pub struct Fills {
    pub nodes: u32,
    pub terms: u32,
    pub alternatives: u32,
}
