// The two sorts of terms, and the nodes that both have: values, since the text says which; simplification has a trait.
ghost use Rattle.std.specs.Prelude.{◌≡◌};
ghost use Rattle.formulas.specs.Layout.{constant_node, both_node, non_node};
ghost use Rattle.formulas.specs.Productions.{sort_of};

use crate::node::{DistNode, Node, StateNode};

#[derive(Clone, Copy)]
pub(crate) enum Sort {
    State,
    Dist,
}

impl Sort {
    pub(crate) fn constant(self, yes: bool) -> Node
        ensures { result ≡ constant_node (sort_of self) yes }
    {
        match (self, yes) {
            (Sort::State, true) => Node::State(StateNode::Yes),
            (Sort::State, false) => Node::State(StateNode::No),
            (Sort::Dist, true) => Node::Dist(DistNode::Yes),
            (Sort::Dist, false) => Node::Dist(DistNode::No),
        }
    }

    pub(crate) fn both(self, a: u32, b: u32) -> Node
        ensures { result ≡ both_node (sort_of self) a b }
    {
        match self {
            Sort::State => Node::State(StateNode::And(a, b)),
            Sort::Dist => Node::Dist(DistNode::And(a, b)),
        }
    }

    pub(crate) fn non(self, a: u32) -> Node
        ensures { result ≡ non_node (sort_of self) a }
    {
        match self {
            Sort::State => Node::State(StateNode::Not(a)),
            Sort::Dist => Node::Dist(DistNode::Not(a)),
        }
    }
}
