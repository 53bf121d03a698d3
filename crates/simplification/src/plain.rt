// The kinds of nodes that both sorts have: a trait, since a sort is a type here, and in a text a value.
ghost use Rattle.std.specs.Prelude.{◌≡◌};
ghost use Rattle.formulas.specs.declared.node.Node.{Node};
ghost use Rattle.formulas.specs.declared.node.Node.TheVariants.{State, Dist};
ghost use Rattle.formulas.specs.Lines.{Sort, state, dist};
ghost use Rattle.formulas.specs.Layout.{constant_node, both_node, non_node};

use formulas::node::{DistNode, StateNode};

// The nodes of a sort: yes and no, and, not.
pub(crate) trait Plain: Copy {
    ghost sort: { Sort };

    ghost node: { Self → Node };

    fn constant(yes: bool) -> Self
        ensures { node result ≡ constant_node sort yes };

    fn and(a: u32, b: u32) -> Self
        ensures { node result ≡ both_node sort a b };

    fn not(a: u32) -> Self
        ensures { node result ≡ non_node sort a };
}

impl Plain for StateNode {
    ghost sort = { state };

    ghost node = { State };

    fn constant(yes: bool) -> StateNode {
        if yes { StateNode::Yes } else { StateNode::No }
    }

    fn and(a: u32, b: u32) -> StateNode {
        StateNode::And(a, b)
    }

    fn not(a: u32) -> StateNode {
        StateNode::Not(a)
    }
}

impl Plain for DistNode {
    ghost sort = { dist };

    ghost node = { Dist };

    fn constant(yes: bool) -> DistNode {
        if yes { DistNode::Yes } else { DistNode::No }
    }

    fn and(a: u32, b: u32) -> DistNode {
        DistNode::And(a, b)
    }

    fn not(a: u32) -> DistNode {
        DistNode::Not(a)
    }
}
