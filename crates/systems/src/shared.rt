// A system held in several places. Apart from that for a loan, as borrowed.rt says.
ghost use Rattle.std.proofs.Common.{rules};

use crate::system::{System, Target};
use std::rc::Rc;

impl<S: System> System for Rc<S> {
    ghost meaning = { λ r. S.System.meaning r.value };

    ghost sound = { Prim.search rules };

    fn states(&self) -> u32 {
        (**self).states()
    }

    fn mass(&self) -> u64 {
        (**self).mass()
    }

    fn breadth(&self) -> u32 {
        (**self).breadth()
    }

    fn moves(&self, state: u32, action: u32) -> u32 {
        (**self).moves(state, action)
    }

    fn targets(&self, state: u32, action: u32, mv: u32) -> u32 {
        (**self).targets(state, action, mv)
    }

    fn target(&self, state: u32, action: u32, mv: u32, index: u32) -> Option<Target> {
        (**self).target(state, action, mv, index)
    }
}
