// What is at hand while a formula is judged node by node.
ghost use Rattle.std.specs.Prelude.{◌≡◌, ⊤};
ghost use Rattle.claims.specs.Boards.{Board};
ghost use Rattle.claims.specs.Props.{Board-prop, Placed-prop};
ghost use Rattle.claims.specs.Spots.{Placed};

use crate::spot::Spot;
use crate::tables::Tables;
use crate::truths::Truths;
use std::alloc::AllocError;
use systems::system::System;

// A formula in its tables, a system that it may be judged on, and the truths of the nodes before `upto`.
pub(crate) struct Board<'a, 'b, S: System> {
    pub system: &'a S,
    pub tables: Tables<'a>,
    pub upto: usize,
    pub truths: Truths<'b>,
    ghost known: { Board (S.meaning system.now) tables upto truths.states truths.bytes.now } by { Board-prop (S.meaning system.now) tables upto truths.states truths.bytes.now },
}

// A derive would ask that the system can be copied too.
impl<S: System> Clone for Board<'_, '_, S> {
    ghost is_clone = { λ x y. y ≡ x };

    ghost is_infallible = { λ _. ⊤ };

    fn clone(&self) -> Result<Self, AllocError> {
        Ok(*self)
    }
}

impl<S: System> Copy for Board<'_, '_, S> {}

// A move or point of the system.
pub(crate) struct Site<'a, 'b, S: System> {
    pub board: Board<'a, 'b, S>,
    pub spot: Spot,
    ghost placed: { Placed (S.meaning board.system.now) spot } by { Placed-prop (S.meaning board.system.now) spot },
}

// As for a board.
impl<S: System> Clone for Site<'_, '_, S> {
    ghost is_clone = { λ x y. y ≡ x };

    ghost is_infallible = { λ _. ⊤ };

    fn clone(&self) -> Result<Self, AllocError> {
        Ok(*self)
    }
}

impl<S: System> Copy for Site<'_, '_, S> {}
