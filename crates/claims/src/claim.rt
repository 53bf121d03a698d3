// A formula with the mass removed from its system, and the actions that removed systems share.
ghost use Rattle.std.specs.Prelude.{◌≡◌};
ghost use Rattle.formulas.specs.Tables.{Few};
ghost use Rattle.claims.specs.Bounds.{Weighed};

use formulas::node::Fills;
use formulas::tables::Standing;
use systems::actions::ActionSet;

// It is moved and never copied: a call that takes it uses it up. Its fields are apart, as a draft's, since clauses name them.
#[derive(Drop)]
pub struct Claim {
    fills: Fills,
    root: u32,
    mass: u64,
    shared: ActionSet,
    ghost few: { Few fills },
    ghost weighed: { Weighed mass },
}

impl Claim {
    pub(crate) fn new(standing: Standing, mass: u64, shared: ActionSet) -> Claim
        requires few { Few standing.fills }
        requires weighed { Weighed mass }
        ensures fills { result.fills ≡ standing.fills }
        ensures root { result.root ≡ standing.root }
        ensures mass { result.mass ≡ mass }
        ensures shared { result.shared ≡ shared }
    {
        let Standing { fills, root } = standing;
        Claim {
            fills,
            root,
            mass,
            shared,
        }
    }

    // Where the formula stands in its tables.
    pub fn standing(&self) -> Standing
        ensures fills { result.fills ≡ self.now.fills }
        ensures root { result.root ≡ self.now.root }
    {
        Standing {
            fills: self.fills,
            root: self.root,
        }
    }

    // How much of each table the formula uses.
    pub fn fills(&self) -> Fills
        ensures { result ≡ self.now.fills }
    {
        self.standing().fills
    }

    pub fn root(&self) -> u32
        ensures { result ≡ self.now.root }
    {
        self.standing().root
    }

    // The product of the masses removed, 1 if there are none.
    pub fn mass(&self) -> u64
        ensures { result ≡ self.now.mass }
    {
        self.mass
    }

    // The actions that removed systems share with what is left.
    pub fn shared(&self) -> ActionSet
        ensures { result ≡ self.now.shared }
    {
        self.shared
    }

    // Takes up another formula. The mass and the shared actions stay.
    pub(crate) fn take_up(&mut self, standing: Standing)
        requires { Few standing.fills }
        ensures fills { self.new.fills ≡ standing.fills }
        ensures root { self.new.root ≡ standing.root }
        ensures mass { self.new.mass ≡ self.old.mass }
        ensures shared { self.new.shared ≡ self.old.shared }
    {
        self.fills = standing.fills;
        self.root = standing.root;
    }
}
