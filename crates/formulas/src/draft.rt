// A formula that has been read and is not opened yet.
ghost use Rattle.std.specs.Prelude.{◌≡◌};
ghost use Rattle.formulas.specs.Tables.{Few};

use crate::node::Fills;
use crate::tables::Standing;

// How many entries a table may use.
pub(crate) const MOST_ENTRIES: u32 = 1048576;

// It is moved and never copied: opening it uses it up. Its fields are apart, since clauses of callers name them.
#[derive(Drop)]
pub struct Draft {
    fills: Fills,
    root: u32,
    ghost few: { Few fills },
}

impl Draft {
    pub(crate) fn new(standing: Standing) -> Draft
        requires { Few standing.fills }
        ensures fills { result.fills ≡ standing.fills }
        ensures root { result.root ≡ standing.root }
    {
        Draft {
            fills: standing.fills,
            root: standing.root,
        }
    }

    // Where the formula stands in its tables.
    pub fn standing(&self) -> Standing
        ensures fills { result.fills ≡ self.now.fills }
        ensures root { result.root ≡ self.now.root }
    {
        Standing {
            fills: self.fills,
            root: self.root,
        }
    }

    // How much of each table the formula uses.
    pub fn fills(&self) -> Fills
        ensures { result ≡ self.now.fills }
    {
        self.fills
    }

    pub fn root(&self) -> u32
        ensures { result ≡ self.now.root }
    {
        self.root
    }
}
