// Why an action is refused, and how that is printed.
ghost use Rattle.std.specs.Prelude.{◌≡◌};
ghost use Rattle.qcheck.specs.declared.refused.Refused.TheVariants.{System, Mount, Read, Claim};
ghost use Rattle.qcheck.specs.Refusals.{number, place, layer};

use claims::fault::Refusal;
use formulas::fault::{Layer, ReadFault};
use std::fmt;
use systems::fault::{Fault, MountFault};

// What the libraries refuse with.
#[derive(Clone, Copy)]
pub enum Refused {
    // A lane or a pile.
    System(Fault),
    Mount(MountFault),
    Read(ReadFault),
    // A call on a claim.
    Claim(Refusal),
}

impl From<Fault> for Refused {
    ghost from_gives = { λ f r. r ≡ System f };

    fn from(fault: Fault) -> Refused {
        Refused::System(fault)
    }
}

impl From<MountFault> for Refused {
    ghost from_gives = { λ f r. r ≡ Mount f };

    fn from(fault: MountFault) -> Refused {
        Refused::Mount(fault)
    }
}

impl From<ReadFault> for Refused {
    ghost from_gives = { λ f r. r ≡ Read f };

    fn from(fault: ReadFault) -> Refused {
        Refused::Read(fault)
    }
}

impl From<Refusal> for Refused {
    ghost from_gives = { λ f r. r ≡ Claim f };

    fn from(refusal: Refusal) -> Refused {
        Refused::Claim(refusal)
    }
}

impl Refused {
    // The number by which it is known; want of memory has none.
    pub fn number(&self) -> Option<u8>
        ensures { result ≡ number self.now }
    {
        match self {
            Refused::System(fault) => Some(fault.number()),
            Refused::Mount(fault) => fault.number(),
            Refused::Read(fault) => Some(fault.number()),
            Refused::Claim(refusal) => Some(refusal.number()),
        }
    }

    // Where it is, in a text or among the moves of a component.
    pub fn place(&self) -> Option<usize>
        ensures { result ≡ place self.now }
    {
        match self {
            Refused::Mount(fault) => Some(fault.place()? as usize),
            Refused::Read(fault) => fault.place(),
            Refused::System(_) | Refused::Claim(_) => None,
        }
    }

    // The layer of reading that found it.
    pub fn layer(&self) -> Option<Layer>
        ensures { result ≡ layer self.now }
    {
        match self {
            Refused::Read(fault) => Some(fault.layer()),
            _ => None,
        }
    }
}

// Its number, place and layer, and in a line of its own what it means. By hand: `thiserror` takes one fixed text for a
// case, and these may be absent.
impl fmt::Display for Refused {
    fn fmt<W: fmt::Write>(&self, f: &mut fmt::Formatter<W>) -> fmt::Result {
        f.write_str("refused")?;
        if let Some(number) = self.number() {
            write!(f, " {number}")?;
        }
        if let Some(place) = self.place() {
            write!(f, " at {place}")?;
        }
        if let Some(layer) = self.layer() {
            write!(f, " ({layer})")?;
        }
        match self {
            Refused::System(fault) => write!(f, "\n  {fault}"),
            Refused::Mount(fault) => write!(f, "\n  {fault}"),
            Refused::Read(fault) => write!(f, "\n  {fault}"),
            Refused::Claim(refusal) => write!(f, "\n  {refusal}"),
        }
    }
}
