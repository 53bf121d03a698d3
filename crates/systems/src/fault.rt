// Why a system is refused.
ghost use Rattle.std.specs.Prelude.{◌≡◌, Some};
ghost use Rattle.systems.specs.Faults.{number, meaning, mount_number, mount_place, mount_meaning};
ghost use Rattle.systems.specs.declared.fault.MountFault.TheVariants.{NoMemory};

use std::alloc::AllocError;
use std::error::Error;
use std::fmt;

// A number of a lane out of its range, a pile of too many states or too broad, a pile of too much mass.
#[derive(Clone, Copy, PartialEq, Debug)]
pub enum Fault {
    Number = 5,
    Size = 9,
    Mass = 10,
}

impl Fault {
    pub fn number(&self) -> u8
        ensures { result ≡ number self.now }
    {
        *self as u8
    }
}

// What the fault means. By hand, since what `thiserror` derives promises no text.
impl fmt::Display for Fault {
    ghost output = { λ f. Some (meaning f) };

    fn fmt<W: fmt::Write>(&self, f: &mut fmt::Formatter<W>) -> fmt::Result {
        f.write_str(match self {
            Fault::Number => {
                "a number is outside its range or names nothing of the wanted kind, or put is take"
            }
            Fault::Size => "the system has too many states or is too broad",
            Fault::Mass => "the product of the masses is above 10^15",
        })
    }
}

impl Error for Fault {}

// Why two tables are no component: a record breaks a rule, or the weights of a move do not add up,
// each with the place of the move; or there is no memory for the component.
#[derive(Clone, Copy, PartialEq, Debug)]
pub enum MountFault {
    Record(u32),
    Weights(u32),
    NoMemory,
}

impl MountFault {
    pub fn number(&self) -> Option<u8>
        ensures { result ≡ mount_number self.now }
    {
        match self {
            MountFault::Record(_) => Some(6),
            MountFault::Weights(_) => Some(7),
            MountFault::NoMemory => None,
        }
    }

    pub fn place(&self) -> Option<u32>
        ensures { result ≡ mount_place self.now }
    {
        match self {
            MountFault::Record(i) | MountFault::Weights(i) => Some(*i),
            MountFault::NoMemory => None,
        }
    }
}

// What the fault means. By hand, since what `thiserror` derives promises no text.
impl fmt::Display for MountFault {
    ghost output = { λ f. Some (mount_meaning f) };

    fn fmt<W: fmt::Write>(&self, f: &mut fmt::Formatter<W>) -> fmt::Result {
        f.write_str(match self {
            MountFault::Record(_) => {
                "the record at this place, one of its targets, or a size breaks a rule of components"
            }
            MountFault::Weights(_) => {
                "the weights of the move at this place do not add up to 1000"
            }
            MountFault::NoMemory => "there is no memory for the component",
        })
    }
}

impl Error for MountFault {}

impl From<AllocError> for MountFault {
    ghost from_gives = { λ _ f. f ≡ NoMemory };

    fn from(_error: AllocError) -> MountFault {
        MountFault::NoMemory
    }
}
