// Why a text is refused. Each layer hands on what the layer below it found.
ghost use Rattle.std.specs.Prelude.{◌≡◌, Some};
ghost use Rattle.formulas.specs.Faults.{number as number_of, place as place_of, layer as layer_of, meaning, layer_name};
ghost use Rattle.formulas.specs.declared.fault.GrammarFault.TheVariants.{Word};
ghost use Rattle.formulas.specs.declared.fault.ReadFault.TheVariants.{Text};

use std::error::Error;
use std::fmt;

// The word that begins at the place is none of the language.
#[derive(Clone, Copy, PartialEq, Debug)]
pub struct WordFault {
    pub place: usize,
}

#[derive(Clone, Copy, PartialEq, Debug)]
pub enum GrammarFault {
    Word(WordFault),
    // The word does not fit there, or the text ends early.
    Misplaced(usize),
    // A number is outside its range.
    OutOfRange(usize),
    // One parenthesis or one term of a sum too many.
    TooMany(usize),
}

#[derive(Clone, Copy, PartialEq, Debug)]
pub enum ReadFault {
    Text(GrammarFault),
    // A table is too short, or the formula too large for any.
    Tables,
}

// The layer that found the fault.
#[derive(Clone, Copy, PartialEq, Debug)]
pub enum Layer {
    Words,
    Grammar,
    Tables,
}

impl From<WordFault> for GrammarFault {
    ghost from_gives = { λ f r. r ≡ Word f };

    fn from(fault: WordFault) -> GrammarFault {
        GrammarFault::Word(fault)
    }
}

impl From<GrammarFault> for ReadFault {
    ghost from_gives = { λ f r. r ≡ Text f };

    fn from(fault: GrammarFault) -> ReadFault {
        ReadFault::Text(fault)
    }
}

impl ReadFault {
    // The number by which the refusal is known.
    pub fn number(&self) -> u8
        ensures { result ≡ number_of self.now }
    {
        match self {
            ReadFault::Text(GrammarFault::Word(_)) => 1,
            ReadFault::Text(GrammarFault::Misplaced(_)) => 2,
            ReadFault::Text(GrammarFault::OutOfRange(_)) => 3,
            ReadFault::Text(GrammarFault::TooMany(_)) => 4,
            ReadFault::Tables => 11,
        }
    }

    // Where in the text it is, counted in bytes.
    pub fn place(&self) -> Option<usize>
        ensures { result ≡ place_of self.now }
    {
        match self {
            ReadFault::Text(GrammarFault::Word(f)) => Some(f.place),
            ReadFault::Text(GrammarFault::Misplaced(p)) => Some(*p),
            ReadFault::Text(GrammarFault::OutOfRange(p)) => Some(*p),
            ReadFault::Text(GrammarFault::TooMany(p)) => Some(*p),
            ReadFault::Tables => None,
        }
    }

    pub fn layer(&self) -> Layer
        ensures { result ≡ layer_of self.now }
    {
        match self {
            ReadFault::Text(GrammarFault::Word(_)) => Layer::Words,
            ReadFault::Text(_) => Layer::Grammar,
            ReadFault::Tables => Layer::Tables,
        }
    }
}

// What the refusal means. By hand, since what `thiserror` derives promises no text.
impl fmt::Display for ReadFault {
    ghost output = { λ f. Some (meaning f) };

    fn fmt<W: fmt::Write>(&self, f: &mut fmt::Formatter<W>) -> fmt::Result {
        f.write_str(match self {
            ReadFault::Text(GrammarFault::Word(_)) => "the word is none of the language",
            ReadFault::Text(GrammarFault::Misplaced(_)) => {
                "the word does not fit there, or the text ends early"
            }
            ReadFault::Text(GrammarFault::OutOfRange(_)) => "the number is outside its range",
            ReadFault::Text(GrammarFault::TooMany(_)) => {
                "more than 64 parentheses are open, or a sum has more than eight terms"
            }
            ReadFault::Tables => "a table is too short for what has to be written",
        })
    }
}

impl Error for ReadFault {}

// By hand, since what `thiserror` derives promises no text.
impl fmt::Display for Layer {
    ghost output = { λ l. Some (layer_name l) };

    fn fmt<W: fmt::Write>(&self, f: &mut fmt::Formatter<W>) -> fmt::Result {
        f.write_str(match self {
            Layer::Words => "words",
            Layer::Grammar => "grammar",
            Layer::Tables => "tables",
        })
    }
}
