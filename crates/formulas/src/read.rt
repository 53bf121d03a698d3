// From a text to a draft in three tables.
ghost use Rattle.std.specs.Prelude.{◌≡◌};
ghost use Rattle.formulas.specs.Grammar.{items, parse};
ghost use Rattle.formulas.specs.Reading.{reading, Reads};
ghost use Rattle.formulas.specs.Tables.{held, SameLoans, takes as takes_of, fits};
ghost use Rattle.formulas.specs.Spelling.{ReadingLaw};
ghost use Rattle.formulas.specs.Whole.{Ends, Whole};

use crate::draft::{Draft, MOST_ENTRIES};
use crate::fault::{GrammarFault, ReadFault};
use crate::grammar::Reader;
use crate::lexer::scan;
use crate::node::Fills;
use crate::tables::{Standing, TablesMut};
use crate::words::Words;

// How many parentheses may be open at a time.
const MOST_OPEN: u32 = 64;

// Nothing but blanks and comments may follow.
fn end(words: &mut Words) -> Result<(), GrammarFault>
    ensures { Ends (items words.old.text.now words.old.pos) result }
{
    match scan(words)? {
        None => Ok(()),
        Some(x) => Err(GrammarFault::Misplaced(x.place)),
    }
}

// One pass over a text: writes its formula as far as the tables reach, and answers where it stands.
fn whole(text: &[u8], tables: &mut TablesMut) -> Result<Standing, GrammarFault>
    ensures lent { SameLoans tables.old tables.new }
    ensures read { Whole (parse text.now) (held tables.old) result (held tables.new) }
{
    let mut reader = Reader {
        words: Words::new(text),
        nodes: tables.nodes,
        terms: tables.terms,
        alternatives: tables.alternatives,
        fills: Fills {
            nodes: 0,
            terms: 0,
            alternatives: 0,
        },
    };
    let root = reader.state_term(MOST_OPEN)?;
    end(&mut reader.words)?;
    Ok(Standing {
        fills: reader.fills,
        root,
    })
}

// Whether a table of a size takes what is needed of it.
fn takes(size: usize, need: u32) -> bool
    ensures { result ≡ takes_of size need }
{
    need as usize <= size && need <= MOST_ENTRIES
}

fn take_all(tables: &TablesMut, need: Fills) -> bool
    ensures { result ≡ fits need (held tables.now) }
{
    takes(tables.nodes.len(), need.nodes)
        && takes(tables.terms.len(), need.terms)
        && takes(tables.alternatives.len(), need.alternatives)
}

// Reads a text twice: to count what it needs, and, where the tables take that, to write it.
fn read_twice(text: &[u8], tables: &mut TablesMut) -> Result<Draft, ReadFault>
    ensures lent { SameLoans tables.old tables.new }
    ensures reads { Reads (reading text.now (held tables.old)) (held tables.old) result (held tables.new) }
{
    let mut no_tables = TablesMut {
        nodes: &mut [],
        terms: &mut [],
        alternatives: &mut [],
    };
    let need = whole(text, &mut no_tables)?;
    if !take_all(tables, need.fills) {
        return Err(ReadFault::Tables);
    }
    let standing = whole(text, tables)?;
    Ok(Draft::new(standing))
}

// Reads a text into a draft, its formula laid out at the front of the tables; a refused text leaves the tables as they were.
pub fn read(text: &[u8], tables: &mut TablesMut) -> Result<Draft, ReadFault>
    ensures lent { SameLoans tables.old tables.new }
    ensures reads { Reads (reading text.now (held tables.old)) (held tables.old) result (held tables.new) }
    ensures law { ReadingLaw }
{
    read_twice(text, tables)
}
