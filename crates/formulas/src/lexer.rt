// The tokens of a text, one after another.
ghost use Rattle.std.specs.Prelude.{◌≡◌, ◌==◌};
ghost use Rattle.formulas.specs.Grammar.{items, next, expect as expected, number as numbered, code};
ghost use Rattle.formulas.specs.Readers.{Takes, Itself, First, in_range as ranged_of, behind as behind_of, starts, sum_starts, another as another_of, prob_starts};

use crate::fault::{GrammarFault, WordFault};
use crate::token::{Lexeme, Token};
use crate::tokens::token as token_of;
use crate::words::Words;

// How a term begins: with a constant, or with the token behind its parenthesis.
#[derive(Clone, Copy)]
pub enum Start {
    Constant(bool),
    Inside(Lexeme),
}

// How many products a sum behind a plus has.
const FEWEST: usize = 2;

const MOST: usize = 8;

// The next word and its token, or nothing at the end of the text.
pub fn scan(words: &mut Words) -> Result<Option<Lexeme>, WordFault>
    ensures same { words.new.text ≡ words.old.text }
    ensures first { First words.old.text.now (items words.old.text.now words.old.pos) words.old.pos result words.new.pos }
{
    let Some(word) = words.next_word() else {
        return Ok(None);
    };
    let place = word.place;
    let token = token_of(word.bytes).ok_or(WordFault { place })?;
    Ok(Some(Lexeme { token, place }))
}

// The next token, where the text must not end.
pub fn lexeme(words: &mut Words) -> Result<Lexeme, GrammarFault>
    ensures { Takes 1 next Itself words.old result words.new }
{
    let end = words.text.len();
    scan(words)?.ok_or(GrammarFault::Misplaced(end))
}

// Whether they are the same token, the value of a numeral aside.
fn alike(a: Token, b: Token) -> bool
    ensures { result ≡ (code a == code b) }
{
    a == b || matches!((a, b), (Token::Numeral(_), Token::Numeral(_)))
}

// One certain token.
pub fn expect(words: &mut Words, token: Token) -> Result<(), GrammarFault>
    ensures { Takes 1 (expected token) Itself words.old result words.new }
{
    let x = lexeme(words)?;
    if alike(token, x.token) {
        Ok(())
    } else {
        Err(GrammarFault::Misplaced(x.place))
    }
}

// A numeral from `low` to `high`.
pub fn number(words: &mut Words, low: u64, high: u64) -> Result<u64, GrammarFault>
    ensures { Takes 1 (numbered low high) Itself words.old result words.new }
{
    let x = lexeme(words)?;
    match x.token {
        Token::Numeral(n) => ranged(u64::from(n), low, high, x.place),
        _ => Err(GrammarFault::Misplaced(x.place)),
    }
}

fn ranged(n: u64, low: u64, high: u64, place: usize) -> Result<u64, GrammarFault>
    ensures { result ≡ ranged_of low high place n }
{
    if low <= n && n <= high {
        Ok(n)
    } else {
        Err(GrammarFault::OutOfRange(place))
    }
}

// The token behind the opening parenthesis `x`, where `room` more may open.
fn behind(words: &mut Words, x: Lexeme, room: u32) -> Result<Lexeme, GrammarFault>
    ensures { Takes 1 (behind_of room x) Itself words.old result words.new }
{
    if room == 0 {
        return Err(GrammarFault::TooMany(x.place));
    }
    lexeme(words)
}

// The beginning of a term.
pub fn start_term(words: &mut Words, room: u32) -> Result<Start, GrammarFault>
    ensures { Takes 1 (starts room) Itself words.old result words.new }
{
    let x = lexeme(words)?;
    match x.token {
        Token::True => Ok(Start::Constant(true)),
        Token::False => Ok(Start::Constant(false)),
        Token::Open => Ok(Start::Inside(behind(words, x, room)?)),
        _ => Err(GrammarFault::Misplaced(x.place)),
    }
}

// The beginning of a sum: nothing for 0, or the token behind its parenthesis.
pub fn start_sum(words: &mut Words, room: u32) -> Result<Option<Lexeme>, GrammarFault>
    ensures { Takes 1 (sum_starts room) Itself words.old result words.new }
{
    let x = lexeme(words)?;
    match x.token {
        Token::Numeral(0) => Ok(None),
        Token::Open => Ok(Some(behind(words, x, room)?)),
        _ => Err(GrammarFault::Misplaced(x.place)),
    }
}

// What follows `count` products of a sum: nothing at its end, or the opening parenthesis of one more.
pub fn another(words: &mut Words, count: usize) -> Result<Option<Lexeme>, GrammarFault>
    ensures { Takes 1 (another_of count) Itself words.old result words.new }
{
    let x = lexeme(words)?;
    match x.token {
        Token::Close if count >= FEWEST => Ok(None),
        Token::Open if count >= MOST => Err(GrammarFault::TooMany(x.place)),
        Token::Open => Ok(Some(x)),
        _ => Err(GrammarFault::Misplaced(x.place)),
    }
}

// The beginning of a probability.
pub fn start_prob(words: &mut Words, room: u32) -> Result<(), GrammarFault>
    ensures { Takes 1 (prob_starts room) Itself words.old result words.new }
{
    let x = lexeme(words)?;
    let Token::Open = x.token else {
        return Err(GrammarFault::Misplaced(x.place));
    };
    let y = behind(words, x, room)?;
    match y.token {
        Token::Prob => Ok(()),
        _ => Err(GrammarFault::Misplaced(y.place)),
    }
}
