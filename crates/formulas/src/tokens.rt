// From words to tokens.
ghost use Rattle.std.specs.Prelude.{◌≡◌};
ghost use Rattle.formulas.specs.Tokens.{token_of, numeral_of};

use crate::token::Token;

// Where the value of a numeral stops: any larger one is out of every range.
const CAP: u64 = 1073741825;

// The value of a numeral of any length.
pub fn numeral(word: &[u8]) -> Option<u32>
    ensures { result ≡ numeral_of word.now }
{
    if word.is_empty() || (word[0] == b'0' && word.len() > 1) {
        return None;
    }
    let mut value = 0u64;
    for b in word {
        if !b.is_ascii_digit() {
            return None;
        }
        value = (value * 10 + u64::from(*b - b'0')).min(CAP);
    }
    Some(value as u32)
}

// Which word of the language it is. The reserved words stand in one match.
pub fn token(word: &[u8]) -> Option<Token>
    ensures { result ≡ token_of word.now }
{
    match word {
        b"(" => Some(Token::Open),
        b")" => Some(Token::Close),
        b"true" => Some(Token::True),
        b"false" => Some(Token::False),
        b"and" => Some(Token::And),
        b"not" => Some(Token::Not),
        b"dia" => Some(Token::Dia),
        b"here" => Some(Token::Here),
        b"prob" => Some(Token::Prob),
        b">=" => Some(Token::AtLeast),
        b"+" => Some(Token::Plus),
        b"*" => Some(Token::Times),
        _ => numeral(word).map(Token::Numeral),
    }
}
