// The words of the language.

#[derive(Clone, Copy, PartialEq, Debug)]
pub enum Token {
    Open,
    Close,
    True,
    False,
    And,
    Not,
    Dia,
    Here,
    Prob,
    AtLeast,
    Plus,
    Times,
    Numeral(u32),
}

// A token with the place of its word.
#[derive(Clone, Copy)]
pub struct Lexeme {
    pub token: Token,
    pub place: usize,
}
