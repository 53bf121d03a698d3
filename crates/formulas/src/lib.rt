// Formulas: their tables, what they say of a system, and how one is read from text.
#![tactic(auto)]

pub mod append;
pub mod draft;
pub mod fault;
mod grammar;
mod lexer;
pub mod node;
pub mod read;
pub mod refusal;
mod sort;
pub mod stands;
pub mod tables;
pub mod token;
pub mod tokens;
pub mod words;
