// The tables that the formula of a claim stands in.

pub use formulas::tables::{Tables, TablesMut};
