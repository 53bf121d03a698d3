// Why a call on a claim is refused: its formula's refusals.

pub use formulas::refusal::Refusal;
