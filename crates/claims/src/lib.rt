// Claims: a formula with the mass removed from its system, opened from a draft and judged on systems.
#![tactic(auto)]

mod board;
pub mod claim;
pub mod fault;
pub mod judge;
pub mod law;
pub mod opening;
pub mod remove;
mod row;
pub mod simplify;
mod spot;
mod sum;
pub mod tables;
mod truths;
pub mod verdict;
