// Systems: what answers the six questions, what the answers mean, and the kinds of systems.
#![tactic(auto)]

pub mod actions;
pub mod any;
pub mod borrowed;
pub mod component;
pub mod empty;
pub mod fault;
pub mod lane;
pub mod pile;
pub mod records;
pub mod shared;
pub mod system;
mod tables;
