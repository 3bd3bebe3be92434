//! The words that every crate shares: refusals with their numbers, and the limits.
#![tactic(auto)]

pub mod limits;
mod refusal;

pub use refusal::Refusal;
