//! The deferred book: it notes the slots that pass, and brings a slot-by-slot book up to date only when someone asks.
#![tactic(auto, using(crate::proofs::Keeping::unnoted_meaning))]

mod deferred;
mod lines;
mod notes;
mod noting;
mod owner;
mod settling;

pub use deferred::DeferredBook;
