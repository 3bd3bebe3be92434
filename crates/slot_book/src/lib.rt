//! The slot-by-slot book: it keeps the spares, and mends them at every run.
#![tactic(auto)]

mod changes;
mod lines;
mod places;
mod settle;
mod slot;
mod span;
mod walk;

pub use slot::SlotBook;
