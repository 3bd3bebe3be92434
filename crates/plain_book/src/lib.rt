//! The plain book: it keeps the demands, and works spare capacity out for each question.
#![tactic(auto)]

mod lines;
mod places;
mod plain;

pub use plain::PlainBook;
