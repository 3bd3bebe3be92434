//! Capacity books: what a cart still has to give, interval by interval.
#![tactic(auto)]

mod book;
mod boundary;
mod timeline;
mod verdict;

pub use book::{Book, NewBook};
pub use boundary::Boundary;
pub use timeline::Timeline;
pub use verdict::{fits, spares_slot};
