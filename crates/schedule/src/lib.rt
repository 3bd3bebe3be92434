//! Schedules: who gets which slot, what it means that the guarantees are kept, and the test whether one more job can be.
#![tactic(auto)]

mod job;
mod soft;

pub use job::Job;
pub use soft::SoftOrder;
