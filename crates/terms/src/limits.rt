//! The limits of the cart, each a fact of the subject and not of the program.

/// The longest horizon, in slots. It also bounds every deadline, demand and clock.
pub const MAX_HORIZON: u32 = 1_000_000;

/// How many boundaries a capacity book holds at most.
pub const MAX_BOUNDARIES: usize = 128;

/// How many jobs a draft, and so a table, holds at most.
pub const MAX_TABLE_JOBS: usize = 64;

/// How many guaranteed jobs that are not done a plan holds at most.
pub const MAX_GUARANTEED_JOBS: usize = 96;

/// How many soft orders may wait at a time.
pub const MAX_SOFT_ORDERS: usize = 16;

/// The last number that a job or an order can have; numbers begin at 1 and none is used twice.
pub const MAX_NUMBER: u32 = 65_535;
