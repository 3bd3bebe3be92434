/// A job that is guaranteed: its number, its window from the release up to the deadline, and what is left of its demand.
#[derive(Clone, Copy, PartialEq, Eq, Debug)]
pub struct Job {
    pub number: u32,
    pub release: u32,
    pub deadline: u32,
    pub left: u32,
}
