/// A soft order that waits: its number, and what is left of its demand. It has no deadline, and nothing is promised to it.
#[derive(Clone, Copy, PartialEq, Eq, Debug)]
pub struct SoftOrder {
    pub number: u32,
    pub left: u32,
}
