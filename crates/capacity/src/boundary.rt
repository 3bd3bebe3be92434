/// One line of a book: the end of an interval, and the slots that are due by then and no earlier.
#[derive(Clone, Copy, PartialEq, Eq, Debug)]
pub struct Boundary {
    pub end: u32,
    pub due: u32,
}
