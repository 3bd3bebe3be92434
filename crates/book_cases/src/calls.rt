//! Calls of a book as values, so that cases can stand in a table.
use capacity::Book;
use std::alloc::{AllocError, Global};
use terms::Refusal;

#[derive(Clone, Copy)]
pub(crate) enum Call {
    Clear(u32),
    Cut(u32),
    Owe(u32, u32),
    Forgive(u32, u32),
    Run(Option<u32>),
    Spare(usize),
    Headroom(u32),
}

// What a call answers: a number, nothing more than that it was taken, or why it was refused.
pub(crate) type Answer = Result<Option<i64>, Refusal>;

pub(crate) fn perform<B: Book>(book: &mut B, call: Call) -> Answer {
    match call {
        Call::Clear(horizon) => book.clear(horizon)?,
        Call::Cut(deadline) => book.cut(deadline)?,
        Call::Owe(deadline, demand) => book.owe(deadline, demand)?,
        Call::Forgive(deadline, demand) => book.forgive(deadline, demand)?,
        Call::Run(owner) => book.run(owner)?,
        Call::Spare(interval) => return Ok(Some(book.spare(interval)?.into())),
        Call::Headroom(slot) => return Ok(Some(book.headroom(slot)?.into())),
    }
    Ok(None)
}

// What can be seen of a book: its clock, its count, every spare and the headroom at the slots up to 16.
#[derive(PartialEq, Eq, Debug, Drop)]
pub(crate) struct Seen {
    clock: u32,
    count: usize,
    answers: Vec<Answer>,
}

pub(crate) fn look_at<B: Book>(heap: Global, book: &mut B) -> Result<Seen, AllocError> {
    let clock = book.clock();
    let count = book.count();
    let mut answers = Vec::new(heap);
    for interval in 1..=count {
        answers.push(perform(book, Call::Spare(interval)))?;
    }
    for slot in 0..16 {
        answers.push(perform(book, Call::Headroom(slot)))?;
    }
    Ok(Seen {
        clock,
        count,
        answers,
    })
}
