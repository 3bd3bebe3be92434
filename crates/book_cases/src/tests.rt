use crate::calls::*;
use capacity::{Book, NewBook};
use deferred_book::DeferredBook;
use plain_book::PlainBook;
use slot_book::SlotBook;
use std::alloc::Global;
use std::process::Abort;
use std::test::Fail;
use terms::Refusal;
use terms::Refusal::{AtHorizon, NoCapacity, NotHeld, OutOfRange, TooManyBoundaries, Unfit};

// Calls with what each must answer. A refused call, and a question, must leave all that can be seen of the book.
fn play<B: Book>(
    rt: &impl Abort,
    heap: Global,
    book: &mut B,
    cases: &[(Call, Answer)],
) -> Result<(), Fail> {
    for &(call, expected) in cases {
        let before = look_at(heap, book)?;
        let answer = perform(book, call);
        assert_eq!(rt; answer, expected);
        if answer != Ok(None) {
            assert_eq!(rt; look_at(heap, book)?, before);
        }
    }
    Ok(())
}

// Calls with what each must answer, and no other call in between: a book may put work off until it is asked.
fn play_blind<B: Book>(rt: &impl Abort, book: &mut B, cases: &[(Call, Answer)]) {
    for &(call, expected) in cases {
        assert_eq!(rt; perform(book, call), expected);
    }
}

// The refusals that the tables name, each with its number.
const NUMBERS: [(Refusal, u8); 6] = [
    (OutOfRange, 3),
    (Unfit, 4),
    (NotHeld, 6),
    (AtHorizon, 7),
    (TooManyBoundaries, 9),
    (NoCapacity, 11),
];

// The worked example: horizon 12, with 2, 1, 1 and 5 slots due at 6, 8, 10 and 12.
const WORKED: [(Call, Answer); 9] = [
    (Call::Clear(12), Ok(None)),
    (Call::Cut(6), Ok(None)),
    (Call::Owe(6, 2), Ok(None)),
    (Call::Cut(8), Ok(None)),
    (Call::Owe(8, 1), Ok(None)),
    (Call::Cut(10), Ok(None)),
    (Call::Owe(10, 1), Ok(None)),
    (Call::Cut(12), Ok(None)),
    (Call::Owe(12, 5), Ok(None)),
];

const RANGES: [(Call, Answer); 8] = [
    (Call::Clear(0), Err(OutOfRange)),
    (Call::Clear(1_000_001), Err(OutOfRange)),
    (Call::Clear(u32::MAX), Err(OutOfRange)),
    (Call::Clear(1_000_000), Ok(None)),
    (Call::Owe(1_000_000, 1_000_001), Err(NoCapacity)),
    (Call::Owe(1_000_000, 1_000_000), Ok(None)),
    (Call::Spare(1), Ok(Some(0))),
    (Call::Clear(1), Ok(None)),
];

const REFUSED: [(Call, Answer); 26] = [
    (Call::Cut(0), Err(Unfit)),
    (Call::Cut(13), Err(Unfit)),
    (Call::Cut(u32::MAX), Err(Unfit)),
    (Call::Cut(12), Ok(None)),
    (Call::Owe(5, 1), Err(Unfit)),
    (Call::Owe(13, 1), Err(Unfit)),
    (Call::Owe(12, 0), Err(Unfit)),
    // Two rules apply, and the smaller number is answered.
    (Call::Owe(5, 9), Err(Unfit)),
    (Call::Owe(12, 4), Err(NoCapacity)),
    (Call::Owe(12, u32::MAX), Err(NoCapacity)),
    (Call::Owe(12, 3), Ok(None)),
    (Call::Owe(12, 1), Err(NoCapacity)),
    (Call::Forgive(12, 3), Ok(None)),
    (Call::Forgive(5, 0), Err(NotHeld)),
    (Call::Forgive(12, 6), Err(NotHeld)),
    (Call::Forgive(12, u32::MAX), Err(NotHeld)),
    (Call::Forgive(12, 0), Ok(None)),
    (Call::Run(Some(5)), Err(NotHeld)),
    (Call::Run(Some(13)), Err(NotHeld)),
    (Call::Spare(0), Err(Unfit)),
    (Call::Spare(5), Err(Unfit)),
    (Call::Spare(usize::MAX), Err(Unfit)),
    (Call::Headroom(0), Err(Unfit)),
    (Call::Headroom(13), Err(Unfit)),
    (Call::Headroom(1), Ok(Some(1))),
    (Call::Headroom(12), Ok(Some(3))),
];

// Three slots for 12 and one for nobody, then every spare, and then the edges at the new clock.
const SLOTS: [(Call, Answer); 12] = [
    (Call::Run(Some(12)), Ok(None)),
    (Call::Run(Some(12)), Ok(None)),
    (Call::Run(Some(12)), Ok(None)),
    (Call::Run(None), Ok(None)),
    (Call::Spare(1), Ok(Some(0))),
    (Call::Spare(2), Ok(Some(1))),
    (Call::Spare(3), Ok(Some(1))),
    (Call::Spare(4), Ok(Some(0))),
    (Call::Headroom(4), Err(Unfit)),
    (Call::Headroom(5), Ok(Some(0))),
    (Call::Cut(4), Err(Unfit)),
    (Call::Cut(5), Ok(None)),
];

// The rows of that table up to the last spare: the slots in one go, and only then the spares.
const ASKED: usize = 8;

// A boundary goes with what is still due there, nothing is due at the next one, and at the horizon no boundary is left.
const HORIZON: [(Call, Answer); 16] = [
    (Call::Clear(2), Ok(None)),
    (Call::Cut(1), Ok(None)),
    (Call::Owe(1, 1), Ok(None)),
    (Call::Spare(1), Ok(Some(0))),
    (Call::Run(None), Ok(None)),
    (Call::Spare(1), Ok(Some(1))),
    (Call::Spare(2), Err(Unfit)),
    (Call::Run(Some(1)), Err(NotHeld)),
    (Call::Run(Some(2)), Err(NotHeld)),
    (Call::Run(None), Ok(None)),
    (Call::Run(None), Err(AtHorizon)),
    (Call::Run(Some(2)), Err(NotHeld)),
    (Call::Spare(1), Err(Unfit)),
    (Call::Headroom(2), Err(Unfit)),
    (Call::Cut(2), Err(Unfit)),
    (Call::Forgive(2, 0), Err(NotHeld)),
];

// A demand that is lost leaves a negative spare, and no headroom.
const LOST: [(Call, Answer); 7] = [
    (Call::Clear(3), Ok(None)),
    (Call::Owe(3, 3), Ok(None)),
    (Call::Run(None), Ok(None)),
    (Call::Spare(1), Ok(Some(-1))),
    (Call::Headroom(3), Ok(Some(0))),
    (Call::Owe(3, 1), Err(NoCapacity)),
    (Call::Forgive(3, 2), Ok(None)),
];

// The book of 128 boundaries: no new one, but those that are there.
const FULL: [(Call, Answer); 4] = [
    (Call::Cut(500), Err(TooManyBoundaries)),
    (Call::Cut(1001), Err(Unfit)),
    (Call::Cut(127), Ok(None)),
    (Call::Owe(127, 1), Ok(None)),
];

// The first interval ends before anyone asks. At slot 7, 0, 1 and 2 are left at 8, 10 and 12: the spares are 1, 1 and 0.
const ENDED: [(Call, Answer); 12] = [
    (Call::Run(Some(12)), Ok(None)),
    (Call::Run(Some(12)), Ok(None)),
    (Call::Run(Some(12)), Ok(None)),
    (Call::Run(None), Ok(None)),
    (Call::Run(Some(6)), Ok(None)),
    (Call::Run(Some(6)), Ok(None)),
    (Call::Run(Some(8)), Ok(None)),
    (Call::Spare(1), Ok(Some(1))),
    (Call::Spare(2), Ok(Some(1))),
    (Call::Spare(3), Ok(Some(0))),
    (Call::Spare(4), Err(Unfit)),
    (Call::Headroom(12), Ok(Some(2))),
];

// The tables in which slots pass unseen, each after the worked example.
fn play_unseen<B: Book>(rt: &impl Abort, book: &mut B) {
    play_blind(rt, book, &WORKED);
    play_blind(rt, book, &SLOTS[..ASKED]);
    play_blind(rt, book, &WORKED);
    play_blind(rt, book, &ENDED);
}

// Every table, one after the other, over a new book.
fn play_all<B: NewBook + Drop>(rt: &impl Abort, heap: Global) -> Result<(), Fail> {
    let book = &mut B::new(heap)?;
    play(rt, heap, book, &RANGES)?;
    play(rt, heap, book, &WORKED)?;
    play(rt, heap, book, &REFUSED)?;
    play(rt, heap, book, &SLOTS)?;
    play(rt, heap, book, &HORIZON)?;
    play(rt, heap, book, &LOST)?;
    play_unseen(rt, book);
    assert_eq!(rt; perform(book, Call::Clear(1000)), Ok(None));
    for deadline in 1..128 {
        assert_eq!(rt; perform(book, Call::Cut(deadline)), Ok(None));
    }
    assert_eq!(rt; book.count(), 128);
    play(rt, heap, book, &FULL)
}

#[test]
fn plain_book_cases(rt: HostRuntime) -> Result<(), Fail> {
    play_all::<PlainBook>(&rt, rt.alloc())
}

#[test]
fn slot_book_cases(rt: HostRuntime) -> Result<(), Fail> {
    play_all::<SlotBook>(&rt, rt.alloc())
}

#[test]
fn deferred_book_cases(rt: HostRuntime) -> Result<(), Fail> {
    play_all::<DeferredBook>(&rt, rt.alloc())
}

#[test]
fn refusal_numbers(rt: HostRuntime) {
    for &(refusal, number) in &NUMBERS {
        assert_eq!(rt; refusal.number(), number);
    }
}
