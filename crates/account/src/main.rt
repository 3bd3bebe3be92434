//! Prints the account of a day in a dispatcher's words, over each of the three books: what each interval can spare, what a further
//! demand meets, and how the book stands after some slots have run. The last line says whether the three accounts are the same.
#![tactic(auto)]

mod agreement;
mod rows;
mod worked;

use agreement::Accounts;
use capacity::NewBook;
use deferred_book::DeferredBook;
use plain_book::PlainBook;
use slot_book::SlotBook;
use std::alloc::Global;
use worked::Account;

fn main(rt: HostRuntime) -> anyhow::Result<()> {
    run(&rt, rt.alloc())
}

// Works the account out over each book, and prints the three.
fn run(rt: &impl Print, heap: Global) -> anyhow::Result<()> {
    let accounts = Accounts {
        plain: account_over::<PlainBook>(heap)?,
        slot: account_over::<SlotBook>(heap)?,
        deferred: account_over::<DeferredBook>(heap)?,
    };
    accounts.print(rt)?;
    Ok(())
}

// The account of the worked example over a new book.
fn account_over<B: NewBook + Drop>(heap: Global) -> anyhow::Result<String> {
    Ok(Account::of(heap, B::new(heap)?)?.text)
}
