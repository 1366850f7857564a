//! The field engineer's card: the label table, tries of it, marked examples, and what a stack of four policies says.
#![tactic(auto)]

mod asked;
mod marked;
mod stacked;
mod tries;
mod words;

use anyhow::Context;
use examples::chains::three_chains;
use examples::marked::{Answer, marked_examples};
use label_policies::label_listing::label_rows;
use label_policies::label_policy::label_verdict;
use label_policies::label_table::Row;
use labels::ladder::Ladder;
use marked::{QUESTIONS, Question};
use policy::words::{Kind, Request};
use stacked::{print_asked, print_routine};
use std::io;
use tries::{TRIES, Try};
use words::condition_words;

/// The steps of the ladder that the table is tried on.
const STEPS: u64 = 4;

const ROW_HEADS: &str = "row  request                     kind         needs";

const TRY_HEADS: &str =
    "process  object  request                     kind         verdict      what is tried";

const EXAMPLE_HEADS: &str = "mark  answer     what is asked";

fn main(rt: HostRuntime) -> anyhow::Result<()> {
    print_card(&rt)
}

fn print_card(rt: &HostRuntime) -> anyhow::Result<()> {
    print_table(rt)?;
    println!(rt)?;
    print_tries(rt)?;
    println!(rt)?;
    print_examples(rt)?;
    println!(rt)?;
    print_stack(rt)
}

fn print_table(rt: &HostRuntime) -> anyhow::Result<()> {
    let rows = label_rows(rt.alloc())?;
    let count = rows.len();
    println!(rt; "Label table: {count} rows, the one for entering among them")?;
    println!(rt; "{ROW_HEADS}")?;
    for (number, row) in (1..=count).zip(&rows) {
        print_row(rt, number, row)?;
    }
    Ok(())
}

fn print_row(rt: &HostRuntime, number: usize, row: &Row) -> io::Result<()> {
    let needs = condition_words(row);
    print!(rt; "{number:>3}  ")?;
    print_place(rt, row.request, row.kind)?;
    println!(rt; "{needs}")
}

/// The columns of a request and a kind: two arguments, since rows and tries are different types.
fn print_place(rt: &HostRuntime, request: Request, kind: Kind) -> io::Result<()> {
    let request_number = u8::from(request);
    let kind_number = u8::from(kind);
    print!(rt; "{request_number:>2} {request:<23}  ")?;
    print!(rt; "{kind_number} {kind:<9}  ")
}

fn print_tries(rt: &HostRuntime) -> anyhow::Result<()> {
    let ladder = Ladder::new(STEPS).context("a ladder has 1 to 256 steps")?;
    let top = STEPS - 1;
    println!(rt; "Tries on a ladder of {STEPS} steps, labels 0 to {top}")?;
    println!(rt; "{TRY_HEADS}")?;
    for tried in TRIES {
        print_try(rt, &ladder, tried)?;
    }
    Ok(())
}

fn print_try(rt: &HostRuntime, ladder: &Ladder, tried: Try) -> io::Result<()> {
    let Try {
        request,
        kind,
        process,
        object,
        what,
    } = tried;
    let verdict = label_verdict(ladder, request, kind, process, object);
    let number = u8::from(verdict);
    print!(rt; "{process:>7}  {object:>6}  ")?;
    print_place(rt, request, kind)?;
    print!(rt; "{number} {verdict:<9}  ")?;
    println!(rt; "{what}")
}

fn print_examples(rt: &HostRuntime) -> io::Result<()> {
    println!(rt; "Marked examples")?;
    println!(rt; "{EXAMPLE_HEADS}")?;
    for (question, answer) in QUESTIONS.into_iter().zip(marked_examples()) {
        print_example(rt, question, answer)?;
    }
    Ok(())
}

fn print_example(rt: &HostRuntime, question: Question, answer: Answer) -> io::Result<()> {
    let Question { mark, what } = question;
    print!(rt; "{mark:>4}  {answer:<9}  ")?;
    println!(rt; "{what}")
}

fn print_stack(rt: &HostRuntime) -> anyhow::Result<()> {
    let chains = three_chains().context("a cell or a row of the three chains is refused")?;
    print_asked(rt, &chains)?;
    println!(rt)?;
    print_routine(rt, &chains)?;
    Ok(())
}
