//! A loader at work: it starts a book, enters demands, plans by a rule of its own, loads each node, reopens the book, plans by the best link, and prints each step.
//!
//! The law over all runs, on the contract of `Book::start`, holds of this book after each step, also for the rule that is declared here: the library has never seen it.
#![tactic(auto)]

ghost use Rattle.std.specs.Prelude.{◌≡◌};
ghost use Rattle.loader_demo.specs.Clockwise.{all_clockwise, clockwise_parallel, clockwise_elsewhere};

use book::book::Book;
use booklaw::{Card, Drawing};
use loader::load_node;
use ring::{Refusal, Row, Side};
use rules::Rule;
use std::fmt;

/// Sends everything clockwise. The last link of the ring stays empty.
struct AllClockwise;

impl Rule for AllClockwise {
    ghost side = { λ _. all_clockwise };

    ghost parallel = { λ _. clockwise_parallel };

    ghost elsewhere = { λ _. clockwise_elsewhere };

    fn choose(&self, _n: u8, _lower: u8, _upper: u8) -> Side {
        Side::Clockwise
    }
}

/// The card of a plan, as it is printed.
#[derive(Drop)]
struct Summary(Card);

impl fmt::Display for Summary {
    fn fmt<W: fmt::Write>(&self, f: &mut fmt::Formatter<W>) -> fmt::Result {
        let Summary(card) = self;
        write!(f, "{} slots; ", card.figures.slots)?;
        write!(
            f,
            "heaviest cut ({}, {}) with {}; ",
            card.cut.first, card.cut.second, card.cut.total
        )?;
        write!(f, "no plan has fewer than {} slots", card.lower_bound)
    }
}

/// Prints that a call was refused, and by which number.
fn print_refusal(rt: &HostRuntime, call: &str, refusal: Refusal) -> anyhow::Result<()> {
    println!(rt; "{call}: refused by {}", refusal.number())?;
    Ok(())
}

/// Prints what a call answered: what it gives, or that it was refused.
fn print_answer<T: fmt::Display + Drop>(
    rt: &HostRuntime,
    call: &str,
    answer: Result<T, Refusal>,
) -> anyhow::Result<()> {
    match answer {
        Ok(given) => println!(rt; "{call}: {given}")?,
        Err(refusal) => print_refusal(rt, call, refusal)?,
    }
    Ok(())
}

/// Prints what a call answered that gives nothing.
fn print_done(rt: &HostRuntime, call: &str, answer: Result<(), Refusal>) -> anyhow::Result<()> {
    print_answer(rt, call, answer.map(|()| "accepted"))
}

/// Prints which drawing the book holds.
fn print_drawing(rt: &HostRuntime, book: &Book) -> anyhow::Result<()> {
    match book.drawing() {
        Drawing::Open => println!(rt; "the book is open")?,
        Drawing::ByRule => println!(rt; "the book is planned by a rule")?,
        Drawing::BestLink(link) => println!(rt;
            "the book is planned with link {link} shut, the best one"
        )?,
    }
    Ok(())
}

/// Prints the rows of a node that were loaded.
fn print_rows(rt: &HostRuntime, node: u8, rows: &[Row]) -> anyhow::Result<()> {
    print!(rt; "node {node}: {} rows loaded", rows.len())?;
    for row in rows {
        print!(rt;
            "; number {} side {} slot {}",
            row.demand, row.side, row.slot
        )?;
    }
    println!(rt; "")?;
    Ok(())
}

/// Loads each node of the ring, and prints its rows.
fn load_all(rt: &HostRuntime, book: &mut Book) -> anyhow::Result<()> {
    for node in 1..=book.size() {
        // Kept: an array, since a loader takes no memory once its book is started.
        let mut places = [Row::default(); 16];
        match load_node(book, node, &mut places) {
            Ok(count) => print_rows(rt, node, &places[..count.min(places.len())])?,
            Err(refusal) => print_refusal(rt, "loading", refusal)?,
        }
    }
    Ok(())
}

/// Prints the counters of the slips.
fn print_counts(rt: &HostRuntime, book: &Book) -> anyhow::Result<()> {
    let counts = book.slip_counts();
    println!(rt;
        "slips: {} issued, {} loaded, {} returned",
        counts.issued, counts.loaded, counts.returned
    )?;
    Ok(())
}

/// Plans by the rule of this program, and loads all nodes.
fn plan_and_load(rt: &HostRuntime, book: &mut Book) -> anyhow::Result<()> {
    let mut sheet = [0u16; 1024];
    let answer = book.plan(&AllClockwise, &mut sheet);
    print_answer(rt, "plan, everything clockwise", answer.map(Summary))?;
    print_drawing(rt, book)?;
    load_all(rt, book)?;
    print_counts(rt, book)
}

/// Reopens the book, withdraws a demand, and plans by the best link.
fn plan_again(rt: &HostRuntime, book: &mut Book) -> anyhow::Result<()> {
    let mut sheet = [0u16; 1024];
    print_done(rt, "withdraw 2 from a planned book", book.withdraw(2))?;
    print_done(rt, "reopen", book.reopen())?;
    print_done(rt, "withdraw 2", book.withdraw(2))?;
    let answer = book.best_link_plan(&mut sheet);
    print_answer(rt, "plan by the best link", answer.map(Summary))?;
    print_drawing(rt, book)
}

/// Enters the demands, and goes through it all.
fn work(rt: &HostRuntime, book: &mut Book) -> anyhow::Result<()> {
    print_done(rt, "enter 1: two units 1-3", book.enter(1, 1, 3, 2))?;
    print_done(rt, "enter 2: one unit 5-2", book.enter(2, 5, 2, 1))?;
    print_done(rt, "enter 3: one unit 1-5", book.enter(3, 1, 5, 1))?;
    print_done(rt, "enter 3 again", book.enter(3, 4, 5, 1))?;
    plan_and_load(rt, book)?;
    plan_again(rt, book)
}

fn main(rt: HostRuntime) -> anyhow::Result<()> {
    let mut book = Book::start(rt.alloc(), 5, 7)?;
    work(&rt, &mut book)
}
