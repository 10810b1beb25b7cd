//! Sample books: tables of calls with the number of the refusal that each gets, if it gets one, and what is left.

use book::book::Book;
use booklaw::{Card, Drawing, SlipCounts, StartFault};
use loader::load_node;
use ring::{Demand, Refusal, Row};
use rules::ShortSide;
use std::alloc::Global;
use std::process::Abort;
use std::test::Fail;

/// A call on a book.
#[derive(Clone, Copy)]
enum Act {
    /// A demand with a number, two ends and units.
    Enter(u16, u8, u8, u8),
    Withdraw(u16),
    /// By the short side, or by the best link, on a sheet of so many marks.
    Plan(usize),
    BestLink(usize),
    Reopen,
    /// Into so many bytes.
    WriteOut(usize),
    /// All of issue, read and hand back, for a node and so many places.
    Load(u8, usize),
}

/// A call, and the number of the refusal that it gets, if it gets one.
#[derive(Clone, Copy)]
struct Case(Act, Option<u8>);

/// The number of the refusal, if the call was refused.
fn number_of<T: Drop>(answer: Result<T, Refusal>) -> Option<u8> {
    answer.err().map(|refusal| refusal.number())
}

/// Draws on a sheet of so many marks that is not blank before, and has to be after.
fn draw<F: FnOnce(&mut [u16]) -> Result<Card, Refusal>>(
    rt: &impl Abort,
    marks: usize,
    plan: F,
) -> Option<u8>
    requires { F.IsAlwaysCallable plan }
{
    let mut sheet = [7u16; 2048];
    let lent = &mut sheet[0..marks.min(2048)];
    let answer = plan(lent);
    assert!(rt; lent.iter().all(|mark| *mark == 0));
    number_of(answer)
}

/// Makes a call.
fn perform(rt: &impl Abort, book: &mut Book, act: Act) -> Option<u8> {
    match act {
        Act::Enter(number, a, b, units) => number_of(book.enter(number, a, b, units)),
        Act::Withdraw(number) => number_of(book.withdraw(number)),
        Act::Plan(marks) => draw(rt, marks, |sheet| book.plan(&ShortSide, sheet)),
        Act::BestLink(marks) => draw(rt, marks, |sheet| book.best_link_plan(sheet)),
        Act::Reopen => number_of(book.reopen()),
        Act::WriteOut(count) => {
            let mut bytes = [0u8; 256];
            number_of(book.write_out(&mut bytes[0..count.min(256)]))
        }
        Act::Load(node, count) => {
            let mut places = [Row::default(); 16];
            number_of(load_node(book, node, &mut places[0..count.min(16)]))
        }
    }
}

/// Makes the calls of a table one after another, and compares what each answers.
fn perform_all(rt: &impl Abort, book: &mut Book, cases: &[Case]) {
    for Case(act, number) in cases {
        assert_eq!(rt; perform(rt, book, *act), *number);
    }
}

/// Two units 1-3 and one unit 2-4, the latter with its ends falling.
const SAMPLE: [Case; 2] = [
    Case(Act::Enter(1, 1, 3, 2), None),
    Case(Act::Enter(2, 4, 2, 1), None),
];

/// The number of the refusal that a start gets, if it gets one.
fn refusal_of_start(heap: Global, n: u8) -> Result<Option<u8>, StartFault> {
    match Book::start(heap, n, 7) {
        Ok(_) => Ok(None),
        Err(StartFault::Refused(refusal)) => Ok(Some(refusal.number())),
        Err(fault) => Err(fault),
    }
}

#[test]
fn rings_have_3_to_16_nodes(rt: HostRuntime) -> Result<(), Fail> {
    assert_eq!(rt; refusal_of_start(rt.alloc(), 2)?, Some(1));
    assert_eq!(rt; refusal_of_start(rt.alloc(), 3)?, None);
    assert_eq!(rt; refusal_of_start(rt.alloc(), 16)?, None);
    assert_eq!(rt; refusal_of_start(rt.alloc(), 17)?, Some(1));
    Ok(())
}

const ENTRIES: [Case; 14] = [
    Case(Act::Withdraw(1), Some(8)),
    Case(Act::Enter(1, 1, 4, 48), None),
    Case(Act::Enter(1, 0, 0, 0), Some(4)),
    Case(Act::Enter(1, 4, 5, 0), Some(4)),
    Case(Act::Enter(1, 3, 3, 0), Some(5)),
    Case(Act::Enter(1, 3, 2, 0), Some(6)),
    Case(Act::Enter(1, 3, 2, 49), Some(6)),
    Case(Act::Enter(1, 3, 2, 48), Some(7)),
    Case(Act::Enter(0, 3, 2, 48), Some(7)),
    Case(Act::Enter(2, 3, 2, 48), None),
    Case(Act::Withdraw(0), Some(8)),
    Case(Act::Withdraw(1), None),
    Case(Act::Withdraw(1), Some(8)),
    Case(Act::Enter(1, 3, 2, 1), None),
];

#[test]
fn demands_are_checked_in_order(rt: HostRuntime) -> Result<(), Fail> {
    let mut book = Book::start(rt.alloc(), 4, 65535)?;
    perform_all(&rt, &mut book, &ENTRIES);
    let left = [
        Demand {
            number: 2,
            lower: 2,
            upper: 3,
            units: 48,
        },
        Demand {
            number: 1,
            lower: 2,
            upper: 3,
            units: 1,
        },
    ];
    assert_eq!(rt; book.demands(), left.as_slice());
    Ok(())
}

#[test]
fn a_book_holds_1024_units(rt: HostRuntime) -> Result<(), Fail> {
    let mut book = Book::start(rt.alloc(), 16, 0)?;
    for number in 1..22u16 {
        assert_eq!(rt;
            perform(&rt, &mut book, Act::Enter(number, 1, 16, 48)),
            None
        );
    }
    let edge = [
        Case(Act::Enter(22, 1, 2, 17), Some(10)),
        Case(Act::Enter(22, 1, 2, 16), None),
        Case(Act::Enter(23, 1, 2, 1), Some(10)),
    ];
    perform_all(&rt, &mut book, &edge);
    Ok(())
}

#[test]
fn a_book_holds_128_demands(rt: HostRuntime) -> Result<(), Fail> {
    let mut book = Book::start(rt.alloc(), 3, 0)?;
    for number in 1..129u16 {
        assert_eq!(rt; perform(&rt, &mut book, Act::Enter(number, 3, 1, 8)), None);
    }
    let edge = [
        Case(Act::Enter(129, 3, 1, 8), Some(9)),
        Case(Act::Withdraw(64), None),
        Case(Act::Enter(129, 3, 1, 9), Some(10)),
        Case(Act::Enter(129, 3, 1, 8), None),
    ];
    perform_all(&rt, &mut book, &edge);
    Ok(())
}

const PLANS: [Case; 24] = [
    Case(Act::WriteOut(256), Some(3)),
    Case(Act::Reopen, Some(3)),
    Case(Act::Load(1, 16), Some(3)),
    Case(Act::Plan(1023), Some(15)),
    Case(Act::BestLink(0), Some(15)),
    Case(Act::Plan(1025), None),
    Case(Act::Plan(1024), Some(2)),
    Case(Act::Plan(0), Some(2)),
    Case(Act::BestLink(1024), Some(2)),
    Case(Act::Enter(3, 1, 2, 1), Some(2)),
    Case(Act::Withdraw(1), Some(2)),
    Case(Act::WriteOut(88), Some(15)),
    Case(Act::WriteOut(89), None),
    Case(Act::WriteOut(256), None),
    Case(Act::Load(0, 16), Some(4)),
    Case(Act::Load(5, 16), Some(4)),
    Case(Act::Load(3, 1), Some(15)),
    Case(Act::Load(3, 2), None),
    Case(Act::Load(3, 16), None),
    Case(Act::Reopen, None),
    Case(Act::Load(3, 16), Some(3)),
    Case(Act::Withdraw(2), None),
    Case(Act::BestLink(1024), None),
    Case(Act::Load(4, 0), None),
];

#[test]
fn plans_are_drawn_and_handed_out(rt: HostRuntime) -> Result<(), Fail> {
    let mut book = Book::start(rt.alloc(), 4, 7)?;
    perform_all(&rt, &mut book, &SAMPLE);
    perform_all(&rt, &mut book, &PLANS);
    assert_eq!(rt; book.drawing(), Drawing::BestLink(1));
    let counts = SlipCounts {
        issued: 4,
        loaded: 3,
        returned: 1,
    };
    assert_eq!(rt; book.slip_counts(), counts);
    Ok(())
}

#[test]
fn the_card_has_the_figures(rt: HostRuntime) -> Result<(), Fail> {
    let mut book = Book::start(rt.alloc(), 4, 7)?;
    perform_all(&rt, &mut book, &SAMPLE);
    let mut sheet = [0u16; 1024];
    let card = book.plan(&ShortSide, &mut sheet)?;
    assert_eq!(rt; card.figures.slots, 3);
    assert_eq!(rt; &card.figures.loads[0..5], [2u16, 3, 1, 0, 0].as_slice());
    assert_eq!(rt; card.cut.first, 1);
    assert_eq!(rt; card.cut.second, 3);
    assert_eq!(rt; card.cut.total, 3);
    assert_eq!(rt; card.lower_bound, 2);
    Ok(())
}

#[test]
fn a_book_issues_65535_slips(rt: HostRuntime) -> Result<(), Fail> {
    let mut book = Book::start(rt.alloc(), 4, 7)?;
    perform_all(&rt, &mut book, &SAMPLE);
    assert_eq!(rt; perform(&rt, &mut book, Act::Plan(1024)), None);
    for _ in 0..65534 {
        assert_eq!(rt; perform(&rt, &mut book, Act::Load(2, 0)), Some(15));
    }
    let edge = [
        Case(Act::Reopen, None),
        Case(Act::Plan(1024), None),
        Case(Act::Load(2, 0), Some(15)),
        Case(Act::Load(2, 0), Some(13)),
    ];
    perform_all(&rt, &mut book, &edge);
    Ok(())
}
