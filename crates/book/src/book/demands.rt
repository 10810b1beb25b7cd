//! Starting a book, and its demands.

ghost use Rattle.std.specs.Prelude.{◌≡◌, ℕ, IfOk};
ghost use Rattle.booklaw.specs.Calls.{Enter, Withdraw, answered};
ghost use Rattle.book.specs.Does.{Does};
ghost use Rattle.book.specs.Runs.{Sound};
ghost use Rattle.book.specs.Starts.{Starts};

use crate::book::Book;
use booklaw::{Drawing, SlipCounts, StartFault};
use checkrows::routes::line_of;
use entries::check_entry;
use ring::Refusal;
use slotting::PlanRows;
use std::alloc::Global;

impl Book {
    /// An open and empty book, with all the room that it can need.
    fn begin(heap: Global, n: u8, number: u16) -> Result<Book, StartFault>
        ensures { Starts n number result }
    {
        if !(3..=16).contains(&n) {
            return Err(StartFault::Refused(Refusal::RingSize));
        }
        let demands = Vec::with_capacity(heap, 128)?;
        let rows = PlanRows::with_room(heap)?;
        Ok(Book {
            size: n,
            number,
            demands,
            drawing: Drawing::Open,
            rows,
            out: [false; 17],
            counts: SlipCounts {
                issued: 0,
                loaded: 0,
                returned: 0,
            },
        })
    }

    /// An open and empty book of a ring of n nodes, 3 to 16, with a book number.
    ///
    /// The law of the book stands here (`Sound`, docs/THEOREM.md): whatever calls are made on it, in whatever order, with whatever rules, its plan is a plan for the
    /// demands that the calls left in it, within bounds of every rival, and stays as it is while a slip is out.
    pub fn start(heap: Global, n: u8, number: u16) -> Result<Book, StartFault>
        ensures starts { Starts n number result }
        ensures sound { IfOk result (λ b. Sound n number b) }
    {
        Book::begin(heap, n, number)
    }

    /// Adds a demand at the end. The ends come in either order.
    pub fn enter(&mut self, number: u16, a: u8, b: u8, units: u8) -> Result<(), Refusal>
        ensures { Does self.old (Enter number a b units) (answered result) self.new }
    {
        self.must_be_open()?; // a demand comes into an open book only
        let demand = check_entry(self.size, self.demands.as_slice(), number, a, b, units)?;
        self.demands.push_reserved(demand);
        Ok(())
    }

    /// Takes the demand with a number out; the later ones move up.
    pub fn withdraw(&mut self, number: u16) -> Result<(), Refusal>
        ensures { Does self.old (Withdraw number) (answered result) self.new }
    {
        self.must_be_open()?;
        let Some(at) = line_of(self.demands.as_slice(), number) else {
            return Err(Refusal::NumberUnknown);
        };
        self.demands.remove(at);
        Ok(())
    }
}
