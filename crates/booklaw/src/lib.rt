//! What the calls of a book mean, and the law that holds over every list of them.
//!
//! A book keeps the demands of one ring, draws a plan for them, and hands the plan out node by node. `specs/` says what a book holds, what each call answers
//! and leaves, and what a history of calls and answers says by itself; the law ties the two together. The crate `book` has the code.
#![tactic(auto)]

ghost use Rattle.std.specs.Prelude.{◌≡◌, Some};
ghost use Rattle.booklaw.specs.declared.StartFault.TheVariants.{Memory};
ghost use Rattle.booklaw.specs.Books.{is_open};
ghost use Rattle.booklaw.specs.Faults.{fault_words};
ghost use Rattle.booklaw.specs.Laws.{EveryListIsLawful, RowsStayWhileOut};

use ring::{Cut, Figures, Refusal};
use std::alloc::AllocError;
use std::error::Error;
use std::fmt;

/// Which drawing a book holds.
#[derive(Clone, Copy, PartialEq, Eq, Debug)]
pub enum Drawing {
    /// None: demands may come and go.
    Open,
    /// A plan by a routing rule.
    ByRule,
    /// A plan with this link shut, the best one.
    BestLink(u8),
}

impl Drawing {
    /// Whether there is no plan.
    pub fn is_open(self) -> bool
        ensures { result ≡ is_open self }
    {
        matches!(self, Drawing::Open)
    }
}

/// The card of a plan: its figures, the heaviest cut of its demands, and the lower bound, which no plan for them goes below.
#[derive(Clone, Copy, PartialEq, Eq, Debug)]
pub struct Card {
    pub figures: Figures,
    pub cut: Cut,
    pub lower_bound: u16,
}

/// Why a book cannot be started.
#[derive(Clone, Copy, PartialEq, Eq, Debug)]
pub enum StartFault {
    /// There is no memory for it. No later call needs any.
    Memory,
    /// The ring size is not 3 to 16.
    Refused(Refusal),
}

impl From<AllocError> for StartFault {
    ghost from_gives = { λ _ r. r ≡ Memory };

    fn from(_e: AllocError) -> StartFault {
        StartFault::Memory
    }
}

impl fmt::Display for StartFault {
    ghost output = { λ fault. Some (fault_words fault) };

    fn fmt<W: fmt::Write>(&self, f: &mut fmt::Formatter<W>) -> fmt::Result {
        match self {
            StartFault::Memory => write!(f, "no memory"),
            StartFault::Refused(_) => write!(f, "no such ring"),
        }
    }
}

impl Error for StartFault {}

/// Where a slip stands.
#[derive(Clone, Copy, PartialEq, Eq, Debug)]
pub enum Stage {
    /// Issued, and not read yet.
    Unread,
    /// The rows of its node were read.
    Read,
    /// Handed back: nothing is owed for it any more.
    Spent,
}

/// How many slips a book has issued since it was started, and how many of them were handed back as loaded and as returned. The others are out.
#[derive(Clone, Copy, PartialEq, Eq, Debug)]
pub struct SlipCounts {
    pub issued: u16,
    pub loaded: u16,
    pub returned: u16,
}

/// The law over every list of calls on a fresh book, and that rows stay the same while a slip is out.
pub fn every_list_is_lawful()
    ensures law { EveryListIsLawful }
    ensures rows { RowsStayWhileOut }
{}
