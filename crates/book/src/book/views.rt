//! What can be seen of a book.

ghost use Rattle.std.specs.Prelude.{◌≡◌};
ghost use Rattle.booklaw.specs.Books.{is_out as marked};
ghost use Rattle.book.specs.Does.{demands_in, rows_in};

use crate::book::Book;
use booklaw::{Drawing, SlipCounts};
use ring::{Demand, Row};

impl Book {
    /// The number of nodes of the ring.
    pub fn size(&self) -> u8
        ensures { result ≡ self.now.size }
    {
        self.size
    }

    /// The number of the book.
    pub fn number(&self) -> u16
        ensures { result ≡ self.now.number }
    {
        self.number
    }

    /// The demands, in the order of entry.
    pub fn demands(&self) -> &[Demand]
        ensures { result.now ≡ demands_in self.now }
    {
        self.demands.as_slice()
    }

    /// The rows of the plan; none where the book is open.
    pub fn rows(&self) -> &[Row]
        ensures { result.now ≡ rows_in self.now }
    {
        self.rows.as_slice()
    }

    /// Which drawing the book holds: none, one by a rule, or one by the best link, with that link.
    pub fn drawing(&self) -> Drawing
        ensures { result ≡ self.now.drawing }
    {
        self.drawing
    }

    /// Whether a slip for the node is out.
    pub fn is_out(&self, node: u8) -> bool
        ensures { result ≡ marked self.now.out node }
    {
        self.out.get(usize::from(node)).copied().unwrap_or(false)
    }

    /// How many slips were issued, handed back as loaded, and handed back as returned, since the book was started.
    pub fn slip_counts(&self) -> SlipCounts
        ensures { result ≡ self.now.counts }
    {
        self.counts
    }
}
