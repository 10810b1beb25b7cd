//! What a call asks of a book before it changes anything.

ghost use Rattle.std.specs.Prelude.{◌≡◌, true, false, MatchResult};
ghost use Rattle.refusals.specs.declared.Refusal.TheVariants.{Planned, Unplanned, SlipUnknown};
ghost use Rattle.booklaw.specs.Books.{is_open, fits};
ghost use Rattle.book.specs.Does.{state};

use crate::book::Book;
use crate::slips::Slip;
use booklaw::Drawing;
use ring::Refusal;

// Kept: `must_be_open` and `must_be_planned` each match the drawing, and do not ask `is_open`, so that with one more kind of drawing neither is read until it names it.
impl Book {
    /// Refused where the book is planned: its demands may not change then, and no other plan may be drawn.
    pub(super) fn must_be_open(&self) -> Result<(), Refusal>
        ensures { MatchResult result (λ _. is_open self.now.drawing ≡ true) (λ e. (is_open self.now.drawing ≡ false) × (e ≡ Planned)) }
    {
        match self.drawing {
            Drawing::Open => Ok(()),
            Drawing::ByRule | Drawing::BestLink(_) => Err(Refusal::Planned),
        }
    }

    /// Refused where the book has no plan: there are no rows to be written or handed out, and there is nothing to drop.
    pub(super) fn must_be_planned(&self) -> Result<(), Refusal>
        ensures { MatchResult result (λ _. is_open self.now.drawing ≡ false) (λ e. (is_open self.now.drawing ≡ true) × (e ≡ Unplanned)) }
    {
        match self.drawing {
            Drawing::Open => Err(Refusal::Unplanned),
            Drawing::ByRule | Drawing::BestLink(_) => Ok(()),
        }
    }

    /// The slip, if it has the number of this book and its node is out; else it comes back beside the refusal.
    pub(super) fn known(&self, slip: Slip) -> Result<Slip, (Refusal, Slip)>
        ensures { MatchResult result (λ s. (fits (state self.now) slip.book slip.node ≡ true) × (s ≡ slip)) (λ e. (fits (state self.now) slip.book slip.node ≡ false) × (e.0 ≡ SlipUnknown) × (e.1 ≡ slip)) }
    {
        if slip.book == self.number && self.is_out(slip.node) {
            Ok(slip)
        } else {
            Err((Refusal::SlipUnknown, slip))
        }
    }
}
