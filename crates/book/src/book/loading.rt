//! Handing the plan of a book out node by node, and reopening the book.

ghost use Rattle.std.specs.Prelude.{◌≡◌, ℕ, ◌<◌, false, length, IfOk, IfErr, MatchResult, slice_set};
ghost use Rattle.planwrite.specs.Fronts.{fronted};
ghost use Rattle.booklaw.specs.Books.{outs, node_rows};
ghost use Rattle.booklaw.specs.Calls.{Issue, Read, HandBack, Reopen, as_loaded, as_returned, answered, answered_back};
ghost use Rattle.booklaw.specs.declared.Stage.TheVariants.{Unread};
ghost use Rattle.book.specs.Does.{Does, demands_in, rows_in, state};
ghost use Rattle.book.specs.Slips.{IsUnread, IsRead, slip_for, now_read};

use crate::book::Book;
use crate::slips::{Slip, spend};
use booklaw::{Drawing, Stage};
use entries::is_node;
use handouts::NodeRows;
use ring::{Refusal, Row};

/// Clears the mark of a slip's node, and lets the slip go.
fn clear(out: &mut [bool; 17], slip: Slip)
    requires { slip.node < length out.old }
    ensures { out.new ≡ slice_set out.old slip.node false }
{
    out[usize::from(slip.node)] = false;
    spend(slip);
}

impl Book {
    /// How many nodes are marked out: those whose slips were issued and not handed back.
    fn nodes_out(&self) -> u16
        ensures { result ≡ outs self.now.out }
    {
        self.counts.issued - self.counts.loaded - self.counts.returned
    }

    /// Gives an unread slip for a node, and marks the node out.
    pub fn issue(&mut self, node: u8) -> Result<Slip, Refusal>
        ensures does { Does self.old (Issue node) (answered result) self.new }
        ensures slip { IfOk result (λ s. s ≡ slip_for self.old.number node Unread) }
    {
        self.must_be_planned()?;
        if !is_node(self.size, node) {
            return Err(Refusal::EndOutside { place: 0 });
        }
        if self.is_out(node) {
            return Err(Refusal::NodeOut);
        }
        if self.counts.issued == u16::MAX {
            return Err(Refusal::SlipsSpent);
        }
        self.out[usize::from(node)] = true;
        self.counts.issued += 1;
        Ok(Slip {
            book: self.number,
            node,
            stage: Stage::Unread,
        })
    }

    /// Writes the rows of all demands with the slip's node as either end to the front of the caller's rows, in the order of the plan, answers how many they are, and
    /// gives the slip back as read. The places past them stay. A refusal gives the slip back as it was, and writes nothing.
    pub fn read(&self, slip: Slip, rows: &mut [Row]) -> Result<(usize, Slip), (Refusal, Slip)>
        requires { IsUnread slip }
        ensures does { Does self.now (Read slip.book slip.node (length rows.old)) (answered_back result) self.now }
        ensures answer { MatchResult result (λ p. (p.0 ≡ length (node_rows (demands_in self.now) (rows_in self.now) slip.node)) × (p.1 ≡ now_read slip)) (λ e. e.1 ≡ slip) }
        ensures rows { MatchResult result (λ _. rows.new ≡ fronted (node_rows (demands_in self.now) (rows_in self.now) slip.node) rows.old) (λ _. rows.new ≡ rows.old) }
    {
        let slip = self.known(slip)?;
        let wanted = NodeRows {
            demands: self.demands.as_slice(),
            rows: self.rows.as_slice(),
            node: slip.node,
        };
        match wanted.hand_out(rows) {
            Ok(count) => {
                let mut read = slip;
                read.stage = Stage::Read;
                Ok((count, read))
            }
            Err(refusal) => Err((refusal, slip)),
        }
    }

    // Kept: two calls, and not one with a flag, since only the first asks for a slip that was read.
    /// Takes a read slip back, whose rows were loaded, and clears the mark of its node. A refusal gives the slip back as it was.
    pub fn hand_back_loaded(&mut self, slip: Slip) -> Result<(), (Refusal, Slip)>
        requires { IsRead slip }
        ensures does { Does self.old (HandBack as_loaded slip.book slip.node) (answered_back result) self.new }
        ensures slip { IfErr result (λ e. e.1 ≡ slip) }
    {
        let slip = self.known(slip)?;
        prove!(self.counts.loaded < self.counts.issued);
        clear(&mut self.out, slip);
        self.counts.loaded += 1;
        Ok(())
    }

    /// Takes a slip back, read or not, whose rows were not loaded, and clears the mark of its node. A refusal gives the slip back as it was.
    pub fn hand_back_returned(&mut self, slip: Slip) -> Result<(), (Refusal, Slip)>
        ensures does { Does self.old (HandBack as_returned slip.book slip.node) (answered_back result) self.new }
        ensures slip { IfErr result (λ e. e.1 ≡ slip) }
    {
        let slip = self.known(slip)?;
        prove!(self.counts.returned < self.counts.issued);
        clear(&mut self.out, slip);
        self.counts.returned += 1;
        Ok(())
    }

    /// Drops the plan, so that demands may come and go again. Refused while a node is out.
    pub fn reopen(&mut self) -> Result<(), Refusal>
        ensures { Does self.old Reopen (answered result) self.new }
    {
        self.must_be_planned()?;
        if self.nodes_out() > 0 {
            return Err(Refusal::NodesOut);
        }
        self.rows.clear();
        self.drawing = Drawing::Open;
        Ok(())
    }
}
