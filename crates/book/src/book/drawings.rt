//! Drawing a plan for the demands of a book, and writing it out.

ghost use Rattle.std.specs.Prelude.{◌≡◌, ℕ, length, take, IfOk, OnOk};
ghost use Rattle.ring.specs.Ring.{slot_count, lower_bound_of};
ghost use Rattle.ring.specs.Cuts.{heaviest_cut};
ghost use Rattle.drawn.specs.Claims.{WellDrawn, BestDrawn};
ghost use Rattle.drawn.specs.Slotting.{best_link};
ghost use Rattle.sheet.specs.Marks.{Blank};
ghost use Rattle.planwrite.specs.Backs.{ReadsBack};
ghost use Rattle.planfile.specs.Backs.{TakesBack};
ghost use Rattle.booklaw.specs.Books.{card_of};
ghost use Rattle.booklaw.specs.Calls.{Plan, BestLinkPlan, answered};
ghost use Rattle.book.specs.Does.{Does, demands_in, rows_in, state};
ghost use Rattle.book.specs.WriteOut.{writing_out, written_out};

use crate::book::Book;
use booklaw::{Card, Drawing};
use bounds::cuts::RingDemands;
use planfile::write::{PlanFile, write_plan};
use ring::{Figures, Refusal};
use rules::Rule;
use sheet::Guard;
use slotting::{Traffic, best_link, draw};

/// The card of a plan for the demands, with the figures of its rows.
fn card_for(traffic: &Traffic, figures: Figures) -> Card
    ensures { result ≡ record { figures = figures; cut = heaviest_cut traffic.now.nodes traffic.now.demands.now; lower_bound = lower_bound_of traffic.now.nodes traffic.now.demands.now } }
{
    let demands = RingDemands {
        nodes: traffic.nodes,
        demands: traffic.demands,
    };
    Card {
        figures,
        cut: demands.heaviest_cut(),
        lower_bound: demands.lower_bound(),
    }
}

impl Book {
    // Kept: two functions, since what they promise of the rows differs: at most twice the slots of every rival, or at most a rival's slots and its load on any one link.
    /// Draws a plan by a rule on marks that are lent.
    fn plan_on<R: Rule>(&mut self, rule: &R, marks: &mut [u16]) -> Result<Card, Refusal>
        ensures does { Does self.old (Plan (R.side rule.now) (R.parallel rule.now) (length marks.old)) (answered result) self.new }
        ensures card { IfOk result (λ card. card ≡ card_of self.old.size (demands_in self.old) (rows_in self.new)) }
        ensures well { OnOk result (WellDrawn self.old.size (demands_in self.old) (rows_in self.new)) }
    {
        self.must_be_open()?;
        let traffic = Traffic {
            nodes: self.size,
            demands: self.demands.as_slice(),
        };
        let figures = draw(&traffic, rule, marks, &mut self.rows)?;
        let card = card_for(&traffic, figures);
        self.drawing = Drawing::ByRule;
        Ok(card)
    }

    /// Draws a plan with the best link shut on marks that are lent.
    fn best_link_plan_on(&mut self, marks: &mut [u16]) -> Result<Card, Refusal>
        ensures does { Does self.old (BestLinkPlan (length marks.old)) (answered result) self.new }
        ensures card { IfOk result (λ card. card ≡ card_of self.old.size (demands_in self.old) (rows_in self.new)) }
        ensures best { OnOk result (BestDrawn self.old.size (demands_in self.old) (best_link self.old.size (demands_in self.old)) (rows_in self.new)) }
    {
        self.must_be_open()?;
        let traffic = Traffic {
            nodes: self.size,
            demands: self.demands.as_slice(),
        };
        let best = best_link(&traffic, marks, &mut self.rows)?;
        let card = card_for(&traffic, best.figures);
        self.drawing = Drawing::BestLink(best.link);
        Ok(card)
    }

    /// Draws a plan by a rule, on a sheet of 1,024 marks or more, and answers its card. The sheet is blank at the return, refused or not, whatever it held.
    ///
    /// The rows are a plan for the book's demands, with no more slots than the heaviest cut's total, and at most twice those of any rival.
    pub fn plan<R: Rule>(&mut self, rule: &R, sheet: &mut [u16]) -> Result<Card, Refusal>
        ensures does { Does self.old (Plan (R.side rule.now) (R.parallel rule.now) (length sheet.old)) (answered result) self.new }
        ensures card { IfOk result (λ card. card ≡ card_of self.old.size (demands_in self.old) (rows_in self.new)) }
        ensures blank { Blank sheet.new (length sheet.old) }
        ensures well { OnOk result (WellDrawn self.old.size (demands_in self.old) (rows_in self.new)) }
    {
        let guard = Guard { marks: sheet };
        self.plan_on(rule, guard.marks)
    }

    /// Draws a plan with the best link shut; else as `plan`.
    ///
    /// No rival has fewer slots than these rows by more than its own load on any one link.
    pub fn best_link_plan(&mut self, sheet: &mut [u16]) -> Result<Card, Refusal>
        ensures does { Does self.old (BestLinkPlan (length sheet.old)) (answered result) self.new }
        ensures card { IfOk result (λ card. card ≡ card_of self.old.size (demands_in self.old) (rows_in self.new)) }
        ensures blank { Blank sheet.new (length sheet.old) }
        ensures best { OnOk result (BestDrawn self.old.size (demands_in self.old) (best_link self.old.size (demands_in self.old)) (rows_in self.new)) }
    {
        let lent = Guard { marks: sheet };
        self.best_link_plan_on(lent.marks)
    }

    /// Writes the plan's file into the front of the bytes, and answers its length; the bytes past it stay. Refused if there is no plan, or the bytes are too
    /// few, and then nothing is written.
    pub fn write_out(&self, bytes: &mut [u8]) -> Result<usize, Refusal>
        ensures answer { result ≡ writing_out (state self.now) bytes.old }
        ensures written { bytes.new ≡ written_out (state self.now) bytes.old }
        ensures back { IfOk result (λ n. ReadsBack self.now.number self.now.size (demands_in self.now) (rows_in self.now) (slot_count (rows_in self.now)) (take n bytes.new)) }
        ensures taken { IfOk result (λ n. TakesBack self.now.number self.now.size (demands_in self.now) (rows_in self.now) (take n bytes.new)) }
    {
        self.must_be_planned()?;
        let plan = PlanFile {
            number: self.number,
            nodes: self.size,
            demands: self.demands.as_slice(),
            rows: self.rows.as_slice(),
        };
        write_plan(&plan, bytes)
    }
}
