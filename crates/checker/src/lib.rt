//! The plan checker: it passes exactly the plans, with their slot count and loads, and gives the first cause against any other rows.
#![tactic(auto)]

mod figures;

ghost use Rattle.std.specs.Prelude.{◌≡◌, length};
ghost use Rattle.sheet.specs.Marks.{Blank};
ghost use Rattle.std.specs.Option.{option_or};
ghost use Rattle.checklines.specs.Faults.{Tells};
ghost use Rattle.checklines.specs.Lines.{lines_fault};
ghost use Rattle.checker.specs.Verdicts.{ring_fault, sheet_fault, verdict};
ghost use Rattle.checker.specs.Claims.{PassesPlans, PassesExactly, HasFigures, NamesCollision, Answered, VerdictMeans};

use checklines::check_lines;
use checkrows::counts::check_counts;
use checkrows::routes::DemandLines;
use checkrows::rows::check_rows;
use figures::figures_of;
use ring::{Demand, Figures, Refusal, Row};
use sheet::{Guard, blank};

/// Checks the ring size, the length of the sheet and the demand lines.
fn check_given(n: u8, lines: &[Demand], marks: usize) -> Result<(), Refusal>
    ensures { Tells result (option_or (ring_fault n) (option_or (sheet_fault marks) (lines_fault n lines.now))) }
{
    if !(3..=16).contains(&n) {
        return Err(Refusal::RingSize);
    }
    if marks < 1024 {
        return Err(Refusal::TooFew { needed: 1024 });
    }
    check_lines(n, lines)
}

// Kept: size, lines, rows and sheet are four parameters, here and in `check_rows`, as the call from outside has them; nothing is known of them before they are checked.
/// The whole check on bare marks, which it leaves as they come.
fn check_on(n: u8, lines: &[Demand], rows: &[Row], marks: &mut [u16]) -> Result<Figures, Refusal>
    ensures { Answered n lines.now rows.now (length marks.old) result }
{
    check_given(n, lines, marks.len())?;
    blank(marks);
    check_rows(n, lines, rows, marks)?;
    check_counts(lines, rows)?;
    let lines = DemandLines { nodes: n, lines };
    Ok(figures_of(&lines, rows))
}

/// Checks a plan from elsewhere. It passes, with its slot count and loads, or the first cause against it is given; docs/CHECKER.md has the order.
/// The sheet of at least 1,024 marks is blank in full length on every way out, whatever it held.
pub fn check(n: u8, lines: &[Demand], rows: &[Row], sheet: &mut [u16]) -> Result<Figures, Refusal>
    ensures answer { result ≡ verdict n lines.now rows.now (length sheet.old) }
    ensures blank { Blank sheet.new (length sheet.old) }
    ensures passes { PassesPlans n lines.now rows.now (length sheet.old) result }
    ensures exactly { PassesExactly n lines.now rows.now (length sheet.old) result }
    ensures figures { HasFigures n lines.now rows.now result }
    ensures collision { NamesCollision n lines.now rows.now result }
{
    let guard = Guard { marks: sheet };
    check_on(n, lines, rows, guard.marks)
}

/// What the verdict means, whatever it is given.
pub fn verdict_means()
    ensures { VerdictMeans }
{}
