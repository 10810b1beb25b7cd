//! Taking a plan file: it is read, then its plan is checked, then the figures of its end frame are compared.

ghost use Rattle.std.specs.Prelude.{◌≡◌, ◌+◌, ◌^◌, ◌<◌, length};
ghost use Rattle.sheet.specs.Marks.{Blank};
ghost use Rattle.lines.specs.Writes.{overwrite};
ghost use Rattle.frames.specs.Reading.{reading, demands_in, rows_in};
ghost use Rattle.planfile.specs.Places.{Named, line_of, RefusalsNamed};
ghost use Rattle.planfile.specs.Taking.{compared, judged, taking};

use crate::{PlanFault, Taken};
use checker::check;
use frames::Contents;
use frames::read::read_file;
use ring::{Demand, Figures, Refusal, Row};
use sheet::Guard;

/// The text's line of the frame that a refusal of the checker is about, in a file that says this.
fn line_of(p: Contents, refusal: Refusal) -> usize
    requires named { Named p.demands p.units refusal }
    requires small { p.demands + p.units < 2 ^ 63 }
    ensures { result ≡ line_of p.demands refusal }
{
    match refusal {
        Refusal::EndOutside { place }
        | Refusal::EndsFalling { place }
        | Refusal::UnitsOutside { place }
        | Refusal::NumberTaken { place }
        | Refusal::BookFull { place }
        | Refusal::UnitsPast { place }
        | Refusal::CountWrong { line: place } => 1 + place,
        Refusal::DemandUnknown { row }
        | Refusal::SideWrong { row }
        | Refusal::SlotOutside { row }
        | Refusal::Collision { row, .. } => 1 + p.demands + row,
        _ => 1,
    }
}

/// Compares the figures of the end frame with the counts and with the checker's slot count.
fn compare(p: Contents, verdict: Figures) -> Result<Taken, PlanFault>
    requires { p.demands + p.units < 2 ^ 63 }
    ensures { result ≡ compared p verdict }
{
    let same = usize::from(p.totals.demands) == p.demands
        && usize::from(p.totals.units) == p.units
        && p.totals.slots == verdict.slots;
    if !same {
        return Err(PlanFault::Figures {
            line: 2 + p.demands + p.units,
        });
    }
    Ok(Taken {
        number: p.heading.number,
        nodes: p.heading.nodes,
        demands: p.demands,
        units: p.units,
        verdict,
    })
}

/// Checks what was read, and compares the figures of the end frame.
fn judge(p: Contents, lines: &[Demand], rows: &[Row], marks: &mut [u16]) -> Result<Taken, PlanFault>
    requires lines { length lines.now ≡ p.demands }
    requires rows { length rows.now ≡ p.units }
    ensures { result ≡ judged (length marks.old) p lines.now rows.now }
{
    match check(p.heading.nodes, lines, rows, marks) {
        Ok(verdict) => compare(p, verdict),
        Err(refusal) => Err(PlanFault::Refused {
            line: line_of(p, refusal),
            refusal,
        }),
    }
}

/// Takes a plan file on bare marks, which it leaves as they come.
fn take_on(
    text: &[u8],
    lines: &mut [Demand],
    rows: &mut [Row],
    marks: &mut [u16],
) -> Result<Taken, PlanFault>
    ensures answer { result ≡ taking (length marks.old) (reading (length lines.old) (length rows.old) text.now) }
    ensures lines { lines.new ≡ overwrite lines.old 0 (demands_in (reading (length lines.old) (length rows.old) text.now).frames) }
    ensures rows { rows.new ≡ overwrite rows.old 0 (rows_in (reading (length lines.old) (length rows.old) text.now).frames) }
{
    let p = read_file(text, lines, rows)?;
    judge(p, &lines[..p.demands], &rows[..p.units], marks)
}

/// Takes a plan file. Its demands and rows go to the front of `lines` and `rows`, in their order: those before a fault where it cannot be read,
/// and all where the check or the figures refuse it. The places past what is written stay. The sheet is blank in full length on every way out.
pub fn take_file(
    text: &[u8],
    lines: &mut [Demand],
    rows: &mut [Row],
    sheet: &mut [u16],
) -> Result<Taken, PlanFault>
    ensures answer { result ≡ taking (length sheet.old) (reading (length lines.old) (length rows.old) text.now) }
    ensures lines { lines.new ≡ overwrite lines.old 0 (demands_in (reading (length lines.old) (length rows.old) text.now).frames) }
    ensures rows { rows.new ≡ overwrite rows.old 0 (rows_in (reading (length lines.old) (length rows.old) text.now).frames) }
    ensures blank { Blank sheet.new (length sheet.old) }
{
    let guard = Guard { marks: sheet };
    take_on(text, lines, rows, guard.marks)
}

/// Whatever the checker refuses, the demand or the row that it names is one of those given.
pub fn refusals_named()
    ensures { RefusalsNamed }
{}
