//! The rows, one by one, on the sheet of marks.

ghost use Rattle.std.specs.Prelude.{◌≡◌, ◌+◌, ◌-◌, ◌<◌, ◌≤◌, true, false, ◌&&◌, length, take, Some, None, MatchResult, nat_le, slice_index};
ghost use Rattle.refusals.specs.declared.Refusal.TheVariants.{Collision};
ghost use Rattle.ring.specs.Sums.{some};
ghost use Rattle.ring.specs.Ring.{WithinLimits};
ghost use Rattle.sheet.specs.Marks.{Blank, meets};
ghost use Rattle.checklines.specs.Faults.{Tells};
ghost use Rattle.checkrows.specs.Rows.{clash, earliest, form_fault, rows_fault, row_at};
ghost use Rattle.checkrows.specs.Track.{LineOf, alike, slot_or_side_fault, Seen, ClearTo, marked_at};

use crate::routes::{DemandLines, line_of};
use ring::{Demand, Refusal, Row};

/// Whether a side is 0 or 1 and that of the demand's first row, if there is one.
fn side_fits(side: u8, first: Option<u8>) -> bool
    ensures { result ≡ (nat_le side 1 && alike first side) }
{
    side <= 1 && first.is_none_or(|other| other == side)
}

/// Checks the slot of a row, then its side beside that of its demand's first row.
fn check_slot_and_side(row: Row, first: Option<u8>, place: usize) -> Result<(), Refusal>
    ensures { Tells result (slot_or_side_fault row first place) }
{
    if !(1..=1024).contains(&row.slot) {
        return Err(Refusal::SlotOutside { row: place });
    }
    if !side_fits(row.side, first) {
        return Err(Refusal::SideWrong { row: place });
    }
    Ok(())
}

/// Checks a row by itself and beside its demand's first row among the rows before it, and gives the place of its line. The side of the first
/// row of each line so far is given.
fn check_row(
    lines: &[Demand],
    before: &[Row],
    row: Row,
    firsts: &[Option<u8>],
) -> Result<usize, Refusal>
    requires room { length lines.now ≤ length firsts.now }
    requires seen { Seen lines.now before.now firsts.now }
    ensures { MatchResult result (λ k. (form_fault lines.now before.now row ≡ None) × LineOf lines.now row.demand k) (λ f. form_fault lines.now before.now row ≡ Some f) }
{
    let place = before.len() + 1;
    let k = line_of(lines, row.demand).ok_or(Refusal::DemandUnknown { row: place })?;
    check_slot_and_side(row, firsts[k], place)?;
    Ok(k)
}

/// Whether a link of the mask is taken in the slot.
fn is_taken(marks: &[u16], slot: u16, mask: u16) -> bool
    requires { (1 ≤ slot) × (slot ≤ length marks.now) }
    ensures { result ≡ meets mask (slice_index marks.now (slot - 1)) }
{
    marks[usize::from(slot) - 1] & mask != 0
}

/// Marks the links of the mask in the slot.
fn mark(marks: &mut [u16], slot: u16, mask: u16)
    requires { (1 ≤ slot) × (slot ≤ length marks.old) }
    ensures { marks.new ≡ marked_at marks.old slot mask }
{
    marks[usize::from(slot) - 1] |= mask;
}

/// The refusal of the row at a place, the first that collides with an earlier one.
fn collision(lines: &DemandLines<'_>, rows: &[Row], at: usize) -> Refusal
    requires given { at < length rows.now }
    requires clear { ClearTo lines.now.nodes lines.now.lines.now rows.now at }
    requires met { some (clash lines.now.nodes lines.now.lines.now (row_at rows.now at)) (take at rows.now) ≡ true }
    ensures { result ≡ Collision (at + 1) (earliest lines.now.nodes lines.now.lines.now (take at rows.now) (row_at rows.now at) + 1) }
{
    match lines.colliding_pair(rows) {
        Some((row, met)) => Refusal::Collision {
            row: row + 1,
            met: met + 1,
        },
        None => unreachable(),
    }
}

/// Checks the rows one by one, and gives the first fault. Each row that passes is marked on the sheet, so that a mark shows whether a slot is
/// taken along a route; only where it is, the two rows are looked for.
pub fn check_rows(n: u8, lines: &[Demand], rows: &[Row], marks: &mut [u16]) -> Result<(), Refusal>
    requires limits { WithinLimits n lines.now }
    requires room { 1024 ≤ length marks.old }
    requires blank { Blank marks.old (length marks.old) }
    ensures { Tells result (rows_fault n lines.now rows.now) }
{
    let plan_lines = DemandLines { nodes: n, lines };
    // Kept: the side of each line's first row stands in an array beside the lines, since the checker works in fixed memory.
    let mut firsts: [Option<u8>; 128] = [None; 128];
    for (i, row) in rows.iter().enumerate() {
        let k = check_row(lines, &rows[..i], *row, &firsts)?;
        firsts[k] = Some(row.side);
        let mask = plan_lines.row_mask(*row);
        if is_taken(marks, row.slot, mask) {
            return Err(collision(&plan_lines, rows, i));
        }
        mark(marks, row.slot, mask);
    }
    Ok(())
}
