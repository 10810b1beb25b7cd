//! The book and what always holds of it. The calls stand in the modules below: this file cites no spec that names the book.

ghost use Rattle.std.specs.Prelude.{◌≡◌, ◌+◌, ◌≤◌, true, length, vec_capacity};
ghost use Rattle.ring.specs.Ring.{within_limits};
ghost use Rattle.booklaw.specs.Books.{most_rows, outs};

use booklaw::{Drawing, SlipCounts};
use ring::Demand;
use slotting::PlanRows;

mod checks;
mod demands;
mod drawings;
mod loading;
mod views;

/// The book of one ring.
///
/// Its lists have all the room that they can need from the start, so no later call can lack memory. Always: the demands are within the limits, their numbers
/// differ, an open book has no row and a planned one at most 1,024, and each slip that was issued was handed back or is out.
#[derive(Drop)]
pub struct Book {
    size: u8,
    number: u16,
    demands: Vec<Demand>,
    drawing: Drawing,
    rows: PlanRows,
    /// Whether a slip for node v is out, at place v.
    // Kept: a set would allocate at an issue, and no call after the start may lack memory.
    out: [bool; 17],
    counts: SlipCounts,
    ghost room: { 128 ≤ vec_capacity demands },
    ghost limits: { within_limits size demands.items ≡ true },
    ghost held: { length rows.items ≤ most_rows drawing },
    ghost places: { length out ≡ 17 },
    ghost accounted: { counts.issued ≡ counts.loaded + counts.returned + outs out },
}
