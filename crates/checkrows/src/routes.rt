//! The routes of rows, and rows that collide.

ghost use Rattle.std.specs.Prelude.{◌≡◌, ℕ, ◌≤◌, false, length, MatchOption, ◌==◌};
ghost use Rattle.ring.specs.Ring.{named, row_over};
ghost use Rattle.ring.specs.Sides.{code as code_of, holds};
ghost use Rattle.checkrows.specs.Rows.{clash};
ghost use Rattle.checkrows.specs.Track.{mask, LineOf, ClearTo, FirstClash};

use ring::{Demand, Route, Row, Side};

/// The place of the line with the number, counted from 0.
pub fn line_of(lines: &[Demand], number: u16) -> Option<usize>
    ensures { MatchOption result (named lines.now number ≡ false) (LineOf lines.now number) }
{
    lines.iter().position(|line| line.number == number)
}

/// The side that a row's number stands for: 0 is clockwise, and any other number counts as counter-clockwise.
// Kept: a `From<u8>` would read every number as a side wherever one is converted, and only the route of a row is defined for every number.
fn side_of(number: u8) -> Side
    ensures { (code_of result == 0) ≡ (number == 0) }
{
    if number == 0 {
        Side::Clockwise
    } else {
        Side::CounterClockwise
    }
}

/// The route of a row, with the ends of its line; none where the demand is not there.
fn route_of(lines: &[Demand], row: Row) -> Option<Route>
    ensures { MatchOption result ((e : ℕ) → row_over lines.now row e ≡ false) (λ d. (e : ℕ) → holds d e ≡ row_over lines.now row e) }
{
    let k = line_of(lines, row.demand)?;
    Some(Route {
        demand: lines[k],
        side: side_of(row.side),
    })
}

/// Whether the row's route holds the link.
pub fn row_holds(lines: &[Demand], row: Row, link: u8) -> bool
    ensures { result ≡ row_over lines.now row link }
{
    route_of(lines, row).is_some_and(|route| route.holds_link(link))
}

/// The demand lines of a plan on a ring of at most 16 nodes.
#[derive(Clone, Copy)]
pub struct DemandLines<'a> {
    pub nodes: u8,
    pub lines: &'a [Demand],
    ghost small: { nodes ≤ 16 },
}

impl DemandLines<'_> {
    /// The links that the row's route holds.
    pub fn row_mask(&self, row: Row) -> u16
        ensures { result ≡ mask self.now.nodes self.now.lines.now row }
    {
        let n = self.nodes;
        route_of(self.lines, row).map_or(0, |route| route.link_mask(n))
    }

    /// Whether two rows have one slot and share a link.
    fn collide(&self, row: Row, earlier: Row) -> bool
        ensures { result ≡ clash self.now.nodes self.now.lines.now row earlier }
    {
        earlier.slot == row.slot && self.row_mask(row) & self.row_mask(earlier) != 0
    }

    /// The first row that collides with an earlier one, and the earliest row that it meets, by their places from 0.
    pub fn colliding_pair(&self, rows: &[Row]) -> Option<(usize, usize)>
        ensures { MatchOption result (ClearTo self.now.nodes self.now.lines.now rows.now (length rows.now)) (λ p. FirstClash self.now.nodes self.now.lines.now rows.now p.0 p.1) }
    {
        let mut pair = None;
        // Kept: nested loops, left by a label with the pair, are the form that this project wants here: the search ends at the first pair found, and the edits turn just that.
        'search: for i in 0..rows.len() {
            for j in 0..i {
                if self.collide(rows[i], rows[j]) {
                    pair = Some((i, j));
                    break 'search;
                }
            }
        }
        pair
    }
}
