//! How many rows each line has.

ghost use Rattle.std.specs.Prelude.{◌≡◌};
ghost use Rattle.checklines.specs.Faults.{Tells};
ghost use Rattle.checkrows.specs.Rows.{is_full, counts_fault};

use ring::{Demand, Refusal, Row};

/// Whether a line has as many rows as units.
fn is_full(rows: &[Row], line: Demand) -> bool
    ensures { result ≡ is_full rows.now line }
{
    let of_line = rows.iter().filter(|row| line.number == row.demand);
    of_line.count() == usize::from(line.units)
}

/// Checks that each line has as many rows as units, and gives the first line that has not.
pub fn check_counts(lines: &[Demand], rows: &[Row]) -> Result<(), Refusal>
    ensures { Tells result (counts_fault lines.now rows.now) }
{
    match lines.iter().position(|line| !is_full(rows, *line)) {
        Some(i) => Err(Refusal::CountWrong { line: i + 1 }),
        None => Ok(()),
    }
}
