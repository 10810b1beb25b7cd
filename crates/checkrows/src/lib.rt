//! The rows of a plan from elsewhere, checked one by one on a sheet of marks, and then counted line by line.
#![tactic(auto)]

pub mod counts;
pub mod routes;
pub mod rows;

ghost use Rattle.checkrows.specs.Rows.{RowsDecided};

/// The rows and their counts have no fault exactly where the rows are a plan with slots 1 to 1,024.
pub fn rows_decided()
    ensures { RowsDecided }
{}
