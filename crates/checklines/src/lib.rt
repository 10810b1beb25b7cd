//! The demand lines of a plan from elsewhere, checked one by one.
#![tactic(auto)]

ghost use Rattle.std.specs.Prelude.{◌≡◌, ◌≤◌};
ghost use Rattle.ring.specs.Ring.{named, units as units_of};
ghost use Rattle.checklines.specs.Faults.{Tells};
ghost use Rattle.checklines.specs.Lines.{line_fault, lines_fault, LinesDecided};

use ring::{Demand, Refusal};

/// Whether a demand of the lines has the number.
fn is_named(lines: &[Demand], number: u16) -> bool
    ensures { result ≡ named lines.now number }
{
    lines.iter().any(|line| line.number == number)
}

/// Checks a line against the limits and the lines before it, whose units are given.
fn check_line(n: u8, before: &[Demand], units: u16, line: Demand) -> Result<(), Refusal>
    requires { (units ≡ units_of before.now) × (units ≤ 1024) }
    ensures { Tells result (line_fault n before.now line) }
{
    let place = before.len() + 1;
    if before.len() >= 128 {
        return Err(Refusal::BookFull { place });
    }
    if !(1..=n).contains(&line.lower) || !(1..=n).contains(&line.upper) {
        return Err(Refusal::EndOutside { place });
    }
    if line.upper <= line.lower {
        return Err(Refusal::EndsFalling { place });
    }
    if !(1..=48).contains(&line.units) {
        return Err(Refusal::UnitsOutside { place });
    }
    if line.number == 0 || is_named(before, line.number) {
        return Err(Refusal::NumberTaken { place });
    }
    if units + u16::from(line.units) > 1024 {
        return Err(Refusal::UnitsPast { place });
    }
    Ok(())
}

/// Checks the demand lines one by one, and gives the first fault.
pub fn check_lines(n: u8, lines: &[Demand]) -> Result<(), Refusal>
    ensures { Tells result (lines_fault n lines.now) }
{
    let mut units: u16 = 0;
    // Kept: the units of the lines before are carried along; `try_fold` would carry the same sum and the same place.
    for (i, line) in lines.iter().enumerate() {
        check_line(n, &lines[..i], units, *line)?;
        units += u16::from(line.units);
    }
    Ok(())
}

/// On a ring of 3 to 16 nodes the lines have no fault exactly where they are within the limits.
pub fn lines_decided()
    ensures { LinesDecided }
{}
