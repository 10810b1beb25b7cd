//! The figures of a plan: its slot count and loads.

ghost use Rattle.std.specs.Prelude.{◌≡◌, ◌≤◌, length};
ghost use Rattle.ring.specs.Ring.{load};
ghost use Rattle.checker.specs.Verdicts.{figures};

use checkrows::routes::{DemandLines, row_holds};
use ring::links::figure_per_link;
use ring::slots::slot_count;
use ring::{Demand, Figures, Row};

/// The load of a link: how many rows have a route that holds it.
fn load_of(lines: &[Demand], rows: &[Row], link: u8) -> u16
    requires { length rows.now ≤ 1024 }
    ensures { result ≡ load lines.now rows.now link }
{
    let over_link = rows.iter().filter(|row| row_holds(lines, **row, link));
    // Kept: `as`, of which the check proves that it loses no bit, here and below; `u16::try_from` would ask for an arm that never runs.
    over_link.count() as u16
}

/// The slot count and the loads of a plan's rows.
pub fn figures_of(lines: &DemandLines, rows: &[Row]) -> Figures
    requires { length rows.now ≤ 1024 }
    ensures { result ≡ figures lines.now.nodes lines.now.lines.now rows.now }
{
    let n = lines.nodes;
    let lines = lines.lines;
    Figures {
        slots: slot_count(rows) as u16,
        loads: figure_per_link(n, |e| load_of(lines, rows, e)),
    }
}
