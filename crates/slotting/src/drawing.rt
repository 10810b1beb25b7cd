//! Draws the rows of a plan: the sides by a rule, then the slots on a sheet that was lent.

ghost use Rattle.std.specs.Prelude.{◌≡◌, ◌≤◌, length, OnOk};
ghost use Rattle.ring.specs.Ring.{units};
ghost use Rattle.sheet.specs.Marks.{Blank};
ghost use Rattle.drawn.specs.Slotting.{drawn};
ghost use Rattle.drawn.specs.Claims.{WellDrawn};
ghost use Rattle.slotting.specs.Answers.{Draws};

use crate::Traffic;
use bounds::loads::RingRoutes;
use placing::rows::PlanRows;
use placing::slot_routes;
use ring::slots::slot_count;
use ring::{Demand, Figures, Refusal, Route};
use rules::{Rule, choose_routes};
use sheet::Guard;

/// The marks that a sheet needs: one for each slot that a plan may have.
const MARKS: usize = 1024;

/// The units of a demand.
fn units_in(d: &Demand) -> usize
    ensures { result ≡ d.now.units }
{
    usize::from(d.units)
}

/// All units of the demands.
pub fn count_units(demands: &[Demand]) -> usize
    requires { units demands.now ≤ 1024 }
    ensures { result ≡ units demands.now }
{
    demands.iter().map(units_in).sum()
}

/// Draws the rows on marks that need not be blank, and leaves them as they come.
// Kept: traffic, sheet and rows are lent each by itself, since they end in different ways: the same, blank, and with the plan.
fn draw_on<R: Rule>(
    traffic: &Traffic,
    rule: &R,
    marks: &mut [u16],
    rows: &mut PlanRows,
) -> Result<Figures, Refusal>
    ensures answer { Draws traffic.now.nodes traffic.now.demands.now (drawn traffic.now.nodes (R.side rule.now) traffic.now.demands.now) (length marks.old) rows.old.items rows.new.items result }
    ensures room { rows.new.capacity ≡ rows.old.capacity }
{
    if marks.len() < MARKS {
        return Err(Refusal::TooFew { needed: MARKS });
    }
    let n = traffic.nodes;
    let demands = traffic.demands;
    // Kept: arrays on the stack, since a drawing takes no memory.
    let mut routes = [Route::default(); 128];
    let mut slots = [0; MARKS];
    let routes = &mut routes[..demands.len()];
    let slots = &mut slots[..count_units(demands)];
    choose_routes(n, demands, rule, routes);
    slot_routes(routes, n, &mut marks[..MARKS], slots);
    rows.replace(routes, slots);
    // Kept: `as`, of which the check proves that it loses no bit; `u16::try_from` would ask for an arm that never runs.
    let count = slot_count(rows.as_slice()) as u16;
    Ok(Figures {
        slots: count,
        loads: RingRoutes { nodes: n, routes }.link_loads(),
    })
}

/// Draws the rows of a plan for the demands, with the sides by a rule, on a sheet of 1,024 marks or more, in place of the rows that are there. A shorter
/// sheet is refused, and the rows stay. The sheet is blank at the return, whatever it held.
///
/// The rows are a plan in slots 1 to 1,024 without gaps, with no more slots than the heaviest cut's total, and at most twice those of any rival.
pub fn draw<R: Rule>(
    traffic: &Traffic,
    rule: &R,
    sheet: &mut [u16],
    rows: &mut PlanRows,
) -> Result<Figures, Refusal>
    ensures answer { Draws traffic.now.nodes traffic.now.demands.now (drawn traffic.now.nodes (R.side rule.now) traffic.now.demands.now) (length sheet.old) rows.old.items rows.new.items result }
    ensures room { rows.new.capacity ≡ rows.old.capacity }
    ensures blank { Blank sheet.new (length sheet.old) }
    ensures well { OnOk result (WellDrawn traffic.now.nodes traffic.now.demands.now rows.new.items) }
{
    let guard = Guard { marks: sheet };
    draw_on(traffic, rule, guard.marks, rows)
}
