//! Draws with that link shut which gives the fewest slots.

ghost use Rattle.std.specs.Prelude.{◌≡◌, ◌≤◌, length, IfOk};
ghost use Rattle.ring.specs.Sides.{shut};
ghost use Rattle.sheet.specs.Marks.{Blank};
ghost use Rattle.drawn.specs.Slotting.{drawn, best_link};
ghost use Rattle.drawn.specs.Claims.{BestDrawn};
ghost use Rattle.slotting.specs.Answers.{Draws, DrawsShut, Tries};

use crate::drawing::draw;
use crate::{BestLink, Traffic};
use placing::rows::PlanRows;
use ring::choosing::{Best, first_best};
use ring::{Figures, Refusal};
use rules::shut::ShutLink;

/// Draws the rows with a link shut.
fn draw_shut(
    traffic: &Traffic,
    link: u8,
    sheet: &mut [u16],
    rows: &mut PlanRows,
) -> Result<Figures, Refusal>
    requires { (1 ≤ link) × (link ≤ 16) }
    ensures answer { Draws traffic.now.nodes traffic.now.demands.now (drawn traffic.now.nodes (shut link) traffic.now.demands.now) (length sheet.old) rows.old.items rows.new.items result }
    ensures room { rows.new.capacity ≡ rows.old.capacity }
    ensures blank { Blank sheet.new (length sheet.old) }
{
    let Ok(rule) = ShutLink::new(link) else {
        unreachable()
    };
    draw(traffic, &rule, sheet, rows)
}

/// The best link to shut. The rows of the last trial are left.
fn try_links(traffic: &Traffic, sheet: &mut [u16], rows: &mut PlanRows) -> Result<u8, Refusal>
    ensures answer { Tries (best_link traffic.now.nodes traffic.now.demands.now) (length sheet.old) rows.old.items rows.new.items result }
    ensures room { rows.new.capacity ≡ rows.old.capacity }
    ensures blank { Blank sheet.new (length sheet.old) }
{
    // Kept: a loop that fills places of an array, so that the choice is `first_best`'s; a `map` over the links would draw from inside its closure, of which a proof then learns nothing about the rows.
    let mut trials = [Best {
        candidate: 0u8,
        measure: 0u16,
    }; 16];
    for link in 1..=traffic.nodes {
        let trial = draw_shut(traffic, link, sheet, rows)?;
        trials[usize::from(link) - 1] = Best {
            candidate: link,
            measure: trial.slots,
        };
    }
    match first_best(&trials[..usize::from(traffic.nodes)]) {
        Some(best) => Ok(best.candidate),
        None => unreachable(),
    }
}

/// Draws the rows of a plan for the demands with that link shut which gives the fewest slots, the first such link; else as `draw`.
///
/// No rival has fewer slots than these rows by more than its own load on any one link.
pub fn best_link(
    traffic: &Traffic,
    sheet: &mut [u16],
    rows: &mut PlanRows,
) -> Result<BestLink, Refusal>
    ensures answer { DrawsShut traffic.now.nodes traffic.now.demands.now (best_link traffic.now.nodes traffic.now.demands.now) (length sheet.old) rows.old.items rows.new.items result }
    ensures room { rows.new.capacity ≡ rows.old.capacity }
    ensures blank { Blank sheet.new (length sheet.old) }
    ensures best { IfOk result (λ b. BestDrawn traffic.now.nodes traffic.now.demands.now b.link rows.new.items) }
{
    let link = try_links(traffic, sheet, rows)?;
    let figures = draw_shut(traffic, link, sheet, rows)?;
    Ok(BestLink { link, figures })
}
