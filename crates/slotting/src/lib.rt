//! Slotting: draws the rows of a plan for some demands. Each unit of each demand gets a slot, and no two units in one slot share a link.
#![tactic(auto)]

mod drawing;
mod trials;

ghost use Rattle.std.specs.Prelude.{◌≡◌, true};
ghost use Rattle.ring.specs.Ring.{within_limits};

pub use drawing::{count_units, draw};
pub use placing::rows::PlanRows;
use ring::{Demand, Figures};
pub use trials::best_link;

/// The demands on a ring for which a plan can be drawn: their ends are on the ring, and no limit is passed.
// Kept: a type beside `bounds::cuts::RingDemands` and `checkrows::routes::DemandLines`, which hold the same but for less: a call asks for no more than it needs.
#[derive(Clone, Copy, Debug)]
pub struct Traffic<'a> {
    pub nodes: u8,
    pub demands: &'a [Demand],
    ghost limits: { within_limits nodes demands.now ≡ true },
}

/// What was drawn with the best link shut: that link, and the figures of the rows.
#[derive(Clone, Copy, Debug)]
pub struct BestLink {
    pub link: u8,
    pub figures: Figures,
}
