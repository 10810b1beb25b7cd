//! Sample rings: the plans that slotting gives by the definitions, as one proved statement, and what the drawings answer, as tests.
#![tactic(auto)]

ghost use Rattle.std.specs.Prelude.{◌≡◌};
ghost use Rattle.ring.specs.Ring.{WithinLimits};
ghost use Rattle.slotting_samples.specs.Plans.{SamplePlans};

use ring::Demand;

#[cfg(test)]
mod tests;

/// The definitions give the known plans of the sample rings.
pub fn sample_plans_stand()
    ensures { SamplePlans }
{}

/// So many units between two nodes.
fn between(number: u16, lower: u8, upper: u8, units: u8) -> Demand
    ensures { result ≡ record { number = number; lower = lower; upper = upper; units = units } }
{
    Demand {
        number,
        lower,
        upper,
        units,
    }
}

/// The demands of a full book: their numbers, their ends, the lower one first, and their units.
const FULL: [(u16, u8, u8, u8); 22] = [
    (1, 1, 2, 48),
    (2, 6, 14, 48),
    (3, 11, 16, 48),
    (4, 1, 8, 48),
    (5, 6, 15, 48),
    (6, 11, 12, 48),
    (7, 1, 14, 48),
    (8, 6, 16, 48),
    (9, 11, 13, 48),
    (10, 1, 5, 48),
    (11, 6, 7, 48),
    (12, 11, 14, 48),
    (13, 1, 11, 48),
    (14, 6, 8, 48),
    (15, 11, 15, 48),
    (16, 1, 2, 48),
    (17, 6, 9, 48),
    (18, 11, 16, 48),
    (19, 1, 8, 48),
    (20, 6, 10, 48),
    (21, 11, 12, 48),
    (22, 1, 14, 16),
];

/// A full book on sixteen nodes, within limits: 22 demands with 1,024 units in all.
pub fn full_book() -> [Demand; 22]
    ensures { WithinLimits 16 result }
{
    FULL.map(|(number, lower, upper, units)| between(number, lower, upper, units))
}
