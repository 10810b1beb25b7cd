//! Cuts: two links that part the ring, and the units that have to pass one of them whatever the routing.

ghost use Rattle.std.specs.Prelude.{◌≡◌, ℕ, ◌+◌, ◌/◌, ◌≤◌, length, if◌then◌else◌};
ghost use Rattle.ring.specs.Ring.{units, crosses, cut, lower_bound_of};
ghost use Rattle.ring.specs.Choosing.{first_most};
ghost use Rattle.ring.specs.Cuts.{cut_at, heaviest_after, heaviest_cut, HeaviestCut};
ghost use Rattle.bounds.specs.Measures.{heavy_cut};
ghost use Rattle.bounds.specs.Claims.{LoadsFitSlots, PlansPayForCuts, NoPlanHasFewer};

use ring::choosing::{Best, first_best_of};
use ring::routes::is_within;
use ring::{Cut, Demand};
use std::cmp::Reverse;

/// Whether the clockwise route of the demand holds exactly one of the two links. Then the other route holds one of them too: the demand has to
/// pass one of them.
fn crosses(d: &Demand, first: u8, second: u8) -> bool
    ensures { result ≡ crosses d.now first second }
{
    is_within(d.lower, d.upper, first) != is_within(d.lower, d.upper, second)
}

/// The units of the demand if its clockwise route holds exactly one of the two links, else 0. Its units count once.
fn units_across(d: &Demand, first: u8, second: u8) -> u16
    ensures { result ≡ (if crosses d.now first second then d.now.units else 0) }
{
    if crosses(d, first, second) {
        u16::from(d.units)
    } else {
        0
    }
}

/// The total of the cut at two links: the units of the demands whose clockwise route holds exactly one of them, each demand's once.
pub fn cut_total(demands: &[Demand], first: u8, second: u8) -> u16
    requires { units demands.now ≤ 1024 }
    ensures { result ≡ cut demands.now first second }
{
    // Kept: no `filter`, for the reason that `load_of` has.
    demands.iter().map(|d| units_across(d, first, second)).sum()
}

/// Demands on a ring of 3 to 16 nodes, of at most 1,024 units in all.
#[derive(Clone, Copy, Debug)]
pub struct RingDemands<'a> {
    pub nodes: u8,
    pub demands: &'a [Demand],
    ghost ring: { (3 ≤ nodes) × (nodes ≤ 16) },
    ghost few: { units demands.now ≤ 1024 },
}

impl RingDemands<'_> {
    /// The heaviest cut of link e with a link after it, the first where there are several. It is measured so that the greatest total comes first.
    fn heaviest_after(&self, e: u8) -> Best<Cut, Reverse<u16>>
        requires { e + 1 ≤ self.now.nodes }
        ensures { result ≡ heavy_cut (cut_at self.now.demands.now e (heaviest_after self.now.nodes self.now.demands.now e)) }
    {
        let cuts = (e + 1..=self.nodes).map(|f| {
            let total = cut_total(self.demands, e, f);
            Best {
                candidate: Cut {
                    first: e,
                    second: f,
                    total,
                },
                measure: Reverse(total),
            }
        });
        first_best_of(cuts).unwrap()
    }

    /// The heaviest cut of the ring with its links: the first greatest in the order of the lower link, then of the upper one.
    pub fn heaviest_cut(&self) -> Cut
        ensures value { result ≡ heaviest_cut self.now.nodes self.now.demands.now }
        ensures heaviest { HeaviestCut self.now.nodes self.now.demands.now result }
    {
        let cuts = (1..self.nodes).map(|e| self.heaviest_after(e));
        first_best_of(cuts).unwrap().candidate
    }

    /// The lower bound: half the heaviest cut's total, rounded up. No plan for the demands has fewer slots, since in every plan the load of a link is
    /// at most the slot count, and the two links of a cut bear its total.
    pub fn lower_bound(&self) -> u16
        ensures value { result ≡ lower_bound_of self.now.nodes self.now.demands.now }
        ensures least { NoPlanHasFewer self.now.nodes self.now.demands.now result }
        ensures cuts { PlansPayForCuts self.now.nodes self.now.demands.now }
        ensures loads { LoadsFitSlots self.now.nodes self.now.demands.now }
    {
        self.heaviest_cut().total.div_ceil(2)
    }
}
