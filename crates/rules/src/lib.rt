//! Routing rules: which way round the ring the units of a demand go.
//!
//! A rule means one side for each ring size and pair of ends. Its law is parallel routing: on one ring, two chosen routes that share a link leave
//! some link out of both. Whatever is proved of plans drawn by a rule is proved from the rule's meaning and this law, so a rule of one's own
//! needs an `impl` of `Rule` here below and nothing else.
#![tactic(auto)]

pub mod shut;
pub mod weights;

ghost use Rattle.std.specs.Prelude.{◌≡◌, ℕ, length, if◌then◌else◌};
ghost use Rattle.ring.specs.declared.Side.{Side};
ghost use Rattle.ring.specs.declared.Side.TheVariants.{Clockwise, CounterClockwise};
ghost use Rattle.ring.specs.Sides.{Parallel, Elsewhere, on_ring, route_by, routes_by, short_side, shut as shut_side, light_side};
ghost use Rattle.rules.specs.Law.{LongWaysBreakTheLaw};
ghost use Rattle.ring.proofs.Laws.{short_parallel, short_elsewhere, shut_parallel, shut_elsewhere, light_parallel, light_elsewhere};

use ring::routes::is_within;
use ring::{Demand, Route, Side};
use shut::ShutLink;
use weights::Weights;

// Kept: the ends are two numbers, here and in `ring::routes`, as in a demand and in the law; a pair of them would be made and taken apart at each call.
/// A rule chooses the side for the ends of a demand on a ring of n nodes.
pub trait Rule {
    /// The side that the rule means, for a ring size, a lower end and an upper end.
    ghost side: { Self → ℕ → ℕ → ℕ → Side };

    /// The law: if the routes chosen for two pairs of ends on one ring share a link, some link is in neither.
    ghost parallel: { (r : Self) → Parallel (side r) };

    /// Where no ring of that size has the ends, the side is clockwise.
    ghost elsewhere: { (r : Self) → Elsewhere (side r) };

    /// The side for these ends. Takes any numbers, never refuses, and answers the same question alike each time.
    fn choose(&self, n: u8, lower: u8, upper: u8) -> Side
        ensures { result ≡ side self.now n lower upper };
}

/// The demand on the side that the rule chooses for it.
pub fn route_by<R: Rule>(n: u8, demand: Demand, rule: &R) -> Route
    ensures { result ≡ route_by (R.side rule.now) n demand }
{
    Route {
        demand,
        side: rule.choose(n, demand.lower, demand.upper),
    }
}

/// Puts each demand on the side that the rule chooses for it. `routes` has a place for each demand.
pub fn choose_routes<R: Rule>(n: u8, demands: &[Demand], rule: &R, routes: &mut [Route])
    requires { length routes.old ≡ length demands.now }
    ensures { routes.new ≡ routes_by (R.side rule.now) n demands.now }
{
    // Kept: tried over `routes.iter_mut().zip(demands)`; the proof did not close, since over `iter_mut()` alone an invariant can name the routes, and over a `zip` of it none can.
    for (i, d) in demands.iter().enumerate() {
        routes[i] = route_by(n, *d, rule);
    }
}

/// The law has teeth: no rule may send the pairs 1-2 and 2-3 of a three-node ring the long way, let alone all three pairs.
pub fn long_ways_break_the_law()
    ensures { LongWaysBreakTheLaw }
{}

/// Whether a ring may have n nodes, and then has these ends, the lower first.
fn on_ring(n: u8, lower: u8, upper: u8) -> bool
    ensures { result ≡ on_ring n lower upper }
{
    (3..=16).contains(&n) && 1 <= lower && lower < upper && upper <= n
}

/// Counter-clockwise where the test passed, else clockwise.
fn side_by(passed: bool) -> Side
    ensures { result ≡ (if passed then CounterClockwise else Clockwise) }
{
    if passed {
        Side::CounterClockwise
    } else {
        Side::Clockwise
    }
}

/// Takes the route with fewer links, clockwise on a tie.
#[derive(Clone, Copy, Debug)]
pub struct ShortSide;

impl Rule for ShortSide {
    ghost side = { λ _. short_side };

    ghost parallel = { λ _. short_parallel };

    ghost elsewhere = { λ _. short_elsewhere };

    fn choose(&self, n: u8, lower: u8, upper: u8) -> Side {
        side_by(on_ring(n, lower, upper) && n < 2 * (upper - lower))
    }
}

impl Rule for ShutLink {
    ghost side = { λ r. shut_side r.link };

    ghost parallel = { λ r. shut_parallel r.link r.low };

    ghost elsewhere = { λ r. shut_elsewhere r.link };

    fn choose(&self, n: u8, lower: u8, upper: u8) -> Side {
        side_by(on_ring(n, lower, upper) && is_within(lower, upper, self.shut_on(n)))
    }
}

impl Rule for Weights {
    ghost side = { λ r. light_side r.weights };

    ghost parallel = { λ r. light_parallel r.weights };

    ghost elsewhere = { λ r. light_elsewhere r.weights };

    fn choose(&self, n: u8, lower: u8, upper: u8) -> Side {
        side_by(
            on_ring(n, lower, upper)
                && self.weight_of(n, Side::CounterClockwise, lower, upper)
                    < self.weight_of(n, Side::Clockwise, lower, upper),
        )
    }
}
