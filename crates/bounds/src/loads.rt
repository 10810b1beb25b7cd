//! The loads of the links where each demand goes by its chosen side.

ghost use Rattle.std.specs.Prelude.{◌≡◌, ℕ, ◌≤◌, length, if◌then◌else◌};
ghost use Rattle.ring.specs.Sides.{holds, route_load, route_units, per_link};
ghost use Rattle.bounds.specs.Measures.{least_loaded};
ghost use Rattle.bounds.specs.Claims.{LoadsFitTheHeaviestCut, ShutRoutesLoadCuts};

use ring::Route;
use ring::choosing::{Best, first_best_of};
use ring::links::figure_per_link;

/// The units of the route if it holds the link, else 0.
fn units_over(d: &Route, link: u8) -> u16
    ensures { result ≡ (if holds d.now link then d.now.demand.units else 0) }
{
    if d.holds_link(link) {
        u16::from(d.demand.units)
    } else {
        0
    }
}

/// The load of a link: the units of the routes that hold it.
pub fn load_of(routes: &[Route], link: u8) -> u16
    requires { route_units routes.now ≤ 1024 }
    ensures { result ≡ route_load routes.now link }
{
    // Kept: tried as `filter(..).map(..).sum()`; neither that the sum fits nor its value was proved then.
    routes.iter().map(|r| units_over(r, link)).sum()
}

/// Demands on their sides, on a ring of 3 to 16 nodes, of at most 1,024 units in all.
// Kept: a type beside `RingDemands`, and no generic one, since the two share no method, and their units are counted by different definitions.
#[derive(Clone, Copy, Debug)]
pub struct RingRoutes<'a> {
    pub nodes: u8,
    pub routes: &'a [Route],
    ghost ring: { (3 ≤ nodes) × (nodes ≤ 16) },
    ghost few: { route_units routes.now ≤ 1024 },
}

impl RingRoutes<'_> {
    /// The load of each link of the ring, link e's at place e - 1, and 0 past its last link.
    ///
    /// If the routes were chosen by a lawful rule, the greatest and the least load are together at most the heaviest cut's total. If they were chosen
    /// with a link shut, each load is the cut with that link, and at most any rival's slot count together with that rival's load on the link.
    pub fn link_loads(&self) -> [u16; 16]
        ensures value { result ≡ per_link self.now.nodes (route_load self.now.routes.now) }
        ensures lawful { LoadsFitTheHeaviestCut self.now.nodes self.now.routes.now }
        ensures shut { ShutRoutesLoadCuts self.now.nodes self.now.routes.now }
    {
        figure_per_link(self.nodes, |e| load_of(self.routes, e))
    }

    /// The first link of least load on the ring, with that load.
    pub fn least_loaded(&self) -> Best<u8, u16>
        ensures { result ≡ least_loaded self.now.nodes self.now.routes.now }
    {
        let links = (1..=self.nodes).map(|link| Best {
            candidate: link,
            measure: load_of(self.routes, link),
        });
        first_best_of(links).unwrap()
    }
}
