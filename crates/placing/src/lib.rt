//! Gives the units of routes their slots, turn after turn, on a sheet of marks; and writes the rows.
#![tactic(auto)]

pub mod rows;

ghost use Rattle.std.specs.Prelude.{◌≡◌, ◌+◌, ◌-◌, ◌≤◌, length, if◌then◌else◌, fold};
ghost use Rattle.ring.specs.Sides.{route_units};
ghost use Rattle.sheet.specs.Marks.{used};
ghost use Rattle.drawn.specs.Slotting.{start_node, slotted_at, slotted, slots_in};
ghost use Rattle.placing.specs.Drawing.{comes, marks_after, slots_after, filled, turn_size, turns_size, marks_turns, slots_turns, node_turns, Empty, Ready};

use bounds::loads::RingRoutes;
use ring::{Route, Side};
use sheet::{blank, place_units};

/// Whose turn it is to get slots: the routes over the cut link, or the others that start at a node.
// Kept: the definitions go through a list of the turns, in which each route comes once; a closure could not stand in that list, so the turn would be named beside it;
// nor an `Option<u8>`, whose `None` would have to mean the routes over the cut link.
#[derive(Clone, Copy, Debug)]
pub enum Turn {
    Over,
    From(u8),
}

/// The node from which the route goes clockwise.
fn start_node(route: &Route) -> u8
    ensures { result ≡ start_node route.now }
{
    match route.side {
        Side::Clockwise => route.demand.lower,
        Side::CounterClockwise => route.demand.upper,
    }
}

/// A ring that is cut open at one of its links.
#[derive(Clone, Copy, Debug)]
struct OpenRing {
    nodes: u8,
    cut: u8,
    ghost small: { nodes ≤ 16 },
    ghost first: { 1 ≤ cut },
    ghost last: { cut ≤ nodes },
}

impl OpenRing {
    /// Whether it is the turn of the route.
    fn has_turn(self, route: &Route, turn: Turn) -> bool
        ensures { result ≡ comes self.cut turn route.now }
    {
        match turn {
            Turn::Over => route.holds_link(self.cut),
            Turn::From(v) => !route.holds_link(self.cut) && start_node(route) == v,
        }
    }

    /// Places the units of a route if it is its turn, and writes their slots.
    #[tactic(auto, unfolding(crate::specs::Drawing::marks_after, crate::specs::Drawing::slots_after))]
    fn place_route(self, route: &Route, turn: Turn, marks: &mut [u16], part: &mut [u16])
        requires long { length marks.old ≤ 1024 }
        requires places { length part.old ≡ route.now.demand.units }
        requires room { used marks.old + (if comes self.cut turn route.now then route.now.demand.units else 0) ≤ length marks.old }
        ensures marks { marks.new ≡ marks_after self.nodes (comes self.cut turn) marks.old route.now }
        ensures part { part.new ≡ slots_after self.nodes (comes self.cut turn) marks.old part.old route.now }
    {
        if self.has_turn(route, turn) {
            place_units(marks, route.link_mask(self.nodes), part);
        }
    }

    // Kept: the marks and the slots, with their lengths, are parameters of their own, since each function lends them on to the next; a struct of them would be taken apart for each call.
    // Kept: a place that moves through the slots. Of a rest of them that is split again for each route, a proof does not learn what was written; a call of itself for the other routes would take stack for each route.
    /// Places the units of the routes whose turn it is, in their order. `slots` has a place for each unit of each route.
    fn place_turn(self, routes: &[Route], turn: Turn, marks: &mut [u16], slots: &mut [u16])
        requires long { length marks.old ≤ 1024 }
        requires places { route_units routes.now ≡ length slots.old }
        requires room { used marks.old + turn_size self.cut routes.now turn ≤ length marks.old }
        ensures marks { marks.new ≡ fold (marks_after self.nodes (comes self.cut turn)) marks.old routes.now }
        ensures slots { slots.new ≡ filled self.nodes (comes self.cut turn) marks.old slots.old routes.now }
    {
        let mut at = 0;
        for route in routes {
            let end = at + usize::from(route.demand.units);
            self.place_route(route, turn, marks, &mut slots[at..end]);
            at = end;
        }
    }

    /// The turns of the nodes from `first` up to `end`, which is left out.
    fn place_nodes(self, routes: &[Route], first: u8, end: u8, marks: &mut [u16], slots: &mut [u16])
        requires long { length marks.old ≤ 1024 }
        requires places { route_units routes.now ≡ length slots.old }
        requires room { used marks.old + turns_size self.cut routes.now (node_turns first (end - first)) ≤ length marks.old }
        ensures marks { marks.new ≡ marks_turns self.nodes self.cut routes.now marks.old (node_turns first (end - first)) }
        ensures slots { slots.new ≡ slots_turns self.nodes self.cut routes.now marks.old slots.old (node_turns first (end - first)) }
    {
        for v in first..end {
            self.place_turn(routes, Turn::From(v), marks, slots);
        }
    }

    /// All turns on blank marks: the units over the cut link, then the others by start node, clockwise from the node after that link.
    fn place_routes(self, routes: &[Route], marks: &mut [u16], slots: &mut [u16])
        requires blank { Empty marks.old }
        requires ready { Ready self.nodes routes.now marks.old slots.old }
        ensures { slots.new ≡ slots_in (slotted_at self.nodes routes.now self.cut) routes.now }
    {
        self.place_turn(routes, Turn::Over, marks, slots);
        self.place_nodes(routes, self.cut + 1, self.nodes + 1, marks, slots);
        self.place_nodes(routes, 1, self.cut + 1, marks, slots);
    }
}

/// Slots the routes, on marks that need not be blank: writes the slots of the first route's units, then of the second's, and so on, each route's rising.
pub fn slot_routes(routes: &[Route], n: u8, marks: &mut [u16], slots: &mut [u16])
    requires { Ready n routes.now marks.old slots.old }
    ensures { slots.new ≡ slots_in (slotted n routes.now) routes.now }
{
    blank(marks);
    let least = RingRoutes { nodes: n, routes }.least_loaded();
    let ring = OpenRing {
        nodes: n,
        cut: least.candidate,
    };
    ring.place_routes(routes, marks, slots);
}
