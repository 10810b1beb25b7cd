//! Prints the figures of a sample ring: six nodes, with one unit between each two neighbours.
//!
//! For each of three routing rules it shows the side and the links of each demand, the loads of the links, and the rows of the plan that is drawn;
//! then the plan with the best link shut; then the heaviest cut and the lower bound, which no plan can beat. All figures come from the library's calls.
#![tactic(auto)]

ghost use Rattle.std.specs.Prelude.{◌≡◌, ◌≤◌, true};
ghost use Rattle.ring.specs.Ring.{within_limits};
ghost use Rattle.ring.specs.Sides.{route_units};

use bounds::cuts::RingDemands;
use bounds::loads::RingRoutes;
use ring::{Demand, Route, Row, Side};
use rules::shut::ShutLink;
use rules::weights::Weights;
use rules::{Rule, ShortSide, choose_routes};
use slotting::{PlanRows, Traffic, best_link, draw};

/// The nodes of the ring, and as many links.
const NODES: u8 = 6;

/// One unit of traffic between two nodes.
fn between(number: u16, lower: u8, upper: u8) -> Demand
    ensures { result ≡ record { number = number; lower = lower; upper = upper; units = 1 } }
{
    Demand {
        number,
        lower,
        upper,
        units: 1,
    }
}

/// One unit between each two neighbours. The neighbours 6 and 1 are the ends 1 and 6, the lower first.
fn neighbours() -> [Demand; 6]
    ensures { within_limits 6 result ≡ true }
{
    [
        between(1, 1, 2),
        between(2, 2, 3),
        between(3, 3, 4),
        between(4, 4, 5),
        between(5, 5, 6),
        between(6, 1, 6),
    ]
}

/// The name of a side.
// Kept: no other program prints a side, and a `Display` for it would have to fill a column by itself.
fn side_name(side: Side) -> &'static str {
    match side {
        Side::Clockwise => "clockwise",
        Side::CounterClockwise => "counter-clockwise",
    }
}

/// Prints a demand with its side and the links of its route.
fn print_route(rt: &HostRuntime, route: &Route) -> anyhow::Result<()> {
    let demand = &route.demand;
    print!(rt;
        "  {:>6}  {}-{}   {:<17} ",
        demand.number,
        demand.lower,
        demand.upper,
        side_name(route.side)
    )?;
    for link in 1..=NODES {
        if route.holds_link(link) {
            print!(rt; " {link}")?;
        }
    }
    println!(rt; "")?;
    Ok(())
}

/// Prints each demand with its route.
fn print_routes(rt: &HostRuntime, routes: &[Route]) -> anyhow::Result<()> {
    println!(rt; "  number  ends  side               links")?;
    for route in routes {
        print_route(rt, route)?;
    }
    Ok(())
}

/// Prints the load of each link, and the first link of least load.
fn print_loads(rt: &HostRuntime, routes: &[Route]) -> anyhow::Result<()>
    requires { route_units routes.now ≤ 1024 }
{
    let ring = RingRoutes {
        nodes: NODES,
        routes,
    };
    let loads = ring.link_loads();
    print!(rt; "  loads of the links 1 to {NODES}:")?;
    for load in &loads[..usize::from(NODES)] {
        print!(rt; " {load}")?;
    }
    let least = ring.least_loaded();
    println!(rt;
        "; the first of least load is link {}, load {}",
        least.candidate, least.measure
    )?;
    Ok(())
}

/// Prints the rows of a plan and the slot count.
fn print_plan(rt: &HostRuntime, rows: &[Row], slots: u16) -> anyhow::Result<()> {
    print!(rt; "  rows, as number/side/slot:")?;
    for row in rows {
        print!(rt; " {}/{}/{}", row.demand, row.side, row.slot)?;
    }
    println!(rt; "; slot count {slots}")?;
    Ok(())
}

/// Prints the plan that is drawn by a rule.
fn print_drawing<R: Rule>(rt: &HostRuntime, traffic: &Traffic, rule: &R) -> anyhow::Result<()> {
    let mut sheet = [0; 1024];
    let mut rows = PlanRows::with_room(rt.alloc())?;
    let Ok(plan) = draw(traffic, rule, &mut sheet, &mut rows) else {
        unreachable()
    };
    print_plan(rt, rows.as_slice(), plan.slots)
}

/// Prints the plan that is drawn with the best link shut.
fn print_best(rt: &HostRuntime, traffic: &Traffic) -> anyhow::Result<()> {
    let mut sheet = [0; 1024];
    let mut rows = PlanRows::with_room(rt.alloc())?;
    let Ok(plan) = best_link(traffic, &mut sheet, &mut rows) else {
        unreachable()
    };
    println!(rt; "\nBy the best link, which is link {}:", plan.link)?;
    print_plan(rt, rows.as_slice(), plan.figures.slots)
}

/// Prints what a rule makes of the demands: their routes, the loads of the links, and a plan.
fn print_rule<R: Rule>(rt: &HostRuntime, traffic: &Traffic, rule: &R) -> anyhow::Result<()> {
    // Kept: an array, so that the routes and their loads are printed before any memory is asked for.
    let mut places = [Route::default(); 128];
    let routes = &mut places[..traffic.demands.len()];
    choose_routes(traffic.nodes, traffic.demands, rule, routes);
    print_routes(rt, routes)?;
    print_loads(rt, routes)?;
    print_drawing(rt, traffic, rule)
}

/// Prints the heaviest cut and the lower bound, which are the same whatever the routing.
fn print_cut(rt: &HostRuntime, traffic: &Traffic) -> anyhow::Result<()> {
    let ring = RingDemands {
        nodes: traffic.nodes,
        demands: traffic.demands,
    };
    let cut = ring.heaviest_cut();
    println!(rt;
        "  the heaviest cut is that at links {} and {}, total {}",
        cut.first, cut.second, cut.total
    )?;
    let slots = ring.lower_bound();
    println!(rt; "  lower bound: every plan has at least {slots} in its slot count")?;
    Ok(())
}

/// Prints the weights that count, link by link.
fn print_weights(rt: &HostRuntime, weights: &[u16; 16]) -> anyhow::Result<()> {
    print!(rt; "\nBy weights of the links:")?;
    for weight in &weights[..usize::from(NODES)] {
        print!(rt; " {weight}")?;
    }
    println!(rt; "")?;
    Ok(())
}

fn main(rt: HostRuntime) -> anyhow::Result<()> {
    let demands = neighbours();
    let traffic = Traffic {
        nodes: NODES,
        demands: &demands,
    };
    println!(rt; "A ring of {NODES} nodes, one unit between each two neighbours.")?;
    println!(rt; "\nBy the short side:")?;
    print_rule(&rt, &traffic, &ShortSide)?;
    let Ok(shut) = ShutLink::new(NODES) else {
        unreachable()
    };
    println!(rt; "\nWith link {NODES} shut:")?;
    print_rule(&rt, &traffic, &shut)?;
    let weights = [1, 1, 10, 1, 1, 1, 1, 1, 1, 1, 1, 1, 1, 1, 1, 1];
    let Ok(light) = Weights::new(weights) else {
        unreachable()
    };
    print_weights(&rt, &weights)?;
    print_rule(&rt, &traffic, &light)?;
    print_best(&rt, &traffic)?;
    println!(rt; "\nWhatever the routing:")?;
    print_cut(&rt, &traffic)
}
