//! What the calls answer on sample rings, and where they refuse.

use bounds::cuts::{RingDemands, cut_total};
use bounds::loads::RingRoutes;
use ring::choosing::{Best, first_best, first_best_of};
use ring::slots::slot_count;
use ring::{Cut, Demand, Refusal, Route, Row, Side};
use rules::shut::ShutLink;
use rules::weights::Weights;
use rules::{Rule, ShortSide, choose_routes};
use std::test::Fail;

fn between(number: u16, lower: u8, upper: u8, units: u8) -> Demand {
    Demand {
        number,
        lower,
        upper,
        units,
    }
}

#[test]
fn opposite_nodes_of_six(rt: HostRuntime) {
    let demands = [
        between(1, 1, 4, 1),
        between(2, 2, 5, 1),
        between(3, 3, 6, 1),
    ];
    let demanded = RingDemands {
        nodes: 6,
        demands: &demands,
    };
    assert_eq!(rt; demanded.heaviest_cut().total, 3);
    assert_eq!(rt; demanded.lower_bound(), 2);
}

#[test]
fn crossing_demands_on_four_nodes(rt: HostRuntime) {
    let demands = [between(1, 1, 3, 2), between(2, 2, 4, 1)];
    let cut = Cut {
        first: 1,
        second: 3,
        total: 3,
    };
    let demanded = RingDemands {
        nodes: 4,
        demands: &demands,
    };
    assert_eq!(rt; demanded.heaviest_cut(), cut);
    assert_eq!(rt; demanded.lower_bound(), 2);
    assert_eq!(rt; cut_total(&demands, 2, 4), 3);
    assert_eq!(rt;
        cut_total(&demands, 1, 2),
        1,
        "each demand's units once, though it has two"
    );
}

#[test]
fn loads_by_the_short_side_on_four_nodes(rt: HostRuntime) {
    let mut routes = [Route::default(); 2];
    let demands = [between(1, 1, 3, 2), between(2, 2, 4, 1)];
    choose_routes(4, &demands, &ShortSide, &mut routes);
    let routed = RingRoutes {
        nodes: 4,
        routes: &routes,
    };
    let loads = routed.link_loads();
    assert_eq!(rt; loads[0], 2);
    assert_eq!(rt; loads[1], 3);
    assert_eq!(rt; loads[2], 1);
    assert_eq!(rt; loads[3], 0);
    assert_eq!(rt; loads[4], 0, "no link 5");
}

#[test]
fn no_demand_on_three_nodes(rt: HostRuntime) {
    let cut = Cut {
        first: 1,
        second: 2,
        total: 0,
    };
    let demanded = RingDemands {
        nodes: 3,
        demands: &[],
    };
    assert_eq!(rt; demanded.heaviest_cut(), cut);
    assert_eq!(rt; demanded.lower_bound(), 0);
    let routed = RingRoutes {
        nodes: 3,
        routes: &[],
    };
    let least = routed.least_loaded();
    assert_eq!(rt; least.candidate, 1);
    assert_eq!(rt; least.measure, 0);
}

#[test]
fn equal_weights_go_clockwise(rt: HostRuntime) -> Result<(), Fail> {
    let mut weights = [1u16; 16];
    weights[2] = 2;
    let rule = Weights::new(weights)?;
    assert_eq!(rt; rule.choose(3, 1, 3), Side::Clockwise);
    weights[1] = 2;
    let heavier = Weights::new(weights)?;
    assert_eq!(rt; heavier.choose(3, 1, 3), Side::CounterClockwise);
    assert_eq!(rt;
        heavier.choose(2, 1, 2),
        Side::Clockwise,
        "no ring of two nodes"
    );
    Ok(())
}

#[test]
fn the_first_weight_of_0_is_refused(rt: HostRuntime) {
    let mut weights = [65535u16; 16];
    assert!(rt; Weights::new(weights).is_ok());
    weights[15] = 0;
    assert_eq!(rt;
        Weights::new(weights).err(),
        Some(Refusal::NoWeight { link: 16 })
    );
    weights[4] = 0;
    assert_eq!(rt;
        Weights::new(weights).err(),
        Some(Refusal::NoWeight { link: 5 })
    );
    weights[0] = 0;
    assert_eq!(rt;
        Weights::new(weights).err(),
        Some(Refusal::NoWeight { link: 1 })
    );
}

#[test]
fn links_to_shut_are_1_to_16(rt: HostRuntime) -> Result<(), Fail> {
    assert_eq!(rt; ShutLink::new(0).err(), Some(Refusal::NoLink));
    assert_eq!(rt; ShutLink::new(17).err(), Some(Refusal::NoLink));
    assert_eq!(rt; ShutLink::new(255).err(), Some(Refusal::NoLink));
    assert!(rt; ShutLink::new(1).is_ok());
    let last = ShutLink::new(16)?;
    assert_eq!(rt;
        last.choose(16, 1, 16),
        Side::Clockwise,
        "link 16 is beside the clockwise route"
    );
    assert_eq!(rt;
        last.choose(4, 1, 4),
        Side::Clockwise,
        "on four nodes it shuts link 4"
    );
    let third = ShutLink::new(3)?;
    assert_eq!(rt; third.choose(4, 1, 4), Side::CounterClockwise);
    Ok(())
}

#[test]
fn off_the_ring_the_short_side_is_clockwise(rt: HostRuntime) {
    assert_eq!(rt; ShortSide.choose(6, 1, 4), Side::Clockwise, "a tie");
    assert_eq!(rt; ShortSide.choose(6, 1, 5), Side::CounterClockwise);
    assert_eq!(rt; ShortSide.choose(6, 1, 7), Side::Clockwise);
    assert_eq!(rt; ShortSide.choose(6, 0, 5), Side::Clockwise);
    assert_eq!(rt; ShortSide.choose(6, 5, 1), Side::Clockwise);
    assert_eq!(rt; ShortSide.choose(17, 1, 16), Side::Clockwise);
    assert_eq!(rt; ShortSide.choose(255, 0, 255), Side::Clockwise);
}

fn route(side: Side, lower: u8, upper: u8) -> Route {
    Route {
        demand: between(1, lower, upper, 1),
        side,
    }
}

#[test]
fn masks_have_a_bit_for_each_link(rt: HostRuntime) {
    assert_eq!(rt; route(Side::Clockwise, 2, 4).link_mask(4), 0b0110);
    assert_eq!(rt; route(Side::CounterClockwise, 2, 4).link_mask(4), 0b1001);
    assert_eq!(rt; route(Side::CounterClockwise, 1, 2).link_mask(16), 0xfffe);
    assert_eq!(rt; route(Side::Clockwise, 1, 16).link_mask(16), 0x7fff);
}

fn row(slot: u16) -> Row {
    Row {
        demand: 1,
        side: 0,
        slot,
    }
}

#[test]
fn slots_are_counted_once(rt: HostRuntime) {
    assert_eq!(rt; slot_count(&[]), 0);
    assert_eq!(rt; slot_count(&[row(7)]), 1);
    assert_eq!(rt;
        slot_count(&[row(0), row(65535), row(0), row(3), row(65535)]),
        3
    );
}

#[test]
fn refusals_have_their_numbers_and_values(rt: HostRuntime) {
    assert_eq!(rt; Refusal::RingSize.number(), 1);
    assert_eq!(rt; Refusal::TooFew { needed: 1024 }.number(), 15);
    assert_eq!(rt; Refusal::TooFew { needed: 1024 }.values().0, Some(1024));
    let collision = Refusal::Collision { row: 3, met: 2 };
    assert_eq!(rt; collision.number(), 23);
    assert_eq!(rt; collision.values().0, Some(3));
    assert_eq!(rt; collision.values().1, Some(2));
    assert_eq!(rt; Refusal::NoLink.number(), 26);
    assert_eq!(rt; Refusal::NoLink.values().0, None);
}

#[test]
fn the_first_of_equals_is_best(rt: HostRuntime) -> Result<(), Fail> {
    let all = [
        Best {
            candidate: 'a',
            measure: 2u16,
        },
        Best {
            candidate: 'b',
            measure: 1u16,
        },
        Best {
            candidate: 'c',
            measure: 1u16,
        },
    ];
    let best = first_best(&all).ok_or("some")?;
    assert_eq!(rt; best.candidate, 'b');
    assert!(rt; first_best(&all[0..0]).is_none());
    let best = first_best_of(all.iter().copied()).ok_or("some")?;
    assert_eq!(rt; best.candidate, 'b');
    assert!(rt; first_best_of(all[0..0].iter().copied()).is_none());
    Ok(())
}

/// What can be neither copied nor let go.
struct Named {
    name: &'static str,
}

#[test]
fn the_first_best_of_candidates_that_must_stay(rt: HostRuntime) {
    let all = [
        Best {
            candidate: Named { name: "two" },
            measure: 2u16,
        },
        Best {
            candidate: Named { name: "one" },
            measure: 1u16,
        },
        Best {
            candidate: Named { name: "one again" },
            measure: 1u16,
        },
    ];
    let name = first_best(&all).map(|best| best.candidate.name);
    let [two, one, again] = all;
    let Named { name: _ } = two.candidate;
    let Named { name: _ } = one.candidate;
    let Named { name: _ } = again.candidate;
    assert_eq!(rt; name, Some("one"));
}

#[test]
fn the_first_best_of_candidates_elsewhere(rt: HostRuntime) -> Result<(), Fail> {
    let names = ["two", "one", "one again"];
    let measures = [2u16, 1, 1];
    let all = names.iter().zip(&measures).map(|(name, measure)| Best {
        candidate: name,
        measure,
    });
    let best = first_best_of(all).ok_or("some")?;
    assert_eq!(rt; *best.candidate, "one");
    Ok(())
}
