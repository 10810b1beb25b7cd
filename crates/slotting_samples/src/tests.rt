//! What the drawings answer on sample rings.

use crate::{between, full_book};
use ring::Refusal;
use ring::slots::slot_count;
use rules::ShortSide;
use slotting::{PlanRows, Traffic, best_link, draw};
use std::test::Fail;

#[test]
fn opposite_nodes_of_six(rt: HostRuntime) -> Result<(), Fail> {
    let demands = [
        between(1, 1, 4, 1),
        between(2, 2, 5, 1),
        between(3, 3, 6, 1),
    ];
    let traffic = Traffic {
        nodes: 6,
        demands: &demands,
    };
    let mut sheet = [7u16; 1024];
    let mut rows = PlanRows::with_room(rt.alloc())?;
    let plan = draw(&traffic, &ShortSide, &mut sheet, &mut rows)?;
    assert_eq!(rt; plan.slots, 3);
    assert_eq!(rt; plan.loads[2], 3);
    assert_eq!(rt; sheet[0], 0, "blank again");
    Ok(())
}

#[test]
fn crossing_demands_on_four_nodes(rt: HostRuntime) -> Result<(), Fail> {
    let demands = [between(1, 1, 3, 2), between(2, 2, 4, 1)];
    let traffic = Traffic {
        nodes: 4,
        demands: &demands,
    };
    let mut sheet = [0u16; 1024];
    let mut rows = PlanRows::with_room(rt.alloc())?;
    let plan = draw(&traffic, &ShortSide, &mut sheet, &mut rows)?;
    assert_eq!(rt; plan.slots, 3);
    let rows = rows.as_slice();
    assert!(rt; rows.len() == 3);
    assert_eq!(rt; rows[0].slot, 1);
    assert_eq!(rt; rows[1].slot, 2);
    assert_eq!(rt; rows[2].slot, 3);
    Ok(())
}

#[test]
fn no_demand_on_three_nodes(rt: HostRuntime) -> Result<(), Fail> {
    let traffic = Traffic {
        nodes: 3,
        demands: &[],
    };
    let mut sheet = [0u16; 1024];
    let mut rows = PlanRows::with_room(rt.alloc())?;
    let plan = best_link(&traffic, &mut sheet, &mut rows)?;
    assert_eq!(rt; plan.link, 1);
    assert_eq!(rt; plan.figures.slots, 0);
    assert_eq!(rt; rows.as_slice().len(), 0);
    Ok(())
}

#[test]
fn a_full_book_on_sixteen_nodes(rt: HostRuntime) -> Result<(), Fail> {
    let demands = full_book();
    let traffic = Traffic {
        nodes: 16,
        demands: &demands,
    };
    let mut sheet = [65535u16; 1024];
    let mut rows = PlanRows::with_room(rt.alloc())?;
    let plan = draw(&traffic, &ShortSide, &mut sheet, &mut rows)?;
    let rows = rows.as_slice();
    assert_eq!(rt; rows.len(), 1024);
    assert_eq!(rt; slot_count(rows), usize::from(plan.slots));
    assert_eq!(rt; sheet[1023], 0);
    Ok(())
}

#[test]
fn the_best_link_of_a_full_book(rt: HostRuntime) -> Result<(), Fail> {
    let demands = full_book();
    let traffic = Traffic {
        nodes: 16,
        demands: &demands,
    };
    let mut sheet = [0u16; 1024];
    let mut rows = PlanRows::with_room(rt.alloc())?;
    let plan = best_link(&traffic, &mut sheet, &mut rows)?;
    assert_eq!(rt; rows.as_slice().len(), 1024);
    assert!(rt; plan.link >= 1 && plan.link <= 16);
    assert_eq!(rt;
        plan.figures.loads[usize::from(plan.link - 1)],
        0,
        "the shut link is empty"
    );
    Ok(())
}

#[test]
fn a_short_sheet_is_refused(rt: HostRuntime) -> Result<(), Fail> {
    let traffic = Traffic {
        nodes: 3,
        demands: &[],
    };
    let mut sheet = [1u16; 1023];
    let mut rows = PlanRows::with_room(rt.alloc())?;
    let refused = draw(&traffic, &ShortSide, &mut sheet, &mut rows).err();
    assert_eq!(rt; refused, Some(Refusal::TooFew { needed: 1024 }));
    assert_eq!(rt; sheet[1022], 0, "blank in full length all the same");
    Ok(())
}

#[test]
fn the_rows_of_the_last_plan_go(rt: HostRuntime) -> Result<(), Fail> {
    let demands = [between(1, 1, 3, 2), between(2, 2, 4, 1)];
    let crossing = Traffic {
        nodes: 4,
        demands: &demands,
    };
    let mut sheet = [0u16; 1024];
    let mut rows = PlanRows::with_room(rt.alloc())?;
    draw(&crossing, &ShortSide, &mut sheet, &mut rows)?;
    draw(&crossing, &ShortSide, &mut sheet, &mut rows)?;
    assert_eq!(rt; rows.as_slice().len(), 3);
    rows.clear();
    assert_eq!(rt; rows.as_slice().len(), 0);
    Ok(())
}
