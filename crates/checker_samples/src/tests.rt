//! What the checker answers on sample plans, and each refusal at its edge.

use checker::check as check_plan;
use ring::{Demand, Figures, Refusal, Row};
use std::test::Fail;

// Kept: each crate of samples has such a function for its own tables; a shared one would be a public call of the library, with a contract and an edit, for tests alone.
fn line(number: u16, lower: u8, upper: u8, units: u8) -> Demand {
    Demand {
        number,
        lower,
        upper,
        units,
    }
}

fn row(demand: u16, side: u8, slot: u16) -> Row {
    Row { demand, side, slot }
}

/// Lines that are numbered from 1, each with as many units between the nodes 1 and 2.
fn number_lines(lines: &mut [Demand], units: u8) {
    for (place, number) in lines.iter_mut().zip(1..) {
        *place = line(number, 1, 2, units);
    }
}

/// Why the rows are refused, if they are, on a sheet of 1,024 marks.
fn refusal(n: u8, lines: &[Demand], rows: &[Row]) -> Option<Refusal> {
    let mut sheet = [0u16; 1024];
    check_plan(n, lines, rows, &mut sheet).err()
}

/// Whether no mark is on the sheet.
fn is_blank(sheet: &[u16]) -> bool {
    sheet.iter().all(|mark| *mark == 0)
}

#[test]
fn a_plan_on_four_nodes(rt: HostRuntime) -> Result<(), Fail> {
    let lines = [line(1, 1, 3, 2), line(2, 2, 4, 1)];
    let rows = [row(1, 0, 1), row(1, 0, 2), row(2, 0, 3)];
    let mut sheet = [0u16; 1024];
    let wanted = Figures {
        slots: 3,
        loads: [2, 3, 1, 0, 0, 0, 0, 0, 0, 0, 0, 0, 0, 0, 0, 0],
    };
    assert_eq!(rt; check_plan(4, &lines, &rows, &mut sheet)?, wanted);
    Ok(())
}

#[test]
fn the_last_row_of_the_plan_changed(rt: HostRuntime) {
    let lines = [line(1, 1, 3, 2), line(2, 2, 4, 1)];
    let cases = [
        (row(2, 0, 2), Some(Refusal::Collision { row: 3, met: 2 })),
        (row(2, 0, 1), Some(Refusal::Collision { row: 3, met: 1 })),
        (row(2, 1, 1), Some(Refusal::Collision { row: 3, met: 1 })),
        (row(2, 1, 3), None),
        (row(3, 0, 3), Some(Refusal::DemandUnknown { row: 3 })),
        (row(2, 0, 0), Some(Refusal::SlotOutside { row: 3 })),
        (row(2, 0, 1024), None),
        (row(2, 0, 1025), Some(Refusal::SlotOutside { row: 3 })),
        (row(2, 2, 1025), Some(Refusal::SlotOutside { row: 3 })),
        (row(2, 2, 2), Some(Refusal::SideWrong { row: 3 })),
        (row(1, 1, 3), Some(Refusal::SideWrong { row: 3 })),
        (row(1, 0, 3), Some(Refusal::CountWrong { line: 1 })),
    ];
    for (last, refused) in &cases {
        let rows = [row(1, 0, 1), row(1, 0, 2), *last];
        assert_eq!(rt; refusal(4, &lines, &rows), *refused);
    }
    let few = [row(1, 0, 1), row(1, 0, 2)];
    assert_eq!(rt;
        refusal(4, &lines, &few),
        Some(Refusal::CountWrong { line: 2 })
    );
}

#[test]
fn routes_that_touch_share_no_link(rt: HostRuntime) {
    let lines = [line(1, 1, 2, 1), line(2, 2, 3, 1), line(3, 1, 3, 1)];
    let rows = [row(1, 0, 1), row(2, 0, 1), row(3, 1, 1)];
    assert_eq!(rt; refusal(3, &lines, &rows), None);
}

#[test]
fn a_line_at_the_limits(rt: HostRuntime) {
    let passes = Refusal::CountWrong { line: 1 };
    let cases = [
        (2, line(1, 1, 2, 1), Refusal::RingSize),
        (3, line(1, 1, 2, 1), passes),
        (16, line(1, 1, 16, 1), passes),
        (17, line(1, 1, 2, 1), Refusal::RingSize),
        (4, line(1, 0, 4, 1), Refusal::EndOutside { place: 1 }),
        (4, line(1, 1, 5, 1), Refusal::EndOutside { place: 1 }),
        (4, line(1, 5, 1, 1), Refusal::EndOutside { place: 1 }),
        (4, line(1, 2, 2, 1), Refusal::EndsFalling { place: 1 }),
        (4, line(1, 4, 3, 0), Refusal::EndsFalling { place: 1 }),
        (4, line(1, 3, 4, 0), Refusal::UnitsOutside { place: 1 }),
        (4, line(1, 3, 4, 48), passes),
        (4, line(0, 3, 4, 49), Refusal::UnitsOutside { place: 1 }),
        (4, line(0, 3, 4, 48), Refusal::NumberTaken { place: 1 }),
        (4, line(65535, 3, 4, 48), passes),
    ];
    for (n, line, refused) in &cases {
        assert_eq!(rt; refusal(*n, &[*line], &[]), Some(*refused));
    }
}

#[test]
fn a_repeated_number(rt: HostRuntime) {
    let lines = [line(7, 1, 2, 1), line(8, 1, 2, 1), line(7, 2, 3, 1)];
    assert_eq!(rt;
        refusal(3, &lines, &[]),
        Some(Refusal::NumberTaken { place: 3 })
    );
}

#[test]
fn lines_up_to_128_and_units_up_to_1024(rt: HostRuntime) {
    let passes = Some(Refusal::CountWrong { line: 1 });
    let mut lines = [line(0, 0, 0, 0); 129];
    number_lines(&mut lines, 8);
    assert_eq!(rt; refusal(3, &lines[0..128], &[]), passes, "1,024 units");
    assert_eq!(rt;
        refusal(3, &lines, &[]),
        Some(Refusal::BookFull { place: 129 })
    );
    lines[127].units = 9;
    assert_eq!(rt;
        refusal(3, &lines, &[]),
        Some(Refusal::UnitsPast { place: 128 }),
        "1,025 units"
    );
    lines[127].units = 7;
    lines[128] = line(0, 0, 0, 0);
    assert_eq!(rt;
        refusal(3, &lines, &[]),
        Some(Refusal::BookFull { place: 129 }),
        "whatever it holds"
    );
}

#[test]
fn sheets_of_1023_and_1024_marks(rt: HostRuntime) {
    let short = Some(Refusal::TooFew { needed: 1024 });
    assert!(rt; check_plan(3, &[], &[], &mut [0u16; 1024]).is_ok());
    assert_eq!(rt; check_plan(3, &[], &[], &mut [0u16; 1023]).err(), short);
    assert_eq!(rt;
        check_plan(2, &[], &[], &mut [0u16; 1023]).err(),
        Some(Refusal::RingSize)
    );
}

#[test]
fn the_sheet_is_blank_on_every_way_out(rt: HostRuntime) {
    let lines = [line(1, 1, 3, 1), line(2, 2, 4, 1)];
    let apart = [row(1, 0, 1), row(2, 0, 2)];
    let meeting = [row(1, 0, 1), row(2, 0, 1)];
    let cases = [
        (4, &apart[..], true, "after a pass"),
        (4, &meeting[..], false, "after a collision"),
        (2, &[], false, "after a wrong ring size"),
    ];
    for (n, rows, passes, way) in &cases {
        let mut sheet = [0xffffu16; 1030];
        assert_eq!(rt; check_plan(*n, &lines, rows, &mut sheet).is_ok(), *passes);
        assert!(rt; is_blank(&sheet), "{way}");
    }
}
