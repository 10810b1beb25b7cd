//! The sample file exactly, and what is wrong with files that differ from it.

ghost use Rattle.std.specs.Prelude.{◌<◌};

use frames::FrameFault;
use frames::read::read_file;
use lines::{LineFault, fault_line};
use planfile::PlanFault;
use planfile::take::take_file;
use planfile::write::{PlanFile, write_plan};
use ring::{Demand, Refusal, Row};
use std::process::Abort;
use std::test::Fail;

const SAMPLE: &[u8; 89] =
    b"01000704\n020001010302\n020002020401\n030001000001\n030001000002\n030002000003\n04000200030003\n";

fn between(number: u16, lower: u8, upper: u8, units: u8) -> Demand {
    Demand {
        number,
        lower,
        upper,
        units,
    }
}

fn clockwise(demand: u16, slot: u16) -> Row {
    Row {
        demand,
        side: 0,
        slot,
    }
}

#[test]
fn the_sample_is_written(rt: HostRuntime) {
    let demands = [between(1, 1, 3, 2), between(2, 2, 4, 1)];
    let rows = [clockwise(1, 1), clockwise(1, 2), clockwise(2, 3)];
    let plan = PlanFile {
        number: 7,
        nodes: 4,
        demands: &demands,
        rows: &rows,
    };
    let mut bytes = [7u8; 90];
    assert_eq!(rt; write_plan(&plan, &mut bytes), Ok(89));
    assert_eq!(rt; &bytes[0..89], SAMPLE.as_slice());
    assert_eq!(rt; bytes[89], 7, "past the text");
    let mut few = [7u8; 88];
    let refused = write_plan(&plan, &mut few);
    assert_eq!(rt; refused, Err(Refusal::TooFew { needed: 89 }));
    assert_eq!(rt; few[0], 7, "nothing is written");
}

#[test]
fn the_sample_is_taken(rt: HostRuntime) -> Result<(), Fail> {
    let mut lines = [between(9, 9, 9, 9); 3];
    let mut rows = [clockwise(9, 9); 4];
    let mut sheet = [7u16; 1025];
    let taken = take_file(SAMPLE, &mut lines, &mut rows, &mut sheet)?;
    assert_eq!(rt; taken.number, 7);
    assert_eq!(rt; taken.nodes, 4);
    assert_eq!(rt; taken.demands, 2);
    assert_eq!(rt; taken.units, 3);
    assert_eq!(rt; taken.verdict.slots, 3);
    assert_eq!(rt; taken.verdict.loads[1], 3);
    assert_eq!(rt; lines[1], between(2, 2, 4, 1));
    assert_eq!(rt; lines[2], between(9, 9, 9, 9), "past what is written");
    assert_eq!(rt; rows[2], clockwise(2, 3));
    assert_eq!(rt; rows[3], clockwise(9, 9), "past what is written");
    assert_eq!(rt; sheet[1024], 0);
    Ok(())
}

/// What is wrong with a text, read into two places for demands and one for rows.
fn fault(text: &[u8]) -> Option<FrameFault> {
    let mut demands = [between(0, 0, 0, 0); 2];
    let mut rows = [clockwise(0, 0); 1];
    read_file(text, &mut demands, &mut rows).err()
}

fn in_line(line: usize, character: usize) -> Option<FrameFault> {
    Some(FrameFault::Line(LineFault { line, character }))
}

fn form(line: usize) -> Option<FrameFault> {
    Some(FrameFault::Form { line })
}

fn order(line: usize) -> Option<FrameFault> {
    Some(FrameFault::Order { line })
}

fn too_few(needed: usize, line: usize) -> Option<FrameFault> {
    Some(FrameFault::TooFew { needed, line })
}

#[test]
fn texts_that_cannot_be_read(rt: HostRuntime) {
    let cases: [(&[u8], Option<FrameFault>); 19] = [
        // a line: empty, odd, without its line feed, upper case, no digit, and after the end
        (b"\n", in_line(1, 1)),
        (b"0100070\n", in_line(1, 8)),
        (b"01000704", in_line(1, 9)),
        (b"01000704\n0A0001010302\n", in_line(2, 2)),
        (b"01000704\n020001g10302\n", in_line(2, 7)),
        (b"01000704\n04000000000000\n ", in_line(3, 1)),
        // a frame: unknown, longer, shorter, and after the end
        (b"05\n", form(1)),
        (b"0100070401\n", form(1)),
        (b"01000704\n0200010103\n", form(2)),
        (b"01000704\n04000000000000\n05\n", form(3)),
        // the order: nothing, no ring frame, two, a demand after a unit, no end frame, and after the end
        (b"", order(1)),
        (b"020001010302\n", order(1)),
        (b"01000704\n01000704\n", order(2)),
        (b"01000704\n030001000001\n020001010302\n", order(3)),
        (b"01000704\n030001000001\n", order(3)),
        (b"01000704\n04000000000000\n030001000001\n", order(3)),
        // a third demand, and a second unit
        (
            b"01000704\n020001010302\n020002010302\n020003010302\n",
            too_few(3, 4),
        ),
        (b"01000704\n030001000001\n030001000002\n", too_few(2, 3)),
        // nothing
        (b"01000704\n04000000000000\n", None),
    ];
    for (text, expected) in cases {
        assert_eq!(rt; fault(text), expected);
    }
}

/// What is wrong with the sample once a character, at a place from 0, is another.
fn refused(at: usize, character: u8) -> Option<PlanFault> {
    let mut text = *SAMPLE;
    if at < 89 {
        text[at] = character;
    }
    let mut lines = [between(0, 0, 0, 0); 2];
    let mut rows = [clockwise(0, 0); 3];
    let mut sheet = [7u16; 1024];
    take_file(&text, &mut lines, &mut rows, &mut sheet).err()
}

fn because(line: usize, refusal: Refusal) -> Option<PlanFault> {
    Some(PlanFault::Refused { line, refusal })
}

fn not_a_digit(line: usize, character: usize) -> Option<PlanFault> {
    let fault = LineFault { line, character };
    Some(PlanFault::OfFrame(FrameFault::Line(fault)))
}

fn wrong_figures() -> Option<PlanFault> {
    Some(PlanFault::Figures { line: 7 })
}

#[test]
fn files_refused(rt: HostRuntime) {
    let cases = [
        (24, b'A', not_a_digit(3, 3)),
        (7, b'2', because(1, Refusal::RingSize)),
        (31, b'5', because(3, Refusal::EndOutside { place: 2 })),
        (18, b'1', because(2, Refusal::EndsFalling { place: 1 })),
        (19, b'3', because(2, Refusal::UnitsOutside { place: 1 })),
        (27, b'1', because(3, Refusal::NumberTaken { place: 2 })),
        (46, b'0', because(4, Refusal::SlotOutside { row: 1 })),
        (55, b'1', because(5, Refusal::SideWrong { row: 2 })),
        (33, b'2', because(3, Refusal::CountWrong { line: 2 })),
        (66, b'3', because(6, Refusal::DemandUnknown { row: 3 })),
        (72, b'1', because(6, Refusal::Collision { row: 3, met: 1 })),
        (79, b'1', wrong_figures()),
        (83, b'2', wrong_figures()),
        (87, b'2', wrong_figures()),
        (87, b'3', None),
    ];
    for (at, character, fault) in cases {
        assert_eq!(rt; refused(at, character), fault);
    }
}

#[test]
fn a_short_sheet(rt: HostRuntime) {
    let mut lines = [between(0, 0, 0, 0); 2];
    let mut rows = [clockwise(0, 0); 3];
    let mut sheet = [7u16; 1023];
    let fault = take_file(SAMPLE, &mut lines, &mut rows, &mut sheet).err();
    assert_eq!(rt; fault, because(1, Refusal::TooFew { needed: 1024 }));
    assert_eq!(rt; rows[2], clockwise(2, 3), "all is written");
    assert_eq!(rt; sheet[1022], 0);
}

#[test]
fn a_fault_is_shown(rt: HostRuntime) {
    assert_eq!(rt; fault_line(SAMPLE, 2), b"020001010302".as_slice());
    assert_eq!(rt; fault_line(SAMPLE, 7), b"04000200030003".as_slice());
    assert_eq!(rt; fault_line(SAMPLE, 8), b"".as_slice());
    let fault = PlanFault::OfFrame(FrameFault::TooFew { needed: 3, line: 4 });
    assert_eq!(rt; fault.line(), 4);
    assert_eq!(rt; Refusal::from(fault), Refusal::TooFew { needed: 3 });
}

/// Why a file of N demands like this one, numbered from 1, is refused, if it is. Its text has T bytes.
fn fault_of_many<const N: usize, const T: usize>(rt: &impl Abort, like: Demand) -> Option<PlanFault>
    requires few { N < 65536 }
    requires short { T < 65536 }
{
    let mut demands = [like; N];
    for (d, number) in demands.iter_mut().zip(1..) {
        d.number = number;
    }
    let mut text = [0u8; T];
    let plan = PlanFile {
        number: 7,
        nodes: 4,
        demands: &demands,
        rows: &[],
    };
    assert!(rt; write_plan(&plan, &mut text).is_ok());
    let mut lines = [between(0, 0, 0, 0); N];
    let mut rows = [clockwise(0, 0); 1];
    let mut sheet = [0u16; 1024];
    take_file(&text, &mut lines, &mut rows, &mut sheet).err()
}

#[test]
fn too_many_lines(rt: HostRuntime) {
    let fault = fault_of_many::<129, 1701>(&rt, between(0, 1, 2, 1));
    assert_eq!(rt; fault, because(130, Refusal::BookFull { place: 129 }));
}

#[test]
fn too_many_units(rt: HostRuntime) {
    let fault = fault_of_many::<22, 310>(&rt, between(0, 1, 2, 48));
    assert_eq!(rt; fault, because(23, Refusal::UnitsPast { place: 22 }));
}
