//! Reading: the frame of a line, and the frames of a file.

ghost use Rattle.std.specs.Prelude.{◌≡◌, ◌+◌, ◌*◌, ◌^◌, ◌<◌, ◌≤◌, length, IfOk, if◌then◌else◌, Ok, Err, nat_lt, slice_set};
ghost use Rattle.lines.specs.Hex.{bytes_of};
ghost use Rattle.lines.specs.Writes.{overwrite};
ghost use Rattle.frames.specs.declared.FrameFault.TheVariants.{TooFew};
ghost use Rattle.frames.specs.Frames.{frame_of};
ghost use Rattle.frames.specs.Reading.{taken, took, stopped, reading, demands_in, rows_in, Counts};

use crate::{Contents, Frame, FrameFault, Heading, Progress, State, Totals};
use lines::{decode, next_line};
use ring::{Demand, Row};

/// The frame that the bytes of a line are.
// Kept: `TryFrom` has no place for the number of the line, which the fault names.
pub fn parse(bytes: &[u8], line: usize) -> Result<Frame, FrameFault>
    ensures { result ≡ frame_of line bytes.now }
{
    match bytes {
        [1, high, low, nodes] => Ok(Frame::RingFrame(Heading {
            number: u16::from_be_bytes([*high, *low]),
            nodes: *nodes,
        })),
        [2, high, low, lower, upper, units] => Ok(Frame::DemandFrame(Demand {
            number: u16::from_be_bytes([*high, *low]),
            lower: *lower,
            upper: *upper,
            units: *units,
        })),
        [3, high, low, side, slot_high, slot_low] => Ok(Frame::UnitFrame(Row {
            demand: u16::from_be_bytes([*high, *low]),
            side: *side,
            slot: u16::from_be_bytes([*slot_high, *slot_low]),
        })),
        [4, high, low, units_high, units_low, slots_high, slots_low] => {
            Ok(Frame::EndFrame(Totals {
                demands: u16::from_be_bytes([*high, *low]),
                units: u16::from_be_bytes([*units_high, *units_low]),
                slots: u16::from_be_bytes([*slots_high, *slots_low]),
            }))
        }
        _ => Err(FrameFault::Form { line }),
    }
}

/// The frame that the digits of a line stand for.
fn frame_of(digits: &[u8], line: usize) -> Result<Frame, FrameFault>
    ensures { result ≡ frame_of line (bytes_of digits.now) }
{
    let count = digits.len() / 2;
    if count > 7 {
        return Err(FrameFault::Form { line });
    }
    // Kept: reading a file has no heap, and cannot run out of memory; no frame is longer than these seven bytes.
    let mut bytes = [0u8; 7];
    decode(digits, &mut bytes);
    parse(&bytes[..count], line)
}

/// Puts a demand or a row into the caller's next place, after so many of its kind, and answers how many there are then.
// Kept: the places are the caller's, with a count beside them, since reading has no heap in which a Vec could grow.
fn put_next<T: Copy>(places: &mut [T], count: usize, x: T, line: usize) -> Result<usize, FrameFault>
    requires { count < 2 ^ 63 }
    ensures answer { result ≡ (if nat_lt count (length places.old) then Ok (count + 1) else Err (TooFew (count + 1) line)) }
    ensures places { places.new ≡ (if nat_lt count (length places.old) then slice_set places.old count x else places.old) }
{
    if count >= places.len() {
        return Err(FrameFault::TooFew {
            needed: count + 1,
            line,
        });
    }
    places[count] = x;
    Ok(count + 1)
}

// Kept: the places for demands and for rows are two parameters, as the call from outside lends them; they are filled apart from one another.
/// Takes the frame of a line: it has to be one that may come now, and a demand or a row goes to the caller's next place.
fn take_frame(
    p: Progress,
    frame: Frame,
    line: usize,
    demands: &mut [Demand],
    rows: &mut [Row],
) -> Result<Progress, FrameFault>
    requires demands { p.demands ≤ length demands.old }
    requires rows { p.units ≤ length rows.old }
    ensures answer { result ≡ taken (length demands.old) (length rows.old) line p frame }
    ensures demands { demands.new ≡ overwrite demands.old p.demands (demands_in (took frame result)) }
    ensures rows { rows.new ≡ overwrite rows.old p.units (rows_in (took frame result)) }
{
    let Some(state) = p.state.next_state(frame) else {
        return Err(FrameFault::Order { line });
    };
    let mut q = Progress { state, ..p };
    match frame {
        Frame::DemandFrame(d) => q.demands = put_next(demands, q.demands, d, line)?,
        Frame::UnitFrame(r) => q.units = put_next(rows, q.units, r, line)?,
        Frame::RingFrame(_) | Frame::EndFrame(_) => {}
    }
    Ok(q)
}

/// What a file said whose text stops before the line with this number: that has to be after the end frame.
fn stop(p: Progress, line: usize) -> Result<Contents, FrameFault>
    ensures { result ≡ stopped line p p.state }
{
    match p.state {
        State::Done(heading, totals) => Ok(Contents {
            heading,
            demands: p.demands,
            units: p.units,
            totals,
        }),
        _ => Err(FrameFault::Order { line }),
    }
}

/// Reads a plan file: its demands and rows go to the front of the caller's places, in their order. Those of the frames before a fault are written
/// too, and the places past what is written stay.
pub fn read_file(
    text: &[u8],
    demands: &mut [Demand],
    rows: &mut [Row],
) -> Result<Contents, FrameFault>
    ensures answer { result ≡ (reading (length demands.old) (length rows.old) text.now).outcome }
    ensures demands { demands.new ≡ overwrite demands.old 0 (demands_in (reading (length demands.old) (length rows.old) text.now).frames) }
    ensures rows { rows.new ≡ overwrite rows.old 0 (rows_in (reading (length demands.old) (length rows.old) text.now).frames) }
    ensures counts { IfOk result (λ q. Counts (length demands.old) (length rows.old) (reading (length demands.old) (length rows.old) text.now).frames q) }
{
    let mut p = Progress {
        state: State::Start,
        demands: 0,
        units: 0,
    };
    // Kept: the digits of a line say where the next one begins, and no `split_inclusive` cuts the text first: that would go through a line of any length to its
    // line feed before its first character is looked at.
    let mut line = 1;
    let mut rest = text;
    while rest.len() > 0 {
        let digits = next_line(rest, line)?;
        let frame = frame_of(digits, line)?;
        p = take_frame(p, frame, line, demands, rows)?;
        rest = &rest[digits.len() + 1..];
        line += 1;
    }
    stop(p, line)
}
