//! Writing plan files. docs/FORMATS.md lays the file down.
#![tactic(auto)]

ghost use Rattle.std.specs.Prelude.{◌≡◌, ◌+◌, ◌*◌, ◌/◌, ◌%◌, ◌<◌, ◌≤◌, map, length, take, IfOk, if◌then◌else◌, Ok, Err, nat_le};
ghost use Rattle.std.specs.List.{flat_map, AllByRecursion as Each};
ghost use Rattle.refusals.specs.declared.Refusal.TheVariants.{TooFew};
ghost use Rattle.lines.specs.Writes.{overwrite};
ghost use Rattle.frames.specs.declared.Frame.TheVariants.{RingFrame, DemandFrame, UnitFrame, EndFrame};
ghost use Rattle.planwrite.specs.Texts.{Sized, frame_text, file_text, file_length};
ghost use Rattle.planwrite.specs.Fronts.{fronted, fronting};
ghost use Rattle.planwrite.specs.Backs.{ReadsBack};

use frames::{Frame, Heading, Totals};
use lines::put_line;
use ring::{Demand, Refusal, Row};

/// A plan as its file tells it: the number of its book, the size of its ring, and its demands and rows, of each so few that two bytes count them.
#[derive(Clone, Copy)]
pub struct PlanFile<'a> {
    pub number: u16,
    pub nodes: u8,
    pub demands: &'a [Demand],
    pub rows: &'a [Row],
    pub ghost few_demands: { length demands.now < 65536 },
    pub ghost few_rows: { length rows.now < 65536 },
}

/// Writes the line of a frame from a place on, and answers the place after it.
// Kept: into the caller's bytes, and no `Display`, for the reason that `lines::put_line` has. Inlined, since the caller knows the kind, and with it the length of the line.
#[inline(always)]
fn put_frame(bytes: &mut [u8], at: usize, frame: Frame) -> usize
    requires { at + length (frame_text frame) ≤ length bytes.old }
    ensures written { bytes.new ≡ overwrite bytes.old at (frame_text frame) }
    ensures next { result ≡ at + length (frame_text frame) }
    ensures sized { Sized frame }
{
    match frame {
        Frame::RingFrame(h) => {
            let [high, low] = h.number.to_be_bytes();
            put_line(bytes, at, &[1, high, low, h.nodes])
        }
        Frame::DemandFrame(d) => {
            let [high, low] = d.number.to_be_bytes();
            put_line(bytes, at, &[2, high, low, d.lower, d.upper, d.units])
        }
        Frame::UnitFrame(r) => {
            let [high, low] = r.demand.to_be_bytes();
            let [slot_high, slot_low] = r.slot.to_be_bytes();
            put_line(bytes, at, &[3, high, low, r.side, slot_high, slot_low])
        }
        Frame::EndFrame(t) => {
            let [d_high, d_low] = t.demands.to_be_bytes();
            let [u_high, u_low] = t.units.to_be_bytes();
            let [s_high, s_low] = t.slots.to_be_bytes();
            put_line(bytes, at, &[4, d_high, d_low, u_high, u_low, s_high, s_low])
        }
    }
}

impl PlanFile<'_> {
    /// The length of the text, if so many bytes hold it.
    fn room_for(&self, held: usize) -> Result<usize, Refusal>
        ensures { result ≡ (if nat_le (file_length (length self.now.demands.now) (length self.now.rows.now)) held then Ok (file_length (length self.now.demands.now) (length self.now.rows.now)) else Err (TooFew (file_length (length self.now.demands.now) (length self.now.rows.now)))) }
    {
        let needed = 24 + 13 * (self.demands.len() + self.rows.len());
        if held < needed {
            return Err(Refusal::TooFew { needed });
        }
        Ok(needed)
    }

    /// Writes the text of the plan, which says that it has so many slots, into the front of `bytes`, and answers its length. The bytes past it stay.
    /// Refused if the bytes are too few, and then nothing is written.
    pub fn write(&self, slots: u16, bytes: &mut [u8]) -> Result<usize, Refusal>
        ensures answer { result ≡ fronting (file_text self.now.number self.now.nodes self.now.demands.now self.now.rows.now slots) bytes.old }
        ensures written { bytes.new ≡ fronted (file_text self.now.number self.now.nodes self.now.demands.now self.now.rows.now slots) bytes.old }
        ensures back { IfOk result (λ n. ReadsBack self.now.number self.now.nodes self.now.demands.now self.now.rows.now slots (take n bytes.new)) }
    {
        let length = self.room_for(bytes.len())?;
        let heading = Heading {
            number: self.number,
            nodes: self.nodes,
        };
        let totals = Totals {
            // Kept: `as`, of which the check proves that it loses no bit, here and below; `u16::try_from` would ask for an arm that never runs.
            demands: self.demands.len() as u16,
            units: self.rows.len() as u16,
            slots,
        };
        let mut place = put_frame(bytes, 0, Frame::RingFrame(heading));
        // Kept: two loops; one over a chain of all frames asks for each frame which part of the chain it is from, and then of which kind it is.
        for d in self.demands {
            place = put_frame(bytes, place, Frame::DemandFrame(*d));
        }
        for row in self.rows {
            place = put_frame(bytes, place, Frame::UnitFrame(*row));
        }
        put_frame(bytes, place, Frame::EndFrame(totals));
        Ok(length)
    }
}
