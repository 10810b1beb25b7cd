//! Writing a plan with its slot count.

ghost use Rattle.std.specs.Prelude.{◌≡◌, ◌<◌, length, take, IfOk};
ghost use Rattle.ring.specs.Ring.{slot_count};
ghost use Rattle.planwrite.specs.Texts.{file_text};
ghost use Rattle.planwrite.specs.Fronts.{fronted, fronting};
ghost use Rattle.planwrite.specs.Backs.{ReadsBack};
ghost use Rattle.planfile.specs.Backs.{TakesBack};

pub use planwrite::PlanFile;
use ring::Refusal;
use ring::slots::slot_count;

/// Writes the text of a plan, with the slot count of its rows, into the front of `bytes`, and answers its length. The bytes past it stay. Refused
/// if the bytes are too few, and then nothing is written. What is written reads back, and if it is a plan within the limits, it is taken back.
pub fn write_plan(plan: &PlanFile, bytes: &mut [u8]) -> Result<usize, Refusal>
    ensures answer { result ≡ fronting (file_text plan.now.number plan.now.nodes plan.now.demands.now plan.now.rows.now (slot_count plan.now.rows.now)) bytes.old }
    ensures written { bytes.new ≡ fronted (file_text plan.now.number plan.now.nodes plan.now.demands.now plan.now.rows.now (slot_count plan.now.rows.now)) bytes.old }
    ensures back { IfOk result (λ n. ReadsBack plan.now.number plan.now.nodes plan.now.demands.now plan.now.rows.now (slot_count plan.now.rows.now) (take n bytes.new)) }
    ensures taken { IfOk result (λ n. TakesBack plan.now.number plan.now.nodes plan.now.demands.now plan.now.rows.now (take n bytes.new)) }
{
    // Kept: `as`, of which the check proves that it loses no bit; `u16::try_from` would ask for an arm that never runs.
    let slots = slot_count(plan.rows) as u16;
    plan.write(slots, bytes)
}
