//! The slot count of rows.

ghost use Rattle.std.specs.Prelude.{◌≡◌};
ghost use Rattle.ring.specs.Ring.{slot_count};
ghost use Rattle.ring.specs.Claims.{SlotsCountedOnce, GaplessSlotsCounted};

use crate::Row;

/// The number of distinct slots of the rows, in time linear in the rows.
pub fn slot_count(rows: &[Row]) -> usize
    ensures value { result ≡ slot_count rows.now }
    ensures once { SlotsCountedOnce rows.now }
    ensures gapless { GaplessSlotsCounted rows.now }
{
    // Kept: a call that cannot fail asks for no memory, so what was seen is a table of the slots that a row can name, and no set;
    // the count goes with it, since a `filter` would write the table from inside its closure.
    let mut seen = [false; 65536];
    let mut count = 0;
    for row in rows {
        let slot = usize::from(row.slot);
        if !seen[slot] {
            seen[slot] = true;
            count += 1;
        }
    }
    count
}
