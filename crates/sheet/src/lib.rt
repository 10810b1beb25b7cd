//! The sheet of marks on which slots are given out: one mark a slot, with bit e - 1 set where a unit in that slot is over link e.
#![tactic(auto)]

ghost use Rattle.std.specs.Prelude.{◌≡◌, ◌+◌, ◌<◌, ◌≤◌, length, replicate, fold, ◌==◌, position, bit_and};
ghost use Rattle.sheet.specs.Marks.{Blank, free_at, marked, in_turn, used};

/// The marks of a sheet that is lent. They are blank again, in full length, when the guard ends, on every way out.
pub struct Guard<'a> {
    pub marks: &'a mut [u16],
}

impl Drop for Guard<'_> {
    fn drop(self)
        ensures { Blank self.exit.0.now (length self.entry.marks.now) }
    {
        blank(self.marks);
        let Guard { marks: _ } = self;
    }
}

/// Takes all marks off.
pub fn blank(marks: &mut [u16])
    ensures { Blank marks.new (length marks.old) }
{
    marks.fill(0);
}

/// The place of the first mark in which no link of the mask is set, if there is one.
fn first_free(marks: &[u16], mask: u16) -> Option<usize>
    ensures { result ≡ position (λ m. bit_and m mask == 0) marks.now }
{
    marks.iter().position(|m| *m & mask == 0)
}

/// Gives a unit with these links the lowest slot that is free for it, marks the links there, and returns the slot.
#[tactic(auto, using(crate::proofs::Marks::found), unfolding(crate::specs::Marks::marked))]
// Kept: how long the marks are is a clause, since they are lent on from call to call; a type for them would be taken apart and made again at each.
fn place(marks: &mut [u16], mask: u16) -> u16
    requires room { used marks.old < length marks.old }
    requires long { length marks.old ≤ 1024 }
    ensures slot { result ≡ 1 + free_at marks.old mask }
    ensures marks { marks.new ≡ marked marks.old mask }
{
    let Some(k) = first_free(marks, mask) else {
        unreachable()
    };
    marks[k] |= mask;
    // Kept: `as`, of which the check proves that it loses no bit; `u16::try_from` would ask for an arm that never runs.
    (k + 1) as u16
}

/// Gives slots to as many units with these links as there are places in `slots`, one unit after another, and writes the slots there.
pub fn place_units(marks: &mut [u16], mask: u16, slots: &mut [u16])
    requires room { used marks.old + length slots.old ≤ length marks.old }
    requires long { length marks.old ≤ 1024 }
    ensures marks { marks.new ≡ fold marked marks.old (replicate (length slots.old) mask) }
    ensures slots { slots.new ≡ in_turn marks.old (replicate (length slots.old) mask) }
{
    for slot in slots.iter_mut() {
        *slot = place(marks, mask);
    }
}
