//! The links of a route, one by one and as a mask.

ghost use Rattle.std.specs.Prelude.{◌≡◌, ℕ, ◌≤◌};
ghost use Rattle.ring.specs.Ring.{within, over};
ghost use Rattle.ring.specs.Sides.{code as code_of, holds};
ghost use Rattle.ring.specs.Masks.{link_mask, BitForEachLink, MeetsWhereRoutesShare};

use crate::{Route, Side};

/// Whether the clockwise route between the ends holds the link.
pub fn is_within(lower: u8, upper: u8, link: u8) -> bool
    ensures { result ≡ within lower upper link }
{
    (lower..upper).contains(&link)
}

/// Whether the route between the ends on that side holds the link.
pub fn is_over(side: Side, lower: u8, upper: u8, link: u8) -> bool
    ensures { result ≡ over (code_of side) lower upper link }
{
    let inside = is_within(lower, upper, link);
    match side {
        Side::Clockwise => inside,
        Side::CounterClockwise => !inside,
    }
}

impl Route {
    /// Whether the route holds the link.
    pub fn holds_link(&self, link: u8) -> bool
        ensures { result ≡ holds self.now link }
    {
        is_over(self.side, self.demand.lower, self.demand.upper, link)
    }

    /// The links of the ring of n nodes that the route holds: bit e - 1 for link e. The masks of two routes have a bit in common exactly where
    /// the routes share a link.
    // Kept: that the ring has at most 16 nodes is a clause, since each caller has its nodes from a type of its own, and one more would be made and taken apart in one line.
    pub fn link_mask(&self, n: u8) -> u16
        requires { n ≤ 16 }
        ensures value { result ≡ link_mask n (code_of self.now.side) self.now.demand.lower self.now.demand.upper }
        ensures bits { BitForEachLink n (code_of self.now.side) self.now.demand.lower self.now.demand.upper result }
        ensures meets { MeetsWhereRoutesShare n (code_of self.now.side) self.now.demand.lower self.now.demand.upper result }
    {
        // Kept: the highest link comes first, and each doubles the mask; a `fold` would carry the mask in the same way.
        let mut mask = 0;
        for link in (1..=n).rev() {
            mask = 2 * mask + u16::from(self.holds_link(link));
        }
        mask
    }
}
