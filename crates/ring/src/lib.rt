//! The words that every other crate speaks: the ring, its demands and routes, the rows of a plan, and why a call is refused.
//!
//! A ring has n nodes, 1 to n clockwise, with n from 3 to 16. Link e joins the nodes e and e + 1, and link n joins the nodes n and 1.
#![tactic(auto)]

pub mod choosing;
pub mod links;
pub mod routes;
pub mod slots;

ghost use Rattle.std.specs.Prelude.{◌≡◌, ℕ};
ghost use Rattle.ring.specs.Sides.{code as code_of};
ghost use Rattle.ring.specs.Claims.{ClearByPlaces, LimitsDecided};

pub use refusals::Refusal;

/// The way round the ring that a demand takes from its lower end to its upper one.
#[derive(Clone, Copy, PartialEq, Eq, Debug, Default)]
pub enum Side {
    #[default]
    Clockwise,
    CounterClockwise,
}

/// So many units of traffic between two nodes. The number, 1 to 65,535, is the demand's name; the lower end is below the upper one.
#[derive(Clone, Copy, PartialEq, Eq, Debug, Default)]
pub struct Demand {
    pub number: u16,
    pub lower: u8,
    pub upper: u8,
    pub units: u8,
}

/// A demand put on a side: each of its units takes the route between its ends on that side.
#[derive(Clone, Copy, PartialEq, Eq, Debug, Default)]
pub struct Route {
    pub demand: Demand,
    pub side: Side,
}

/// One unit in a plan: the number of its demand, its side (0 clockwise, 1 counter-clockwise) and its slot.
/// The numbers are raw, since a plan that was drawn elsewhere may hold any.
#[derive(Clone, Copy, PartialEq, Eq, Debug, Default)]
pub struct Row {
    pub demand: u16,
    // Kept: a number and no `Side`, since the checker has to see, and refuse, a side that is neither.
    pub side: u8,
    pub slot: u16,
}

/// Two links of the ring, the lower first, and the units of all demands that have to pass one of them.
#[derive(Clone, Copy, PartialEq, Eq, Debug)]
pub struct Cut {
    pub first: u8,
    pub second: u8,
    pub total: u16,
}

/// The figures of a plan: its slot count, and the load of each link, link e's at place e - 1 and 0 past the ring's last link.
#[derive(Clone, Copy, PartialEq, Eq, Debug)]
pub struct Figures {
    pub slots: u16,
    // Kept: an array of one length for all rings, since figures are answered by calls that cannot lack memory.
    pub loads: [u16; 16],
}

/// The side as rows have it: 0 clockwise, 1 counter-clockwise.
impl From<Side> for u8 {
    ghost from_gives = { λ side r. r ≡ code_of side };

    fn from(side: Side) -> u8 {
        match side {
            Side::Clockwise => 0,
            Side::CounterClockwise => 1,
        }
    }
}

/// What two of the definitions mean in other words: that no two rows of a plan collide, said by places; and the limits, as a test.
pub fn definitions_mean()
    ensures places { ClearByPlaces }
    ensures limits { LimitsDecided }
{}
