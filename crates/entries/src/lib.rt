//! Whether a demand may be entered into a book: the checks on its ends, its units and its number, and on the room that is left.
#![tactic(auto)]

ghost use Rattle.std.specs.Prelude.{◌≡◌, ◌≤◌, IfOk};
ghost use Rattle.ring.specs.Ring.{units as units_of};
ghost use Rattle.booklaw.specs.Books.{is_node, demand_of};
ghost use Rattle.booklaw.specs.Calls.{answered, entering};

use checkrows::routes::line_of;
use ring::{Demand, Refusal};
use slotting::count_units;

/// The most demands that a book holds, and the most units of all its demands together.
const MOST_DEMANDS: usize = 128;

const MOST_UNITS: usize = 1024;

/// Whether a number is a node of the ring of n nodes.
pub fn is_node(n: u8, v: u8) -> bool
    ensures { result ≡ is_node n v }
{
    (1..=n).contains(&v)
}

/// The demand with these ends, in either order, if it may be added to these demands on the ring of n nodes; else the first cause why not, in a fixed order: an
/// end that is no node, equal ends, units that are not 1 to 48, a number that is 0 or taken, no room for a demand, no room for its units.
pub fn check_entry(
    n: u8,
    demands: &[Demand],
    number: u16,
    a: u8,
    b: u8,
    units: u8,
) -> Result<Demand, Refusal>
    requires { units_of demands.now ≤ 1024 }
    ensures answer { answered result ≡ entering n demands.now number a b units }
    ensures demand { IfOk result (λ d. d ≡ demand_of number a b units) }
{
    if !(is_node(n, a) && is_node(n, b)) {
        return Err(Refusal::EndOutside { place: 0 });
    }
    if a == b {
        return Err(Refusal::EndsFalling { place: 0 });
    }
    if !(1..=48).contains(&units) {
        return Err(Refusal::UnitsOutside { place: 0 });
    }
    if number == 0 || line_of(demands, number).is_some() {
        return Err(Refusal::NumberTaken { place: 0 });
    }
    if demands.len() >= MOST_DEMANDS {
        return Err(Refusal::BookFull { place: 0 });
    }
    if count_units(demands) + usize::from(units) > MOST_UNITS {
        return Err(Refusal::UnitsPast { place: 0 });
    }
    Ok(Demand {
        number,
        lower: a.min(b),
        upper: a.max(b),
        units,
    })
}
