//! The rows of one node: those of all demands with the node as either end.
#![tactic(auto)]

ghost use Rattle.std.specs.Prelude.{◌≡◌, ◌≤◌, length, IfOk};
ghost use Rattle.planwrite.specs.Fronts.{fronted};
ghost use Rattle.booklaw.specs.Books.{has_end, ends_at, node_rows};
ghost use Rattle.booklaw.specs.Calls.{answered, reading_into};

use checkrows::routes::line_of;
use ring::{Demand, Refusal, Row};

/// Whether the demand has the node as one of its ends.
fn has_end(d: Demand, node: u8) -> bool
    ensures { result ≡ has_end node d }
{
    d.lower == node || d.upper == node
}

/// The rows of a node in a plan for some demands: those whose demand has the node as either end.
#[derive(Clone, Copy, Debug)]
pub struct NodeRows<'a> {
    pub demands: &'a [Demand],
    pub rows: &'a [Row],
    pub node: u8,
}

impl NodeRows<'_> {
    /// Whether the row is one of the node's.
    fn has(&self, row: Row) -> bool
        ensures { result ≡ ends_at self.now.demands.now self.now.node row }
    {
        let NodeRows { demands, node, .. } = *self;
        line_of(demands, row.demand).is_some_and(|k| has_end(demands[k], node))
    }

    /// How many there are.
    fn count(&self) -> usize
        ensures { result ≡ length (node_rows self.now.demands.now self.now.rows.now self.now.node) }
    {
        self.rows.iter().filter(|row| self.has(**row)).count()
    }

    /// Writes them to the front of the places.
    fn copy_to(&self, places: &mut [Row])
        requires { length (node_rows self.now.demands.now self.now.rows.now self.now.node) ≤ length places.old }
        ensures { places.new ≡ fronted (node_rows self.now.demands.now self.now.rows.now self.now.node) places.old }
    {
        let wanted = self.rows.iter().filter(|row| self.has(**row));
        // Kept: written by place, since over `iter_mut()` alone an invariant can name the places, and over a `zip` of it none can; `rules::choose_routes` tried that form.
        for (at, row) in wanted.enumerate() {
            places[at] = *row;
        }
    }

    /// Writes them, in their order, to the front of the caller's places, and answers how many they are; the places past them stay. Refused if the places are
    /// too few, and then nothing is written.
    pub fn hand_out(&self, places: &mut [Row]) -> Result<usize, Refusal>
        ensures answer { answered result ≡ reading_into (length places.old) (node_rows self.now.demands.now self.now.rows.now self.now.node) }
        ensures count { IfOk result (λ k. k ≡ length (node_rows self.now.demands.now self.now.rows.now self.now.node)) }
        ensures written { places.new ≡ fronted (node_rows self.now.demands.now self.now.rows.now self.now.node) places.old }
    {
        let needed = self.count();
        if places.len() < needed {
            return Err(Refusal::TooFew { needed });
        }
        self.copy_to(places);
        Ok(needed)
    }
}
