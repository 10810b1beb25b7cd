//! The rule by weights of the links.

ghost use Rattle.std.specs.Prelude.{◌≡◌, ℕ, ◌≤◌, MatchResult};
ghost use Rattle.ring.specs.Sides.{weight_of, code as code_of};
ghost use Rattle.rules.specs.Weights.{Weighty, FirstWeightless};

use ring::routes::is_over;
use ring::{Refusal, Side};

/// Takes the route of smaller total weight, clockwise on a tie. The weight of link e stands at place e - 1, and on a ring of n nodes the first n count.
#[derive(Clone, Copy, Debug)]
pub struct Weights {
    // Kept: an array of the length that any ring needs, since a rule is copied and takes no memory.
    weights: [u16; 16],
}

impl Weights {
    /// The rule by these weights, each 1 to 65,535; a weight of 0 is refused, with the first link that has it.
    pub fn new(weights: [u16; 16]) -> Result<Weights, Refusal>
        ensures { MatchResult result (λ w. (w.weights ≡ weights) × Weighty weights) (λ e. FirstWeightless weights e) }
    {
        match weights.iter().position(|w| *w == 0) {
            Some(k) => Err(Refusal::NoWeight {
                // Kept: `as`, of which the check proves that it loses no bit; `u8::try_from` would ask for an arm that never runs.
                link: (k + 1) as u8,
            }),
            None => Ok(Weights { weights }),
        }
    }

    /// The total weight of the links that the route between the ends on that side holds.
    // Kept: that there are at most 16 nodes is a clause, since a rule is asked with any number, and tests it first.
    pub(crate) fn weight_of(&self, n: u8, side: Side, lower: u8, upper: u8) -> u32
        requires { n ≤ 16 }
        ensures { result ≡ weight_of self.now.weights n (code_of side) lower upper }
    {
        // Kept: tried over `(1..=n).zip(&self.weights)`, as a chain with `sum`; it was not proved that the total fits, since nothing there says that a weight
        // is below 65,536; what is read at an index is known to be.
        let mut total = 0;
        for e in 0..n {
            if is_over(side, lower, upper, e + 1) {
                total += u32::from(self.weights[usize::from(e)]);
            }
        }
        total
    }
}
