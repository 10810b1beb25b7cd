//! A figure for each link of a ring.

ghost use Rattle.std.specs.Prelude.{◌≡◌, ℕ, ◌≤◌};
ghost use Rattle.ring.specs.Sides.{per_link};

/// A figure for each link of the ring of n nodes, that of link e at place e - 1, and 0 past link n.
// Kept: that there are at most 16 nodes is a clause, for the reason that `Route::link_mask` has.
pub fn figure_per_link<F: Fn(u8) -> u16>(n: u8, figure: F) -> [u16; 16]
    requires ring { n ≤ 16 }
    requires callable { (e : ℕ) → 1 ≤ e → e ≤ n → F.pre figure e }
    ensures { (g : ℕ → ℕ) → ((e r : ℕ) → 1 ≤ e → e ≤ n → F.post figure e r → r ≡ g e) → result ≡ per_link n g }
{
    let mut figures = [0; 16];
    // Kept: tried by `array::from_fn`; the proof did not close, since what it says of each call leaves open which values the closure captured.
    for e in 0..n {
        figures[usize::from(e)] = figure(e + 1);
    }
    figures
}
