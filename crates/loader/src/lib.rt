//! How a loader uses a book: it fetches the slip of a node, reads the node's rows, loads them, and hands the slip back.
//!
//! Two wrong loaders are not built. One lets a slip go that it has not handed back, and one reports a slip as loaded whose rows it has not read. Both stand in
//! `must-fail/`, as edits of `load_node` that the prover has to refuse.
#![tactic(auto)]

ghost use Rattle.std.specs.Prelude.{◌≡◌, MatchResult};
ghost use Rattle.book.specs.Does.{state};
ghost use Rattle.loader.specs.Loads.{Loaded, Unloaded};

use book::book::Book;
use ring::{Refusal, Row};

/// Loads one node: its rows come to the front of the places, and their number is answered. If they do not fit, the slip is handed back as returned.
pub fn load_node(book: &mut Book, node: u8, places: &mut [Row]) -> Result<usize, Refusal>
    ensures { MatchResult result (λ k. Loaded (state book.old) (state book.new) node k places.old places.new) (λ _. Unloaded (state book.old) (state book.new) places.old places.new) }
{
    let slip = book.issue(node)?;
    match book.read(slip, places) {
        Ok((count, read)) => match book.hand_back_loaded(read) {
            Ok(()) => Ok(count),
            Err(_) => unreachable(),
        },
        Err((refusal, unread)) => match book.hand_back_returned(unread) {
            Ok(()) => Err(refusal),
            Err(_) => unreachable(),
        },
    }
}
