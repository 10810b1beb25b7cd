//! The first best of some candidates, written once for every kind of candidate.

ghost use Rattle.std.specs.Prelude.{◌≡◌, length, MatchOption};
ghost use Rattle.std.specs.Iterator.{IsFinite};
ghost use Rattle.std.specs.Iterator.Runs.{WholeRun};
ghost use Rattle.ring.specs.Choosing.{kept, FirstBest, IsFirstBestOf, FirstLeast, FirstMost};

/// A candidate kept together with its measure, by which it is better or worse than others.
#[derive(Clone, Copy, Debug, Drop)]
pub struct Best<C, M> {
    pub candidate: C,
    pub measure: M,
}

/// The better of the best so far and the next candidate: the earlier one, unless the measure of the next comes first in the order.
pub fn keep_first_best<C: Drop, M: Ord + Drop>(
    so_far: Option<Best<C, M>>,
    next: Best<C, M>,
) -> Option<Best<C, M>>
    ensures { result ≡ kept M.Ord.cmp so_far next }
{
    match so_far {
        None => Some(next),
        Some(best) if next.measure < best.measure => Some(next),
        Some(best) => Some(best),
    }
}

/// The first candidate that no other beats, where one beats another if its measure comes first in the order; none of no candidates.
/// For the greatest measure, measure by `Reverse`.
/// It answers the candidate where it stands in the slice, so neither candidates nor measures are copied or let go.
pub fn first_best<C, M: Ord>(all: &[Best<C, M>]) -> Option<&Best<C, M>>
    ensures { MatchOption result (length all.now ≡ 0) (λ x. FirstBest M.Ord.cmp all.now x.now) }
{
    first_best_of(
        all.iter().map(|one| Best {
            candidate: one,
            measure: &one.measure,
        }),
    )
    .map(|best| best.candidate)
}

/// The same of candidates that come one after another, wherever they come from: it takes them, keeps the best so far and lets go the others.
pub fn first_best_of<C: Drop, M: Ord + Drop, I: Iterator<Item = Best<C, M>>>(
    all: I,
) -> Option<Best<C, M>>
    requires can { I.can_next all }
    requires ends { IsFinite (I.remaining all) }
    ensures { WholeRun I.next_gives all (λ p. IsFirstBestOf M.Ord.cmp p.items result) }
{
    all.fold(None, keep_first_best)
}

/// What the first of some numbers at which a figure is least, or greatest, means in other words.
pub fn first_means()
    ensures least { FirstLeast }
    ensures most { FirstMost }
{}
