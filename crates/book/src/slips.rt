//! Slips: the right to load one node.

ghost use Rattle.std.specs.Prelude.{◌≡◌};
ghost use Rattle.book.specs.Slips.{IsSpent};

use booklaw::Stage;

/// A slip for a node of a book. Its end asks for a proof that it was handed back, so a program that lets one go unspent is not built.
pub struct Slip {
    pub(crate) book: u16,
    pub(crate) node: u8,
    // Kept: the stage is a field and no type of its own, since the prover has to refuse a loader that reports an unread slip as loaded (an edit of the crate `loader`);
    // with a type for each stage, its types would be refused before any proof.
    pub(crate) stage: Stage,
}

impl Drop for Slip {
    fn drop(self)
        requires { IsSpent self }
    {
        let Slip {
            book: _,
            node: _,
            stage: _,
        } = self;
    }
}

impl Slip {
    /// The number of the book that issued it.
    pub fn book(&self) -> u16
        ensures { result ≡ self.now.book }
    {
        self.book
    }

    /// The node that it is for.
    pub fn node(&self) -> u8
        ensures { result ≡ self.now.node }
    {
        self.node
    }
}

/// Lets a slip go that was handed back.
pub(crate) fn spend(slip: Slip) {
    let mut done = slip;
    done.stage = Stage::Spent;
}
