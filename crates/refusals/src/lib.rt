//! Why a call is refused. One enum has every cause of every call, with the values that are returned with it.
#![tactic(auto)]

ghost use Rattle.std.specs.Prelude.{◌≡◌, Some};
ghost use Rattle.refusals.specs.Refusals.{cause_words, refusal_number, refusal_values};

use std::{error, fmt};

/// The cause of a refusal. Lines, rows and characters count from 1. A place is the demand line in the checker, and 0 in calls on a book.
/// docs/REFUSALS.md has the table.
#[derive(Clone, Copy, PartialEq, Eq, Debug)]
pub enum Refusal {
    /// 1: the ring size is not 3 to 16.
    RingSize,
    /// 2: the book is planned.
    Planned,
    /// 3: the book has no plan.
    Unplanned,
    /// 4: an end or a node is not 1 to n.
    EndOutside { place: usize },
    /// 5: the lower end is not below the upper one.
    EndsFalling { place: usize },
    /// 6: the units are not 1 to 48.
    UnitsOutside { place: usize },
    /// 7: the demand number is 0 or present already.
    NumberTaken { place: usize },
    /// 8: the demand number is not present.
    NumberUnknown,
    /// 9: there are 128 demands already.
    BookFull { place: usize },
    /// 10: the units of all demands would pass 1,024.
    UnitsPast { place: usize },
    /// 11: a node is marked out.
    NodesOut,
    /// 12: this node is out already.
    NodeOut,
    /// 13: 65,535 slips have been issued.
    SlipsSpent,
    /// 14: the slip has another book number, or its node is not out. The slip itself comes back beside the refusal.
    SlipUnknown,
    /// 15: the sheet, the rows, the lines or the bytes are too few.
    TooFew { needed: usize },
    /// 16: a line of a text is not as laid down.
    LineForm { line: usize, character: usize },
    /// 17: a frame's kind or length.
    FrameForm { line: usize },
    /// 18: the order of frames, or text after the end.
    FrameOrder { line: usize },
    /// 19: the end frame's figures are wrong.
    FiguresWrong { line: usize },
    /// 20: a row of a demand that is not there.
    DemandUnknown { row: usize },
    /// 21: a side is not 0 or 1, or unlike that of the demand's first row.
    SideWrong { row: usize },
    /// 22: a slot is not 1 to 1,024.
    SlotOutside { row: usize },
    /// 23: a row meets an earlier one in its slot on a link; the earliest such row is named too.
    Collision { row: usize, met: usize },
    /// 24: a demand has not as many rows as units.
    CountWrong { line: usize },
    /// 25: the weight of a link is 0.
    NoWeight { link: u8 },
    /// 26: the link to shut is not 1 to 16.
    NoLink,
}

impl Refusal {
    /// The number of the cause.
    // Kept: `From<Refusal> for u8` would be the same table, and `u8::from(refusal)` would not say which number it is: line, row or cause.
    pub fn number(self) -> u8
        ensures { result ≡ refusal_number self }
    {
        match self {
            Refusal::RingSize => 1,
            Refusal::Planned => 2,
            Refusal::Unplanned => 3,
            Refusal::EndOutside { .. } => 4,
            Refusal::EndsFalling { .. } => 5,
            Refusal::UnitsOutside { .. } => 6,
            Refusal::NumberTaken { .. } => 7,
            Refusal::NumberUnknown => 8,
            Refusal::BookFull { .. } => 9,
            Refusal::UnitsPast { .. } => 10,
            Refusal::NodesOut => 11,
            Refusal::NodeOut => 12,
            Refusal::SlipsSpent => 13,
            Refusal::SlipUnknown => 14,
            Refusal::TooFew { .. } => 15,
            Refusal::LineForm { .. } => 16,
            Refusal::FrameForm { .. } => 17,
            Refusal::FrameOrder { .. } => 18,
            Refusal::FiguresWrong { .. } => 19,
            Refusal::DemandUnknown { .. } => 20,
            Refusal::SideWrong { .. } => 21,
            Refusal::SlotOutside { .. } => 22,
            Refusal::Collision { .. } => 23,
            Refusal::CountWrong { .. } => 24,
            Refusal::NoWeight { .. } => 25,
            Refusal::NoLink => 26,
        }
    }

    /// The values that are returned with the cause, in their order.
    pub fn values(self) -> (Option<usize>, Option<usize>)
        ensures { result ≡ refusal_values self }
    {
        match self {
            Refusal::EndOutside { place: at }
            | Refusal::EndsFalling { place: at }
            | Refusal::UnitsOutside { place: at }
            | Refusal::NumberTaken { place: at }
            | Refusal::BookFull { place: at }
            | Refusal::UnitsPast { place: at }
            | Refusal::TooFew { needed: at }
            | Refusal::FrameForm { line: at }
            | Refusal::FrameOrder { line: at }
            | Refusal::FiguresWrong { line: at }
            | Refusal::DemandUnknown { row: at }
            | Refusal::SideWrong { row: at }
            | Refusal::SlotOutside { row: at }
            | Refusal::CountWrong { line: at } => (Some(at), None),
            Refusal::LineForm { line, character } => (Some(line), Some(character)),
            Refusal::Collision { row, met } => (Some(row), Some(met)),
            Refusal::NoWeight { link } => (Some(usize::from(link)), None),
            Refusal::RingSize
            | Refusal::Planned
            | Refusal::Unplanned
            | Refusal::NumberUnknown
            | Refusal::NodesOut
            | Refusal::NodeOut
            | Refusal::SlipsSpent
            | Refusal::SlipUnknown
            | Refusal::NoLink => (None, None),
        }
    }

    /// The cause in plain words. They are there without asking for memory.
    pub fn words(self) -> &'static str
        ensures { result.now ≡ cause_words self }
    {
        match self {
            Refusal::RingSize => "the ring size is not 3 to 16",
            Refusal::Planned => "the book is planned",
            Refusal::Unplanned => "the book has no plan",
            Refusal::EndOutside { .. } => "an end or a node is not on the ring",
            Refusal::EndsFalling { .. } => "the lower end is not below the upper one",
            Refusal::UnitsOutside { .. } => "the units are not 1 to 48",
            Refusal::NumberTaken { .. } => "the demand number is 0 or present already",
            Refusal::NumberUnknown => "the demand number is not present",
            Refusal::BookFull { .. } => "there are more than 128 demands",
            Refusal::UnitsPast { .. } => "there are more than 1024 units",
            Refusal::NodesOut => "a node is marked out",
            Refusal::NodeOut => "this node is out already",
            Refusal::SlipsSpent => "65535 slips have been issued",
            Refusal::SlipUnknown => "the slip is of another book or its node is not out",
            Refusal::TooFew { .. } => "there is not room enough",
            Refusal::LineForm { .. } =>
                "the line is not pairs of lower-case hexadecimal digits and a line feed",
            Refusal::FrameForm { .. } => "no frame has this kind and length",
            Refusal::FrameOrder { .. } => "the frame may not come here or the text stops early",
            Refusal::FiguresWrong { .. } => "the figures of the end frame are wrong",
            Refusal::DemandUnknown { .. } => "the row is of no demand",
            Refusal::SideWrong { .. } =>
                "the side is not 0 or 1 or unlike that of the demand's first row",
            Refusal::SlotOutside { .. } => "the slot is not 1 to 1024",
            Refusal::Collision { .. } => "the row shares a slot and a link with an earlier one",
            Refusal::CountWrong { .. } => "the demand has not as many rows as units",
            Refusal::NoWeight { .. } => "the weight of a link is 0",
            Refusal::NoLink => "the link to shut is not 1 to 16",
        }
    }
}

impl fmt::Display for Refusal {
    ghost output = { λ refusal. Some (cause_words refusal) };

    /// Writes the cause in plain words.
    fn fmt<W: fmt::Write>(&self, f: &mut fmt::Formatter<W>) -> fmt::Result {
        f.write_str(self.words())
    }
}

impl error::Error for Refusal {}
