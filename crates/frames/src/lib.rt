//! The frames of a plan file, the order in which they may come, and the reading of a file. docs/FORMATS.md lays the file down.
#![tactic(auto)]

pub mod read;

ghost use Rattle.std.specs.Prelude.{◌≡◌};
ghost use Rattle.frames.specs.declared.FrameFault.TheVariants.{Line};
ghost use Rattle.frames.specs.Frames.{after};

use lines::LineFault;
use ring::{Demand, Row};

/// What a ring frame says: of which book the plan is, and how many nodes its ring has.
#[derive(Clone, Copy, PartialEq, Eq, Debug)]
pub struct Heading {
    pub number: u16,
    pub nodes: u8,
}

/// What an end frame says: how many demand frames and unit frames came before, and the slot count.
#[derive(Clone, Copy, PartialEq, Eq, Debug)]
pub struct Totals {
    pub demands: u16,
    pub units: u16,
    pub slots: u16,
}

/// What a line of a plan file says.
#[derive(Clone, Copy, PartialEq, Eq, Debug)]
pub enum Frame {
    RingFrame(Heading),
    DemandFrame(Demand),
    /// One row of the plan.
    UnitFrame(Row),
    EndFrame(Totals),
}

/// What is wrong with a line, or with its frame's place in the file.
#[derive(Clone, Copy, PartialEq, Eq, Debug)]
pub enum FrameFault {
    /// Cause 16: the line is not as laid down.
    Line(LineFault),
    /// Cause 17: the kind is unknown, or the frame has another length than its kind.
    Form { line: usize },
    /// Cause 18: the frame may not come here, or the text stops before its end frame.
    Order { line: usize },
    /// Cause 15: the caller has no place for the frame; `needed` is the frame's place among its kind.
    TooFew { needed: usize, line: usize },
}

impl From<LineFault> for FrameFault {
    ghost from_gives = { λ e r. r ≡ Line e };

    fn from(e: LineFault) -> FrameFault {
        FrameFault::Line(e)
    }
}

/// Where a reader stands, which says what may come next, and what it was told on the way there.
#[derive(Clone, Copy, PartialEq, Eq, Debug)]
pub enum State {
    /// Before the ring frame.
    Start,
    /// After the ring frame or a demand frame.
    Demands(Heading),
    /// After a unit frame.
    Units(Heading),
    /// After the end frame.
    Done(Heading, Totals),
}

impl State {
    /// The state after a frame, or none where the frame may not come in this one.
    pub fn next_state(self, frame: Frame) -> Option<State>
        ensures { result ≡ after self frame }
    {
        match (self, frame) {
            (State::Start, Frame::RingFrame(heading)) => Some(State::Demands(heading)),
            (State::Demands(heading), Frame::DemandFrame(_)) => Some(State::Demands(heading)),
            (State::Demands(heading), Frame::UnitFrame(_)) => Some(State::Units(heading)),
            (State::Demands(heading), Frame::EndFrame(totals)) => Some(State::Done(
                heading, totals,
            )),
            (State::Units(heading), Frame::UnitFrame(_)) => Some(State::Units(heading)),
            (State::Units(heading), Frame::EndFrame(totals)) => Some(State::Done(heading, totals)),
            _ => None,
        }
    }
}

/// What a reader knows: where it stands, and how many demands and units came.
#[derive(Clone, Copy, PartialEq, Eq, Debug)]
pub struct Progress {
    pub state: State,
    pub demands: usize,
    pub units: usize,
}

/// What a whole file says besides its demands and rows: its ring frame, how many demands and units came, and its end frame.
#[derive(Clone, Copy, PartialEq, Eq, Debug)]
pub struct Contents {
    pub heading: Heading,
    pub demands: usize,
    pub units: usize,
    pub totals: Totals,
}
