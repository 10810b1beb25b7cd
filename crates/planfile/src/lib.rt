//! Plan files: taking one from elsewhere, with the check of its plan, and writing one. docs/FORMATS.md lays the file down.
#![tactic(auto)]

pub mod take;
pub mod write;

ghost use Rattle.std.specs.Prelude.{◌≡◌};
ghost use Rattle.planfile.specs.declared.PlanFault.TheVariants.{OfFrame};
ghost use Rattle.planfile.specs.Faults.{cause_of, line_of_fault};

use frames::FrameFault;
use lines::LineFault;
use ring::{Figures, Refusal};

/// Why a plan file is refused.
#[derive(Clone, Copy, PartialEq, Eq, Debug)]
pub enum PlanFault {
    /// The file cannot be read: a fault of a line, of a frame or of the order, or a place too few.
    OfFrame(FrameFault),
    /// The checker refuses the plan, for something in the frame on this line.
    Refused { line: usize, refusal: Refusal },
    /// Cause 19: the figures of the end frame, on this line, are wrong.
    Figures { line: usize },
}

impl From<FrameFault> for PlanFault {
    ghost from_gives = { λ e r. r ≡ OfFrame e };

    fn from(e: FrameFault) -> PlanFault {
        PlanFault::OfFrame(e)
    }
}

impl From<PlanFault> for Refusal {
    ghost from_gives = { λ fault r. r ≡ cause_of fault };

    /// The cause, as every call of the library has it.
    fn from(fault: PlanFault) -> Refusal {
        match fault {
            PlanFault::OfFrame(FrameFault::Line(LineFault { line, character })) => {
                Refusal::LineForm { line, character }
            }
            PlanFault::OfFrame(FrameFault::Form { line }) => Refusal::FrameForm { line },
            PlanFault::OfFrame(FrameFault::Order { line }) => Refusal::FrameOrder { line },
            PlanFault::OfFrame(FrameFault::TooFew { needed, .. }) => Refusal::TooFew { needed },
            PlanFault::Refused { refusal, .. } => refusal,
            PlanFault::Figures { line } => Refusal::FiguresWrong { line },
        }
    }
}

impl PlanFault {
    /// The line of the text that the fault is of, counted from 1: what `lines::fault_line` shows.
    pub fn line(self) -> usize
        ensures { result ≡ line_of_fault self }
    {
        match self {
            PlanFault::OfFrame(FrameFault::Line(LineFault { line, .. }))
            | PlanFault::OfFrame(FrameFault::Form { line })
            | PlanFault::OfFrame(FrameFault::Order { line })
            | PlanFault::OfFrame(FrameFault::TooFew { line, .. })
            | PlanFault::Refused { line, .. }
            | PlanFault::Figures { line } => line,
        }
    }
}

/// What a plan file says: the number of its book, the size of its ring, how many demands and units it has, and the figures by which the checker passed it.
#[derive(Clone, Copy, PartialEq, Eq, Debug)]
pub struct Taken {
    pub number: u16,
    pub nodes: u8,
    pub demands: usize,
    pub units: usize,
    pub verdict: Figures,
}
