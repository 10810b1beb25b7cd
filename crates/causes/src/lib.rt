//! The causes of refusals in plain words, and what a report says of each beside its number and its line.
#![tactic(auto)]

ghost use Rattle.std.specs.Prelude.{◌≡◌};
ghost use Rattle.refusals.specs.Refusals.{cause_words};
ghost use Rattle.causes.specs.Causes.{detail_of};

use ring::Refusal;

/// The values of a refusal, by what they are. The line of a demand with another number of rows than units is its place.
#[derive(Clone, Copy, Debug, Default)]
pub struct Detail {
    pub character: Option<usize>,
    pub needed: Option<usize>,
    pub place: Option<usize>,
    pub row: Option<usize>,
    pub met: Option<usize>,
}

/// The cause in plain words, as bytes.
pub fn cause_words(refusal: Refusal) -> &'static [u8]
    ensures { result.now ≡ cause_words refusal }
{
    refusal.words().as_bytes()
}

impl From<Refusal> for Detail {
    ghost from_gives = { λ refusal detail. detail ≡ detail_of refusal };

    fn from(refusal: Refusal) -> Detail {
        match refusal {
            Refusal::EndOutside { place }
            | Refusal::EndsFalling { place }
            | Refusal::UnitsOutside { place }
            | Refusal::NumberTaken { place }
            | Refusal::BookFull { place }
            | Refusal::UnitsPast { place }
            | Refusal::CountWrong { line: place } => Detail {
                place: Some(place),
                ..Detail::default()
            },
            Refusal::TooFew { needed } => Detail {
                needed: Some(needed),
                ..Detail::default()
            },
            Refusal::LineForm { character, .. } => Detail {
                character: Some(character),
                ..Detail::default()
            },
            Refusal::DemandUnknown { row }
            | Refusal::SideWrong { row }
            | Refusal::SlotOutside { row } => Detail {
                row: Some(row),
                ..Detail::default()
            },
            Refusal::Collision { row, met } => Detail {
                row: Some(row),
                met: Some(met),
                ..Detail::default()
            },
            _ => Detail::default(),
        }
    }
}
