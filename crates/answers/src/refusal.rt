ghost use Rattle.std.specs.Prelude.{◌≡◌};
ghost use Rattle.pool.specs.declared.Answer.TheVariants.{Refused};
ghost use Rattle.answers.specs.Numbers.{refusal_number};

use pool::Answer;

/// Why a call is refused, or a run ends: SPECIFICATION, section 6, each with its number there.
#[derive(Clone, Copy, Debug, PartialEq, Eq)]
pub enum Refusal {
    TooLong = 1,
    ReportFull = 2,
    Cut = 3,
    NoMark = 4,
    NoSuchKind = 5,
    SetupMisplaced = 6,
    StepNamesPage = 7,
    OutOfRange = 8,
    NoSuchClient = 9,
    AtWork = 10,
    AtRest = 11,
    HasEight = 12,
    NotHeld = 13,
    FewRows = 14,
    AllBusy = 15,
    OutsideStore = 16,
    OutsidePage = 17,
    HeldAlready = 18,
}

impl Refusal {
    pub fn number(self) -> u8
        ensures { result ≡ refusal_number self }
    {
        self as u8
    }
}

impl From<Refusal> for Answer {
    ghost from_gives = { λ r a. a ≡ Refused (refusal_number r) };

    fn from(refusal: Refusal) -> Answer {
        Answer::Refused(refusal.number())
    }
}
