ghost use Rattle.std.specs.Prelude.{◌≡◌, MatchOption};
ghost use Rattle.answers.specs.Numbers.{stage_number, NoStage};

/// Where a working client stands: SPECIFICATION, section 4, each with its number there.
#[derive(Clone, Copy, Debug, PartialEq, Eq)]
pub enum Stage {
    LookUp = 1,
    PinFound = 2,
    RaiseFound = 3,
    TakeFrame = 4,
    ReadFree = 5,
    LowerFree = 6,
    ReadHand = 7,
    FillSlot = 8,
    MoveHand = 9,
    StartSweep = 10,
    LookAtSlot = 11,
    ReadPins = 12,
    LowerCount = 13,
    EvictVictim = 14,
    ReplaceVictim = 15,
    PassSlot = 16,
    RemoveEntry = 17,
    MapPage = 18,
    PinMapped = 19,
    GiveUpToJoin = 20,
    RaiseJoined = 21,
    MapAnew = 22,
    GiveUpToStartAnew = 23,
}

impl Stage {
    /// SPECIFICATION 3.6.
    pub fn number(self) -> u8
        ensures { result ≡ stage_number self }
    {
        self as u8
    }

    /// The stage with a number.
    pub fn at(number: u8) -> Option<Stage>
        ensures { MatchOption result (NoStage number) (λ stage. stage_number stage ≡ number) }
    {
        Some(match number {
            1 => Stage::LookUp,
            2 => Stage::PinFound,
            3 => Stage::RaiseFound,
            4 => Stage::TakeFrame,
            5 => Stage::ReadFree,
            6 => Stage::LowerFree,
            7 => Stage::ReadHand,
            8 => Stage::FillSlot,
            9 => Stage::MoveHand,
            10 => Stage::StartSweep,
            11 => Stage::LookAtSlot,
            12 => Stage::ReadPins,
            13 => Stage::LowerCount,
            14 => Stage::EvictVictim,
            15 => Stage::ReplaceVictim,
            16 => Stage::PassSlot,
            17 => Stage::RemoveEntry,
            18 => Stage::MapPage,
            19 => Stage::PinMapped,
            20 => Stage::GiveUpToJoin,
            21 => Stage::RaiseJoined,
            22 => Stage::MapAnew,
            23 => Stage::GiveUpToStartAnew,
            _ => return None,
        })
    }
}
