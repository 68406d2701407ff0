// Document 01, Causes and answers: each row with its number. An answer that refuses nothing has number 0.
ghost use Rattle.std.specs.Prelude.{◌≡◌};

#[derive(Clone, Copy, PartialEq, Eq)]
pub enum Refusal {
    Revision = 1,
    UnknownFeature = 2,
    NoSide = 3,
    AutoWithoutBothSides = 4,
    AttributeMissing = 5,
    AttributeWithoutFeature = 6,
    LimitsIncomplete = 7,
    LimitsWithoutSide = 8,
    LimitsOfOneSide = 9,
    RunningModeWithoutAuto = 10,
    EventUnknown = 11,
    EventWithoutFeature = 12,
    EventNotApplicable = 13,
    EventMissing = 14,
    NegativeDelta = 15,
    NoRaiseLower = 16,
    HeatRangeEmpty = 17,
    CoolRangeEmpty = 18,
    NegativeDeadBand = 19,
    AbsLimitsTooClose = 20,
    SequenceMismatch = 21,
    OutsideRule = 22,
    AbsentSide = 23,
    UnservedAttribute = 24,
    UnknownRaiseLowerMode = 25,
    UnsupportedMode = 26,
    ClockTooLate = 27,
    UnsoundRecord = 28,
    // C-15.
    HourOutsideWeek = 32,
}

impl From<Refusal> for u8 {
    ghost use Rattle.records.specs.Refusals.{number};

    ghost from_gives = { λ r n. n ≡ number r };

    #[tactic(auto, unfolding(crate::specs::Refusals::number))]
    fn from(r: Refusal) -> u8 {
        r as u8
    }
}
