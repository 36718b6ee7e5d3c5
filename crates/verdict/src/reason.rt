// The reasons of a refusal (01 File answers; 02 W4: 14), in the order in which they are tested.
ghost use Rattle.std.specs.Prelude.{◌≡◌, ◌≤◌};
ghost use Rattle.verdict.specs.Answer.{number_of};

#[derive(Clone, Copy, Debug, PartialEq, Eq)]
pub enum Reason {
    Empty,
    Ragged,
    TooLong,
    BookUnsound,
    NoDay,
    Nesting,
    ReportShort,
    LowByte,
    InputSystem,
    Version,
    TrailerDigits,
    RecordCount,
    PaymentCount,
    TotalAmount,
}

impl Reason {
    // Its number in document 01.
    #[tactic(auto, unfolding(crate::specs::Answer::number_of))]
    pub(crate) fn number(self) -> u64
        ensures { (result ≡ number_of self) × (result ≤ 14) }
    {
        match self {
            Reason::Empty => 1,
            Reason::Ragged => 2,
            Reason::TooLong => 3,
            Reason::BookUnsound => 4,
            Reason::Nesting => 5,
            Reason::ReportShort => 6,
            Reason::LowByte => 7,
            Reason::InputSystem => 8,
            Reason::Version => 9,
            Reason::TrailerDigits => 10,
            Reason::RecordCount => 11,
            Reason::PaymentCount => 12,
            Reason::TotalAmount => 13,
            Reason::NoDay => 14,
        }
    }
}
