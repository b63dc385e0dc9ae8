// The refusals of the calls, each with its number (document 01, 'Who brings a number about').
#![tactic(auto)]

ghost use Rattle.std.specs.Prelude.{◌≡◌};
ghost use Rattle.refusals.specs.Refusals.{refusal_number};

// Why a call is refused. 1 to 10 are the file's, 11 to 15 the host's.
#[derive(Clone, Copy, PartialEq, Eq)]
pub enum Refusal {
    LineForm = 1,
    RecordSum = 2,
    RecordType = 3,
    DataPlace = 4,
    EndRecord = 5,
    Version = 6,
    ImageId = 7,
    Level = 8,
    FlashSum = 9,
    CancellingRow = 10,
    PartOrMacros = 11,
    Size = 12,
    ImpossibleSession = 13,
    WrongAnswer = 14,
    KillWithoutLeave = 15,
}

impl Refusal {
    // The number that the paper, a technician and a host know it by.
    pub fn number(self) -> u8
        ensures number { result ≡ refusal_number self }
    {
        self as u8
    }
}
