// The failures that end a session without its being done, each with its number (document 01, 'Who brings a number about'; 33: document 02, Five).
#![tactic(auto)]

ghost use Rattle.std.specs.Prelude.{◌≡◌};
ghost use Rattle.failures.specs.Failures.{failure_number};

// Why a session ends without being done. 16 to 25 are the board's, the others the line's.
#[derive(Clone, Copy, PartialEq, Eq)]
pub enum Failure {
    Idcode = 16,
    TestMode = 17,
    PollLimit = 18,
    CallFailed = 19,
    SiliconId = 20,
    Level = 21,
    Flash = 22,
    Locks = 23,
    StoredLevel = 24,
    Sum = 25,
    ThirtyAttempts = 26,
    SeventeenWaits = 27,
    Fault = 28,
    Silence = 29,
    Parity = 30,
    Noise = 33,
}

impl Failure {
    // The number in the report.
    pub fn number(self) -> u8
        ensures number { result ≡ failure_number self }
    {
        self as u8
    }
}
