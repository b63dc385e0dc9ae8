// SYSREQ's address where SYSARG has room behind it, and what is at an index of the calls that are made there: a call, step 1, step 2.
ghost use Rattle.std.specs.Prelude.{◌<◌, ◌≤◌, ◌≡◌, MatchOption};
ghost use Rattle.call_moves.specs.MoveAt.{ReachedAt, Acquired, Attach};
ghost use Rattle.flow.specs.Sequence.{call, imo_call, silicon};

use crate::{end_move, key_of, read_move, sent, write_move};
use flow::{Move, Purpose, Request};
use parts::TEST_MODE;
use wire::Register;

// Step 1 up to CSW.
#[tactic(auto, unfolding(flow::specs::Sequence::acquire))]
fn attach_move(j: u32) -> Move
    requires { j < 6 }
    ensures { Attach j result }
{
    match j {
        0 => sent(1, Request::Xres),
        1 => sent(1, Request::LineReset),
        2 => Move {
            step: 1,
            request: Request::ReadIdcode,
            purpose: Purpose::Idcode,
        },
        3 => sent(1, Request::WriteSetup(Register::CtrlStat, 0x54000000)),
        4 => sent(1, Request::WriteSetup(Register::Select, 0)),
        _ => sent(1, Request::WriteSetup(Register::Csw, 2)),
    }
}

// SYSREQ's address, with room for SYSARG behind it.
#[derive(Clone, Copy)]
pub(crate) struct Sysreq {
    pub(crate) at: u32,
    ghost reached: { at ≤ 0x7FFFFFFF },
}

impl Sysreq {
    pub(crate) fn new(at: u32) -> Option<Sysreq>
        ensures { MatchOption result (0x7FFFFFFF < at) (λ s. s.at ≡ at) }
    {
        if at <= 0x7FFFFFFF {
            Some(Sysreq { at })
        } else {
            None
        }
    }

    // A call.
    #[tactic(auto, using(crate::proofs::Steps::pieces))]
    pub(crate) fn call_move(self, step: u8, c: u8, w: u32, j: u32) -> Move
        ensures { ReachedAt self.at (λ g. call g step c w) j result }
    {
        match j {
            0..=1 => write_move(step, self.at + 4, w, j),
            2..=3 => write_move(step, self.at, 0x80000000 + u32::from(c), j - 2),
            4..=6 => read_move(step, self.at, Purpose::Poll, j - 4),
            _ => read_move(step, self.at + 4, Purpose::Status, j - 7),
        }
    }

    #[tactic(auto, unfolding(flow::specs::Sequence::imo_call))]
    fn imo_move(self, imo: u8, j: u32) -> Move
        ensures { ReachedAt self.at (λ g. imo_call g imo) j result }
    {
        if imo == 0 {
            return end_move();
        }
        self.call_move(1, 0x15, key_of(0x15), j)
    }

    // Step 1.
    #[tactic(auto, using(crate::proofs::Steps::pieces))]
    pub(crate) fn acquire_move(self, imo: u8, j: u32) -> Move
        ensures { Acquired self.at imo j result }
    {
        match j {
            0..=5 => attach_move(j),
            6..=7 => write_move(1, TEST_MODE, 0x80000000, j - 6),
            8..=10 => read_move(1, TEST_MODE, Purpose::TestBit, j - 8),
            11..=13 => read_move(1, self.at, Purpose::Poll, j - 11),
            _ => self.imo_move(imo, j - 14),
        }
    }

    // Step 2.
    #[tactic(auto, using(crate::proofs::Steps::pieces))]
    pub(crate) fn silicon_move(self, p: Purpose, j: u32) -> Move
        ensures { ReachedAt self.at (λ g. silicon g p) j result }
    {
        match j {
            0..=9 => self.call_move(2, 0, key_of(0), j),
            10..=12 => read_move(2, self.at + 4, Purpose::Keep, j - 10),
            _ => read_move(2, self.at, p, j - 13),
        }
    }
}
