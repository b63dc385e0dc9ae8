// The latch call for some bytes: its list, and its moves.
ghost use Rattle.std.specs.Prelude.{◌≡◌, ◌+◌, ◌*◌, ◌/◌, ◌≤◌, ◌<◌, ◌&&◌, false, leb, length, get_or, MatchOption};
ghost use Rattle.call_moves.specs.MoveAt.{MoveAt};
ghost use Rattle.flow.specs.Sequence.{listed, latch_list};

use call_moves::{call_move, end_move, key_of};
use flow::{Move, Purpose, Request};
use parts::PARAMS;

// The bytes that a latch call is for, with their macro: a list can be of 1 to 1024 bytes.
#[derive(Clone, Copy)]
pub(crate) struct Latch<'a> {
    bytes: &'a [u8],
    m: u8,
    ghost some: { 1 ≤ length bytes.now },
    ghost few: { length bytes.now ≤ 1024 },
}

impl<'a> Latch<'a> {
    pub(crate) fn new(bytes: &'a [u8], m: u8) -> Option<Latch<'a>>
        ensures { MatchOption result ((leb 1 (length bytes.now) && leb (length bytes.now) 1024) ≡ false) (λ l. (l.bytes.now ≡ bytes.now) × (l.m ≡ m)) }
    {
        if (1..=1024).contains(&bytes.len()) {
            Some(Latch { bytes, m })
        } else {
            None
        }
    }

    // How many moves it has.
    pub(crate) fn move_count(&self) -> u32
        ensures { result ≡ 2 * (length self.now.bytes.now / 4) + 14 }
    {
        2 * (self.bytes.len() / 4) as u32 + 14
    }

    // A word of its list: the key, the number of bytes less one, the bytes' words.
    #[tactic(auto, using(crate::proofs::Words::list_word))]
    fn word(&self, i: u32) -> u32
        requires { i < length self.now.bytes.now / 4 + 2 }
        ensures { result ≡ get_or (latch_list self.now.m (length self.now.bytes.now) self.now.bytes.now 0) i 0 }
    {
        match i {
            0 => key_of(4) + u32::from(self.m) * 0x1000000,
            1 => (self.bytes.len() - 1) as u32,
            _ => lent::word_at(self.bytes, 4 * (i - 2) as usize),
        }
    }

    // The move at an index of it.
    #[tactic(auto, using(crate::proofs::Words::latched_moves))]
    pub(crate) fn move_at(&self, sysreq: u32, step: u8, j: u32) -> Move
        ensures { MoveAt sysreq (λ g. listed g step 4 (latch_list self.now.m (length self.now.bytes.now) self.now.bytes.now 0)) j result }
    {
        let n = 2 * (self.bytes.len() / 4) as u32 + 4;
        if n <= j {
            return call_move(sysreq, step, 4, PARAMS, j - n);
        }
        if 0x7FFFFFFF < sysreq {
            return end_move();
        }
        let i = j / 2;
        let request = if j % 2 == 0 {
            Request::WriteTar(PARAMS + 4 * i)
        } else {
            Request::WriteDrw(self.word(i))
        };
        Move {
            step,
            request,
            purpose: Purpose::Sent,
        }
    }
}
