// The latch call for some bytes, and the call that it is for: a row of step 5, a macro of step 7 (document 01, 'Flow').
#![tactic(auto)]

ghost use Rattle.std.specs.Prelude.{[], ◌∷◌, ◌++◌, ◌+◌, ◌*◌, length};
ghost use Rattle.call_moves.specs.MoveAt.{MoveAt};
ghost use Rattle.flow.specs.Sequence.{key, call, listed, latch_list};
ghost use Rattle.latch_moves.specs.Latched.{latched};

mod latch;

use call_moves::{call_move, end_move, key_of, one_move};
use flow::Move;
use latch::Latch;

// A row of step 5: of 1 to 1024 bytes, or the end move.
#[tactic(auto, using(crate::proofs::Followed::followed))]
pub fn row_move(row: &[u8], sysreq: u32, r: u16, m: u8, j: u32) -> Move
    ensures found { MoveAt sysreq (λ g. latched row.now (listed g 5 4 (latch_list m (length row.now) row.now 0) ++ listed g 5 6 ((key 6 + r * 0x10000) ∷ []))) j result }
{
    let Some(latch) = Latch::new(row, m) else {
        return end_move();
    };
    let n = latch.move_count();
    if j < n {
        latch.move_at(sysreq, 5, j)
    } else {
        one_move(sysreq, 5, 6, key_of(6) + u32::from(r) * 0x10000, j - n)
    }
}

// A macro of step 7: likewise of 1 to 1024 bytes.
#[tactic(auto, using(crate::proofs::Followed::followed))]
pub fn lock_move(locks: &[u8], sysreq: u32, m: u8, level: u8, j: u32) -> Move
    ensures found { MoveAt sysreq (λ g. latched locks.now (listed g 7 4 (latch_list m (length locks.now) locks.now 0) ++ call g 7 0x0D (key 0x0D + level * 0x10000 + m * 0x1000000))) j result }
{
    let Some(latch) = Latch::new(locks, m) else {
        return end_move();
    };
    let n = latch.move_count();
    if j < n {
        latch.move_at(sysreq, 7, j)
    } else {
        let word = key_of(0x0D) + u32::from(level) * 0x10000 + u32::from(m) * 0x1000000;
        call_move(sysreq, 7, 0x0D, word, j - n)
    }
}
