// The bench board and its answer put into a caller's bytes.
// Kept: the C interface: the places are those of include/halzuqeen_bench.h.
ghost use Rattle.std.specs.Prelude.{[], ◌∷◌, ◌≡◌, ◌+◌, ◌≤◌, length};
ghost use Rattle.std.proofs.lemmas.List.Edits.{sets};
ghost use Rattle.bench_calls.specs.Board.{ResidueBytes, running_of};
ghost use Rattle.bench_c.specs.BoardBytes.{silicon_bytes, running_bytes, words_bytes, reply_bytes, answer_bytes, used_of, RunningPut, BoardPut};
ghost use Rattle.lent.specs.Words.{low_first};

use bench_calls::{Call, Registers};
use flow::{Answer, Reply, Silicon};
use layout::put_word;

// Puts two bytes.
fn put_pair(bytes: &mut [u8], at: usize, first: u8, second: u8)
    requires { at + 2 ≤ length bytes.old }
    ensures { bytes.new ≡ sets bytes.old at (first ∷ second ∷ []) }
{
    bytes[at] = first;
    bytes[at + 1] = second;
}

// Puts a byte and a word.
fn put_flagged(bytes: &mut [u8], at: usize, flag: u8, word: u32)
    requires { at + 5 ≤ length bytes.old }
    ensures { bytes.new ≡ sets bytes.old at (flag ∷ low_first 4 word) }
{
    bytes[at] = flag;
    put_word(bytes, at + 1, word);
}

fn put_silicon(bytes: &mut [u8; 46], s: Silicon)
    ensures { bytes.new ≡ sets bytes.old 0 (silicon_bytes s) }
{
    put_word(bytes, 0, s.idcode);
    put_pair(bytes, 4, s.high, s.low);
    put_pair(bytes, 6, s.revision, s.family);
    put_word(bytes, 8, s.privileged_sum);
}

fn put_words(bytes: &mut [u8; 46], r: Registers)
    ensures { bytes.new ≡ sets bytes.old 14 (words_bytes r.sysarg r.sysreq r.test_mode r.tar r.posted) }
{
    put_word(bytes, 14, r.sysarg);
    put_word(bytes, 18, r.sysreq);
    put_word(bytes, 22, r.test_mode);
    put_word(bytes, 26, r.tar);
    put_word(bytes, 30, r.posted);
}

// What is under way, as bytes; what a failure would leave in the memory is lent at every call, and not put.
fn running_bytes(running: Option<Call>) -> [u8; 12]
    ensures { (x : ResidueBytes) → result ≡ running_bytes (running_of x running) }
{
    match running {
        None => [0; 12],
        Some(Call { outcome, number }) => {
            let [a, b, c, d] = outcome.busy_reads.to_le_bytes();
            let [e, f, g, h] = outcome.sysarg.to_le_bytes();
            let succeeds = u8::from(outcome.succeeds);
            let level = u8::from(outcome.new_level);
            [1, a, b, c, d, succeeds, e, f, g, h, level, number]
        }
    }
}

// Puts it, the last bytes of a board's.
fn put_running(bytes: &mut [u8; 46], running: Option<Call>)
    ensures { RunningPut bytes.old running bytes.new }
{
    bytes[34..].copy_from_slice(&running_bytes(running));
}

// The bytes that hold a board's registers.
pub(crate) fn board_bytes(r: Registers) -> [u8; 46]
    ensures { BoardPut r result }
{
    let mut bytes = [0; 46];
    put_silicon(&mut bytes, r.silicon);
    put_pair(&mut bytes, 12, r.stored % 16, r.effect);
    put_words(&mut bytes, r);
    put_running(&mut bytes, r.running);
    bytes
}

// The bytes that hold an answer, and what was used for it.
pub(crate) fn answer_bytes(a: Answer, line: bool, call: bool) -> [u8; 8]
    ensures { result ≡ answer_bytes a (used_of line call) }
{
    let used = u8::from(line) + 2 * u8::from(call);
    match a {
        Answer::ResetDone => [1, 0, 0, used, 0, 0, 0, 0],
        Answer::Transferred(Reply { ack, word, parity }) => {
            let [a, b, c, d] = word.to_le_bytes();
            [0, ack, parity, used, a, b, c, d]
        }
    }
}
