// The lent memory, and what an act leaves there.
#![tactic(auto)]

ghost use Rattle.std.specs.Prelude.{[], ◌∷◌, ◌≡◌, ◌-◌, ◌*◌, min, get_or, take, drop};
ghost use Rattle.std.proofs.lemmas.List.Edits.{sets};
ghost use Rattle.bench_effects.specs.Acts.{buffers_after};
ghost use Rattle.bench_effects.specs.Lent.{lent, residue_bytes};
ghost use Rattle.flow.specs.Calls.{bytes_in};
ghost use Rattle.flow.specs.Target.{sized};
ghost use Rattle.lent.specs.Words.{low_first};

use bench_effects::Act;

// Puts a word into PARAMS, where it has the place.
fn put_word(params: &mut [u32], place: usize, word: u32)
    ensures { params.new ≡ sets params.old place (word ∷ []) }
{
    // Kept: not proved: `params.get_mut(place)`, whose contract does not say what the slice holds after the write.
    if place < params.len() {
        params[place] = word;
    }
}

// Lays the first n bytes of src over dst from `at` on; dst keeps its size.
// Kept: no plainer: n may pass src, and the clause says `take n src`, as the definition of an act does.
fn overlay(dst: &mut [u8], at: usize, src: &[u8], n: usize)
    ensures { dst.new ≡ sets dst.old at (take n src.now) }
{
    if at < dst.len() {
        // By bytes: `copy_from_slice` would have the archive of bench_c need `memmove`.
        for i in 0..n.min(src.len()).min(dst.len() - at) {
            dst[at + i] = src[i];
        }
    }
}

// Makes dst the bytes of src, cut or filled with 0 to dst's size.
fn fit(dst: &mut [u8], src: &[u8])
    ensures { dst.new ≡ sized dst.old src.now }
{
    // By bytes, as in `overlay`.
    let n = src.len().min(dst.len());
    for i in 0..n {
        dst[i] = src[i];
    }
    dst[n..].fill(0);
}

// Fills the latch from byte 0 with n bytes of the list past its second word, the low byte of each word first.
// Kept: no plainer: n is what the call's list says, the length of no buffer that is there.
fn fill_latch(latch: &mut [u8], params: &[u32], n: usize)
    ensures { latch.new ≡ sets latch.old 0 (take n (bytes_in (drop 2 params.now))) }
{
    if let Some(words) = params.get(2..) {
        let end = n.min(latch.len()).min(words.len().saturating_mul(4));
        for i in 0..end {
            latch[i] = words[i / 4].to_le_bytes()[i % 4];
        }
    }
}

// The memory lent to the board.
pub struct Memory<'a> {
    pub flash: &'a mut [u8],
    pub locks: &'a mut [u8],
    pub latch: &'a mut [u8],
    pub params: &'a mut [u32],
}

// What a failed call leaves in the memory, lent beside it.
#[derive(Clone, Copy)]
pub struct Residue<'a> {
    pub flash: &'a [u8],
    pub locks: &'a [u8],
    pub latch: &'a [u8],
}

// What an act leaves in the lent memory.
// Kept: no plainer: a match on a closed enum, a function for each variant.
pub fn perform(act: Act, memory: Memory<'_>, residue: Residue<'_>)
    ensures buffers { lent memory.exit.0.now memory.exit.1.0.now memory.exit.1.1.0.now memory.exit.1.1.1.0.now ≡ buffers_after (residue_bytes residue.entry.flash.now residue.entry.locks.now residue.entry.latch.now) act (lent memory.entry.flash.now memory.entry.locks.now memory.entry.latch.now memory.entry.params.now) }
{
    let Memory {
        flash,
        locks,
        latch,
        params,
    } = memory;
    match act {
        Act::Keep => {}
        Act::PutWord { place, word } => put_word(params, place, word),
        Act::PutResidue => {
            fit(flash, residue.flash);
            fit(locks, residue.locks);
            fit(latch, residue.latch);
        }
        Act::Erase => {
            flash.fill(0);
            locks.fill(0);
        }
        Act::FillLatch(n) => fill_latch(latch, params, n),
        Act::ProgramRow(start) => overlay(flash, start, latch, latch.len()),
        Act::WriteLocks { start, count } => overlay(locks, start, latch, count),
    }
}
