// What calls do to the lent memory, as acts to be performed (document 01, 'The plain board').
#![tactic(auto)]

ghost use Rattle.std.specs.Prelude.{◌&&◌, cond, ◌≡◌, ◌+◌, ◌%◌, ◌<◌, eqb, get_or, take, drop};
ghost use Rattle.bench_effects.specs.Acts.{call_inputs, Effects, Protects};
ghost use Rattle.flow.specs.Calls.{level_sent, macro_sent, list_at, bytes_in};

use parts::{Geometry, Level, PARAMS};

// What a request does to the lent memory.
#[derive(Clone, Copy)]
pub enum Act {
    Keep,
    // A word of PARAMS.
    PutWord { place: usize, word: u32 },
    // What a failed call leaves in flash, locks and latch.
    PutResidue,
    Erase,
    // So many bytes of the list, from the latch's byte 0 on.
    FillLatch(usize),
    // The latch, from this byte of the flash on.
    ProgramRow(usize),
    // So many bytes of the latch, from this byte of the locks on.
    WriteLocks { start: usize, count: usize },
}

// What a successful call does to the memory, and the level stored after it.
// Kept: what may not change: a stored level is any number below 16 here, as `memory_of` holds it, and Level::Unknown has no way back.
#[derive(Clone, Copy)]
pub struct Effect {
    pub act: Act,
    pub stored: u8,
}

// A word of PARAMS, and 0 past its end.
pub fn word_of(params: &[u32], k: usize) -> u32
    ensures word { result ≡ get_or params.now k 0 }
{
    params.get(k).copied().unwrap_or(0)
}

// The level and the macro that 0x0D is given; the level may be any low digit, which is stored as it is.
// Kept: no plainer: `bounded` is said of a result alone, since the level of a board's bytes may be any byte.
fn level_sent(word: u32) -> u8
    ensures { (result ≡ level_sent word) × (result < 16) }
{
    let [_, _, level, _] = word.to_le_bytes();
    level % 16
}

fn macro_sent(word: u32) -> u8
    ensures { result ≡ macro_sent word }
{
    let [.., top] = word.to_le_bytes();
    top
}

// Whether a failed call stores the level sent: 0x0D on macro 0, where the outcome says so.
fn stores_level(new_level: bool, number: u8, c: u8) -> bool
    ensures { result ≡ (new_level && eqb c 0x0D && eqb number 0) }
{
    new_level && c == 0x0D && number == 0
}

// The level stored after a call that failed.
pub fn level_left(sysarg: u32, stored: u8, new_level: bool, c: u8) -> u8
    ensures level { result ≡ cond (new_level && eqb c 0x0D && eqb (macro_sent sysarg) 0) (level_sent sysarg) (stored % 16) }
    ensures bounded { result < 16 }
{
    if stores_level(new_level, macro_sent(sysarg), c) {
        level_sent(sysarg)
    } else {
        stored % 16
    }
}

// A word of the list that a call was given.
fn list_word(sysarg: u32, params: &[u32], k: usize) -> u32
    ensures { result ≡ get_or (list_at sysarg params.now) k 0 }
{
    if sysarg == PARAMS {
        word_of(params, k)
    } else {
        0
    }
}

// How many bytes of PARAMS, past its second word, call 4 puts into the latch.
fn latch_count(sysarg: u32, params: &[u32]) -> usize
    ensures { take result (bytes_in (drop 2 params.now)) ≡ take (get_or (list_at sysarg params.now) 1 0 + 1) (bytes_in (drop 2 (list_at sysarg params.now))) }
{
    if sysarg == PARAMS {
        word_of(params, 1) as usize + 1
    } else {
        0
    }
}

// The level stored after 0x0D: on macro 0 only, the one sent.
fn level_after(number: u8, sent: u8, stored: u8) -> u8
    ensures { result ≡ cond (eqb number 0) sent stored }
{
    if number == 0 { sent } else { stored }
}

// Whether 0x0D opens a board that is PROTECTED.
fn reopens(effect: u8, sent: u8) -> bool
    ensures { result ≡ (eqb effect 2 && eqb sent 1) }
{
    matches!(parts::read_level(effect), Level::Protected)
        && matches!(parts::read_level(sent), Level::Open)
}

// Call 0x0D: the macro's locks, and on macro 0 the level; with PROTECTED in effect and OPEN sent it erases.
fn protect(g: Geometry, effect: u8, sysarg: u32, stored: u8) -> Effect
    ensures protects { Protects g effect sysarg stored result }
    ensures bounded { result.stored < 16 }
{
    let level = level_sent(sysarg);
    let number = macro_sent(sysarg);
    if reopens(effect, level) {
        return Effect {
            act: Act::Erase,
            stored: 1,
        };
    }
    let at = u32::from(number);
    Effect {
        act: Act::WriteLocks {
            start: parts::lock_start(g, at),
            count: parts::locks_in(g, at),
        },
        stored: level_after(number, level, stored % 16),
    }
}

// What a successful call does to the memory.
pub fn effect_of(g: Geometry, effect: u8, sysarg: u32, stored: u8, params: &[u32], c: u8) -> Effect
    ensures effects { Effects g (call_inputs effect sysarg stored params.now) c result }
    ensures bounded { result.stored < 16 }
{
    let stored = stored % 16;
    match c {
        0x0A => Effect {
            act: Act::Erase,
            stored,
        },
        4 => Effect {
            act: Act::FillLatch(latch_count(sysarg, params)),
            stored,
        },
        6 => {
            let row = (list_word(sysarg, params, 0) / 0x10000) as usize;
            Effect {
                act: Act::ProgramRow(row * usize::from(g.part.row_bytes)),
                stored,
            }
        }
        0x0D => protect(g, effect, sysarg, stored),
        _ => Effect {
            act: Act::Keep,
            stored,
        },
    }
}
