// What a DRW read posts and a DRW write alters, by the word at TAR (document 01, 'The plain board').
ghost use Rattle.std.specs.Prelude.{◌≡◌, cond, ◌%◌, ◌-◌, ◌<◌, eqb};
ghost use Rattle.bench_calls.specs.Board.{call_outcome_of, running_of};
ghost use Rattle.bench_calls.specs.Ends.{Makes, MakesOf, Alters};
ghost use Rattle.bench_board.specs.Meets.{keeping, asking, buffers_read, MakesIn};
ghost use Rattle.flow.specs.Exchange.{level_word_of, tick, fetch, is_call, begin, store};
ghost use Rattle.flow.specs.Target.{set_posted};

use crate::Buffers;
use bench_calls::{Call, CallOutcome, Change, Registers};
use bench_effects::Act;
use flow::Place;
use parts::Geometry;

// The memory is left as it is.
pub(crate) fn keep(r: Registers) -> Change
    ensures { result ≡ keeping r }
{
    Change {
        registers: r,
        act: Act::Keep,
    }
}

// A word posted.
// Kept: what may not change: `Makes` is one definition already, and what the promises of a transfer conclude from.
fn post(r: Registers, w: u32) -> Change
    ensures { Makes r result (λ x t. set_posted w t) }
{
    keep(Registers { posted: w, ..r })
}

// What SYSREQ holds, posted.
fn post_sysreq(n: Change) -> Change
    ensures { Alters n result (λ t. set_posted n.registers.sysreq t) }
{
    let r = n.registers;
    Change {
        registers: Registers {
            posted: r.sysreq,
            ..r
        },
        ..n
    }
}

// The stored level with 0 and 1 exchanged.
// Kept: what may not change: any low digit may be stored, and is shown; Level::Unknown has no way back.
fn shown_level(stored: u8) -> u32
    ensures shown { result ≡ cond (eqb (stored % 16) 0) 1 (cond (eqb (stored % 16) 1) 0 (stored % 16)) }
    ensures bounded { result < 16 }
{
    match stored % 16 {
        0 => 1,
        1 => 0,
        level => u32::from(level),
    }
}

// The stored level as step 8 reads it; the other bits are any.
// Kept: no plainer: the digit lies inside a byte, so the word is spelled as the definition spells it.
fn level_word(stored: u8, other: u32) -> u32
    ensures { result ≡ level_word_of (stored % 16) other }
{
    other / 0x10000000 * 0x10000000 + shown_level(stored) * 0x1000000 + other % 0x1000000
}

// Another SYSREQ, another posted word, and what is under way.
fn ask(r: Registers, sysreq: u32, posted: u32, running: Option<Call>) -> Change
    ensures { result ≡ keeping (asking sysreq posted running r) }
{
    keep(Registers {
        sysreq,
        posted,
        running,
        ..r
    })
}

// An outcome with one busy read less.
fn one_less(o: CallOutcome) -> CallOutcome
    ensures { result ≡ record { busy_reads = o.busy_reads - 1; succeeds = o.succeeds; sysarg = o.sysarg; new_level = o.new_level } }
{
    CallOutcome {
        busy_reads: o.busy_reads.saturating_sub(1),
        ..o
    }
}

// A read of SYSREQ while a call is under way: busy, or the call takes effect there.
fn tick_busy(g: Geometry, r: Registers, buffers: Buffers<'_>, other: u32, call: Call) -> Change
    ensures { MakesOf buffers.entry.flash.now buffers.entry.params.now r result (λ x t. tick g other (running_of x (Some call)) t) }
{
    if call.outcome.busy_reads == 0 {
        return post_sysreq(bench_calls::complete(g, r, buffers.flash, buffers.params, call));
    }
    let running = Some(Call {
        outcome: one_less(call.outcome),
        ..call
    });
    ask(r, r.sysreq, 0x80000000 + other % 0x80000000, running)
}

// A read of SYSREQ.
fn read_sysreq(g: Geometry, r: Registers, buffers: Buffers<'_>, other: u32) -> Change
    ensures { MakesOf buffers.entry.flash.now buffers.entry.params.now r result (λ x t. tick g other t.running t) }
{
    match r.running {
        None => post(r, r.sysreq),
        Some(call) => tick_busy(g, r, buffers, other, call),
    }
}

// A DRW read posts the word at TAR.
// Kept: no plainer: a match on a closed enum, each place with its own word; the same below, of writes.
pub(crate) fn read_word(
    g: Geometry,
    r: Registers,
    buffers: Buffers<'_>,
    other: u32,
    at: Place,
) -> Change
    ensures { MakesIn (buffers_read buffers.entry.flash.now buffers.entry.locks.now buffers.entry.params.now) r result (λ x t. fetch g other at t) }
{
    match at {
        Place::InFlash(a) => post(r, lent::word_at(buffers.flash, a)),
        Place::InLocks(a) => post(r, lent::word_at(buffers.locks, a)),
        Place::InParams(k) => post(r, bench_effects::word_of(buffers.params, k)),
        Place::AtLevel => post(r, level_word(r.stored, other)),
        Place::AtSysreq => read_sysreq(g, r, buffers, other),
        Place::AtSysarg => post(r, r.sysarg),
        Place::AtTestMode => post(r, r.test_mode),
        Place::Elsewhere => post(r, other),
    }
}

// A write of SYSREQ; bit 31 starts a call.
fn write_sysreq(r: Registers, w: u32, o: CallOutcome) -> Change
    ensures { Makes r result (λ x t. begin (is_call w) w (call_outcome_of x o) t) }
{
    let [number, ..] = w.to_le_bytes();
    let running = if 0x80000000 <= w {
        Some(Call { outcome: o, number })
    } else {
        r.running
    };
    ask(r, w, r.posted, running)
}

// A DRW write: registers and PARAMS take it, all else does not.
pub(crate) fn write_word(r: Registers, w: u32, o: CallOutcome, at: Place) -> Change
    ensures { Makes r result (λ x t. store w (call_outcome_of x o) at t) }
{
    match at {
        Place::InParams(k) => Change {
            registers: r,
            act: Act::PutWord { place: k, word: w },
        },
        Place::AtSysreq => write_sysreq(r, w, o),
        Place::AtSysarg => keep(Registers { sysarg: w, ..r }),
        Place::AtTestMode => keep(Registers { test_mode: w, ..r }),
        Place::InFlash(_) | Place::InLocks(_) | Place::AtLevel | Place::Elsewhere => keep(r),
    }
}
