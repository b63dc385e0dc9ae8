// How the board meets a transfer: whether it is carried out, and its answer (document 01, 'The plain board').
ghost use Rattle.std.specs.Prelude.{◌&&◌, not, ◌≡◌, eqb};
ghost use Rattle.bench_board.specs.Meets.{buffers_read, carried, Decides, Carries, Gives, Calls, Replies};
ghost use Rattle.flow.specs.Exchange.{carried_out, transferred};

use crate::{Buffers, Decision, words};
use bench_calls::{CallOutcome, Change, Registers};
use flow::{Answer, LineEvent, Place, Reply, Request, TransferOutcome};
use parts::{Geometry, Level};

// A request carried out.
// Kept: no plainer: a match on a closed enum, with a function where the requests differ.
#[tactic(auto, unfolding(flow::specs::Exchange::carry))]
fn carry_out(
    g: Geometry,
    r: Registers,
    buffers: Buffers<'_>,
    q: Request,
    other: u32,
    o: CallOutcome,
    at: Place,
) -> Change
    ensures { Carries g (buffers_read buffers.entry.flash.now buffers.entry.locks.now buffers.entry.params.now) (carried q other o) at r result }
{
    match q {
        Request::ReadDrw => words::read_word(g, r, buffers, other, at),
        Request::WriteTar(tar) => words::keep(Registers { tar, ..r }),
        Request::WriteDrw(w) => words::write_word(r, w, o, at),
        Request::Xres | Request::LineReset | Request::ReadIdcode | Request::WriteSetup(_, _) => {
            words::keep(r)
        }
    }
}

// The word that a read gives.
fn given_word(r: Registers, q: Request) -> u32
    ensures { Gives q r result }
{
    match q {
        Request::ReadIdcode => r.silicon.idcode,
        Request::ReadDrw => r.posted,
        _ => 0,
    }
}

// Whether a request carried out starts a call.
fn starts_call(q: Request, at: Place) -> bool
    ensures { Calls q at result }
{
    match q {
        Request::WriteDrw(w) => bench_map::is_call(w, at),
        _ => false,
    }
}

// Whether KILL is in effect.
fn is_killed(effect: u8) -> bool
    ensures { result ≡ eqb effect 4 }
{
    matches!(parts::read_level(effect), Level::Kill)
}

// The answer to a transfer.
fn answer(r: Registers, q: Request, e: LineEvent, barred: bool) -> Reply
    ensures { Replies q e barred r result }
{
    if is_killed(r.effect) {
        return bench_lines::silent_reply(e.filler);
    }
    let word = given_word(r, q);
    bench_lines::reply_to(e.outcome, barred, requests::is_read(q), word, e.filler)
}

// Whether a transfer is carried out: the board is not KILLed, the place not shut, and the line lets it through.
fn goes_through(effect: u8, barred: bool, outcome: TransferOutcome) -> bool
    ensures { result ≡ (not (eqb effect 4) && not barred && carried_out outcome) }
{
    !is_killed(effect) && !barred && bench_lines::carries_out(outcome)
}

// A transfer, met.
#[tactic(auto, unfolding(flow::specs::Exchange::transferred, flow::specs::Exchange::barred))]
pub(crate) fn transfer(
    g: Geometry,
    r: Registers,
    buffers: Buffers<'_>,
    q: Request,
    e: LineEvent,
    o: CallOutcome,
) -> Decision
    ensures { Decides (buffers_read buffers.entry.flash.now buffers.entry.locks.now buffers.entry.params.now) r e o result (λ l t. transferred g q l t) }
{
    let at = bench_map::place_of(g, r.tar);
    let barred = bench_map::bars(r.effect, q, at);
    let reply = answer(r, q, e, barred);
    if goes_through(r.effect, barred, e.outcome) {
        Decision {
            change: carry_out(g, r, buffers, q, e.other, o, at),
            answer: Answer::Transferred(reply),
            line_used: true,
            call_used: starts_call(q, at),
        }
    } else {
        Decision {
            change: words::keep(r),
            answer: Answer::Transferred(reply),
            line_used: true,
            call_used: false,
        }
    }
}
