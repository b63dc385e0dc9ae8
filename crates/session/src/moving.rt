// The session that an answer leads to.
ghost use Rattle.std.specs.Prelude.{◌≡◌, ◌<◌, ◌^◌, min};
ghost use Rattle.flow.specs.Session.{counted, stand_after, act};
ghost use Rattle.flow.specs.Session as Flow;
ghost use Rattle.image.specs.Image.{image_of};
ghost use Rattle.session.specs.Sessions.{most_of, running_at, reported_at, resumed};

use crate::held::Held;
use crate::{NO_COUNTS, Session};
use flow::{Answer, Counters, Move, Next, Position, Request, Way};
use image::Image;

// The count, which stops at document 01's formula.
fn capped(held: &Held, count: u64) -> u32
    ensures { result ≡ min count (most_of held.now.geometry) }
{
    count.min(plan::most_transfers(held.geometry)) as u32
}

// The position that a way leads to.
// Kept: no plainer: `Way` is a closed enum, and each way has its own place.
fn arrive(w: Way, p: Position) -> Position
    requires { p.at < 2 ^ 31 }
    ensures { result ≡ Flow.arrive w p }
{
    match w {
        Way::Onward => Position { at: p.at + 1, ..p },
        Way::Stay => p,
        Way::ToReset => Position {
            at: p.at.saturating_sub(1),
            ..p
        },
        Way::ToPoll => Position {
            at: p.at.saturating_sub(2),
            ..p
        },
        Way::Enter(entry) => Position {
            entry,
            at: p.at + 1,
        },
    }
}

// A session of the same image that goes on so.
fn running_at(s: Session, position: Position, counters: Counters, transfers: u32) -> Session
    ensures { result ≡ running_at s position counters transfers }
{
    Session {
        position,
        counters,
        transfers,
        finished: false,
        number: 0,
        step: 0,
        ..s
    }
}

// A session of the same image that has reported this.
fn reported_at(s: Session, number: u8, step: u8, transfers: u32) -> Session
    ensures { result ≡ reported_at s number step transfers }
{
    Session {
        position: Position {
            at: 0,
            ..s.position
        },
        counters: NO_COUNTS,
        transfers,
        finished: true,
        number,
        step,
        ..s
    }
}

// The session that an answer leads to.
#[tactic(auto, unfolding(crate::specs::Sessions::resumed))]
fn resume(held: &Held, next: Next, step: u8, count: u64) -> Session
    requires short { held.now.session.position.at < 2 ^ 31 }
    ensures { let h = held.now in result ≡ resumed h.geometry h.session (stand_after next h.session.position step count) }
{
    let s = held.session;
    let transfers = capped(held, count);
    match next {
        Next::Go(w, c) => running_at(s, arrive(w, s.position), c, transfers),
        Next::Stop(number) => reported_at(s, number, step, transfers),
    }
}

// The transfers answered, after this request: a reset is none.
fn counted_by(q: Request, transfers: u32) -> u64
    ensures { result ≡ counted q transfers }
{
    if requests::kinds::is_reset(q) {
        u64::from(transfers)
    } else {
        u64::from(transfers) + 1
    }
}

// The session after the standing move is answered.
pub(crate) fn advanced(held: &Held, m: Move, a: Answer) -> Session
    requires short { held.now.session.position.at < 2 ^ 31 }
    ensures { let h = held.now in let s = h.session in result ≡ resumed h.geometry s (act (image_of h.geometry s.header h.bytes.now) m a s.position s.counters s.transfers) }
{
    let s = held.session;
    let image = Image {
        geometry: held.geometry,
        header: s.header,
        bytes: held.bytes,
    };
    let next = judge::next(image, m, a, s.counters);
    resume(held, next, m.step, counted_by(m.request, s.transfers))
}
