// Where an answer leads: acknowledgement and parity first, then the word (document 01, 'Flow').
#![tactic(auto)]

ghost use Rattle.std.specs.Prelude.{cond, ◌≡◌, suc, ltb};
ghost use Rattle.flow.specs.Packets.{is_attempt, is_read, heard, reply_in};
ghost use Rattle.flow.specs.Session.{try_again, wait_again, settled, heard_by, next_of};
ghost use Rattle.image.specs.Handed.{handed};
ghost use Rattle.wire.specs.Wire.{ack_of};

use failures::Failure;
use flow::{Answer, Counters, Move, Next, Reply, Request, Way};
use image::Image;
use purposes::on_word;
use wire::Ack;

// Another attempt, at most thirty.
// Kept: no plainer: this and `wait_again` differ in the counter, the limit, the way and the failure.
fn try_again(c: Counters) -> Next
    ensures { result ≡ try_again (ltb (suc c.attempts) 30) c }
{
    if c.attempts < 29 {
        Next::Go(
            Way::ToReset,
            Counters {
                waits: 0,
                attempts: c.attempts + 1,
                ..c
            },
        )
    } else {
        Next::Stop(Failure::ThirtyAttempts.number())
    }
}

// The same transfer again, at most sixteen times running.
// Kept: no plainer: see `try_again`.
fn wait_again(c: Counters) -> Next
    ensures { result ≡ wait_again (ltb c.waits 16) c }
{
    if c.waits < 16 {
        Next::Go(
            Way::Stay,
            Counters {
                waits: c.waits + 1,
                ..c
            },
        )
    } else {
        Next::Stop(Failure::SeventeenWaits.number())
    }
}

// A transfer that went wrong: it ends an attempt, and any other leads on so.
fn on_broken(q: Request, c: Counters, other: Next) -> Next
    ensures { result ≡ cond (is_attempt q) (try_again (ltb (suc c.attempts) 30) c) other }
{
    if requests::kinds::is_attempt(q) {
        try_again(c)
    } else {
        other
    }
}

// The counters after a transfer that went right: no WAITs are running, and after an attempt no attempts.
// Kept: no plainer: q and c go together here and in `on_broken` alone.
fn settle(q: Request, c: Counters) -> Counters
    ensures { result ≡ settled (is_attempt q) c }
{
    let attempts = if requests::kinds::is_attempt(q) {
        0
    } else {
        c.attempts
    };
    Counters {
        waits: 0,
        attempts,
        ..c
    }
}

// An OK: the parity of a read's word counts, and a write has no word.
#[tactic(auto, unfolding(flow::specs::Packets::heard))]
fn on_okay(i: Image, m: Move, r: Reply, c: Counters) -> Next
    ensures { result ≡ heard_by (is_attempt m.request) (handed i.entry) m.purpose (heard (is_read m.request) Ack.Okay r.word r.parity) c }
{
    let q = m.request;
    let reads = requests::is_read(q);
    if reads && r.parity != wire::parity_of(r.word) {
        return on_broken(q, c, Next::Stop(Failure::Parity.number()));
    }
    let word = if reads { r.word } else { 0 };
    on_word(i, m.purpose, settle(q, c), word)
}

// A reply to a transfer.
// Kept: no plainer: a closed enum, an arm for each acknowledgement.
#[tactic(auto, unfolding(flow::specs::Packets::heard))]
fn on_reply(i: Image, m: Move, r: Reply, c: Counters) -> Next
    ensures { result ≡ heard_by (is_attempt m.request) (handed i.entry) m.purpose (heard (is_read m.request) (ack_of r.ack) r.word r.parity) c }
{
    let q = m.request;
    match wire::read_ack(r.ack) {
        Ack::Okay => on_okay(i, m, r, c),
        Ack::Wait => on_broken(q, c, wait_again(c)),
        Ack::Fault => on_broken(q, c, Next::Stop(Failure::Fault.number())),
        Ack::Silence => on_broken(q, c, Next::Stop(Failure::Silence.number())),
        Ack::Noise => on_broken(q, c, Next::Stop(Failure::Noise.number())),
    }
}

// What is read of an answer.
// Kept: no plainer: a `From` would have to stand in flow, and only the judge hears a reset as silence.
fn reply_in(a: Answer) -> Reply
    ensures { result ≡ reply_in a }
{
    match a {
        Answer::ResetDone => Reply {
            ack: 7,
            word: 0,
            parity: 0,
        },
        Answer::Transferred(r) => r,
    }
}

// Where an answer to a move leads: on by a way, or to a report. After a reset it is the next move, whatever the answer.
#[tactic(auto, unfolding(flow::specs::Packets::verdict))]
pub fn next(i: Image, m: Move, a: Answer, c: Counters) -> Next
    ensures next { result ≡ next_of (handed i.entry) m a c }
{
    if requests::kinds::is_reset(m.request) {
        Next::Go(Way::Onward, c)
    } else {
        on_reply(i, m, reply_in(a), c)
    }
}
