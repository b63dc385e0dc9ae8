// Starting and stepping a session: one request out, one answer in (document 01, 'Flow' and 'Who brings a number about').
#![tactic(auto)]

ghost use Rattle.std.specs.Prelude.{true, cond, ◌≡◌, eqb};
ghost use Rattle.image.specs.Checks.{image_fault};
ghost use Rattle.refusals.specs.Refusals.{refusal_number, number_in};
ghost use Rattle.session.specs.Given.{start_refused, wants_leave, start_of, refusing, step_on, step_with};
ghost use Rattle.session.specs.Told.{given_told};
ghost use Rattle.session.specs.Possible.{possible_in};
ghost use Rattle.session.specs.Sessions.{first_for};

mod bounds;
mod held;
mod moving;

use bounds::possible_in;
use flow::{Answer, Counters, Entry, Packet, Position};
use held::Held;
use image::Header;
use moving::advanced;
use parts::{Geometry, Level};
use refusals::Refusal;

// A session: what it holds of the image, where it stands or what it reported, and the reads and writes answered so far.
// Kept: the C interface: a session's 45 bytes hold each field whatever `finished` says, and a step gives them back; an enum would drop some.
#[derive(Clone, Copy)]
pub struct Session {
    pub header: Header,
    pub position: Position,
    pub counters: Counters,
    pub transfers: u32,
    pub finished: bool,
    pub number: u8,
    pub step: u8,
}

// A report: its number (0 done), the flow step then running, and the reads and writes handed out.
// Kept: what may not change: a report's number is any byte in the definitions `reported` and `report_fits`, and in the outcome's bytes.
#[derive(Clone, Copy)]
pub struct Report {
    pub number: u8,
    pub step: u8,
    pub transfers: u32,
}

// What stands after a call that is not refused: a request, or the report.
#[derive(Clone, Copy)]
pub enum Outcome {
    Ask(Packet),
    Reported(Report),
}

// What a call gives; the session with a refusal too.
#[derive(Clone, Copy)]
pub struct Given {
    pub session: Session,
    pub outcome: Result<Outcome, Refusal>,
}

// The counters where none counts.
pub(crate) const NO_COUNTS: Counters = Counters {
    waits: 0,
    polls: 0,
    attempts: 0,
    kept: 0,
};

// The session of a given header at its start.
fn first_session(h: Header) -> Session
    ensures { result ≡ first_for h }
{
    Session {
        header: h,
        position: Position {
            entry: Entry::FromOpen,
            at: 0,
        },
        counters: NO_COUNTS,
        transfers: 0,
        finished: false,
        number: 0,
        step: 0,
    }
}

// A refused start: a session of zeros.
fn start_refused(refusal: Refusal) -> Given
    ensures { given_told result ≡ start_refused (refusal_number refusal) }
{
    Given {
        session: first_session(Header::ZERO),
        outcome: Err(refusal),
    }
}

// Whether KILL is asked for without leave (15).
fn wants_leave(h: Header, leave: bool) -> bool
    ensures { result ≡ wants_leave h leave }
{
    matches!(parts::read_level(h.level), Level::Kill) && !leave
}

// The checks of a start: 11, 12, 6 to 10, then 15.
fn check_start(h: Header, bytes: &[u8], leave: bool) -> Result<(), Refusal>
    ensures { number_in result ≡ cond (eqb (image_fault h bytes.now) 0) (cond (wants_leave h leave) 15 0) (image_fault h bytes.now) }
{
    image::check(h, bytes)?;
    if wants_leave(h, leave) {
        return Err(Refusal::KillWithoutLeave);
    }
    Ok(())
}

// Kept: what may not change: header and bytes are a caller's raw input, before the checks (clause `given`).
// Starts a session on an image: checks 11, 12, 6 to 10, then 15; the first request is XRES.
#[tactic(auto, unfolding(crate::specs::Given::start_of))]
pub fn start(h: Header, bytes: &[u8], leave: bool) -> Given
    ensures given { given_told result ≡ start_of h bytes.now leave }
{
    match check_start(h, bytes, leave) {
        Ok(()) => Given {
            session: first_session(h),
            outcome: Ok(Outcome::Ask(Packet::Xres)),
        },
        Err(refusal) => start_refused(refusal),
    }
}

// A refused step gives the session back.
fn refuse(s: Session, refusal: Refusal) -> Given
    ensures { given_told result ≡ refusing s (refusal_number refusal) }
{
    Given {
        session: s,
        outcome: Err(refusal),
    }
}

// A step on a possible session with an image of its size.
fn step_on(held: &Held, a: Answer) -> Given
    requires possible { possible_in held.now.geometry held.now.session ≡ true }
    ensures { let h = held.now in given_told result ≡ step_on h.geometry h.session h.bytes.now a }
{
    if held.session.finished {
        return held.give();
    }
    let m = held.standing_move();
    if requests::kinds::answer_fits(m.request, a) {
        let next = Held {
            geometry: held.geometry,
            session: advanced(held, m, a),
            bytes: held.bytes,
        };
        return next.give();
    }
    refuse(held.session, Refusal::WrongAnswer)
}

// Takes the answer to the standing request: checks 13, 12, 14; gives the next request or the report.
#[tactic(auto, unfolding(crate::specs::Given::step_with))]
pub fn step(s: Session, bytes: &[u8], a: Answer) -> Given
    ensures given { given_told result ≡ step_with s bytes.now a }
{
    match parts::find(s.header.part, s.header.macros) {
        Ok(g) if possible_in(g, s) => {
            if bytes.len() != parts::image_size(g) {
                return refuse(s, Refusal::Size);
            }
            let held = Held {
                geometry: g,
                session: s,
                bytes,
            };
            step_on(&held, a)
        }
        _ => refuse(s, Refusal::ImpossibleSession),
    }
}
