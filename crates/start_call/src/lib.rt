// Starting over a caller's bytes; the refusal where an output is under size.
#![tactic(auto)]

ghost use Rattle.std.specs.Prelude.{cond, ◌≡◌};
ghost use Rattle.calls.specs.Calls.{in_table, start_into, after_start_call};
ghost use Rattle.refusals.specs.Refusals.{refusal_number, number_in};
ghost use Rattle.session.specs.Given.{start_refused};

use decoding::header_in;
use encoding::{put_outcome, put_session};
use refusals::Refusal;

// The refusal where an output is under size: 12, once 11 is past.
// Kept: what may not change: part and macros are a caller's raw numbers, before `find` gives a geometry (clause `number`).
pub fn under_size(part: u8, macros: u8) -> Refusal
    ensures number { refusal_number result ≡ cond (in_table part macros) 12 11 }
{
    match parts::find(part, macros) {
        Ok(_) => Refusal::Size,
        Err(refusal) => refusal,
    }
}

// Kept: the C interface: session and outcome are two buffers of a caller, each of its own size.
// Refuses a start: the session of zeros and the refusal, each where it fits.
fn refuse_start(bytes: &mut [u8], outcome: &mut [u8], refusal: Refusal) -> Result<(), Refusal>
    ensures value { number_in result ≡ (start_into (start_refused (refusal_number refusal)) bytes.old outcome.old).number }
    ensures bytes_after { bytes.new ≡ (start_into (start_refused (refusal_number refusal)) bytes.old outcome.old).first }
    ensures outcome_after { outcome.new ≡ (start_into (start_refused (refusal_number refusal)) bytes.old outcome.old).second }
{
    storing::clear(bytes, 45);
    put_outcome(outcome, Err(refusal.number()));
    Err(refusal)
}

// Starts a session on an image.
pub fn start_into(
    header: &[u8],
    image: &[u8],
    leave: u8,
    session: &mut [u8],
    outcome: &mut [u8],
) -> Result<(), Refusal>
    ensures number { number_in result ≡ (after_start_call header.now image.now leave session.old outcome.old).number }
    ensures session { session.new ≡ (after_start_call header.now image.now leave session.old outcome.old).first }
    ensures outcome { outcome.new ≡ (after_start_call header.now image.now leave session.old outcome.old).second }
{
    if header.len() < 17 {
        return refuse_start(session, outcome, Refusal::Size);
    }
    let h = header_in(header);
    if session.len() < 45 || outcome.len() < 8 {
        return refuse_start(session, outcome, under_size(h.part, h.macros));
    }
    let given = session::start(h, image, leave != 0);
    put_session(session, given.session);
    put_outcome(outcome, given.outcome.map_err(Refusal::number));
    given.outcome?;
    Ok(())
}
