// A step over a caller's bytes.
#![tactic(auto)]

ghost use Rattle.std.specs.Prelude.{cond, ◌≡◌, ◌≤◌, leb, length};
ghost use Rattle.calls.specs.Calls.{after_step_call};
ghost use Rattle.refusals.specs.Refusals.{number_in};

use decoding::{is_session, session_in};
use encoding::{put_outcome, put_session};
use flow::Answer;
use refusals::Refusal;

// How much of an image to lend to a step: none of it where the outcome has no room, so that the step stops at 13 or at 12.
fn lent_with(outcome: usize, image: usize) -> usize
    ensures lent { result ≡ cond (leb 8 outcome) image 0 }
    ensures within { result ≤ image }
{
    if outcome < 8 { 0 } else { image }
}

// A step on bytes that are enough for a session.
// Kept: the C interface: session and outcome are two buffers of a caller, each of its own size.
fn step_on(bytes: &mut [u8], image: &[u8], a: Answer, outcome: &mut [u8]) -> Result<(), Refusal>
    requires { 45 ≤ length bytes.old }
    ensures value { number_in result ≡ (after_step_call bytes.old image.now a outcome.old).number }
    ensures bytes_after { bytes.new ≡ (after_step_call bytes.old image.now a outcome.old).first }
    ensures outcome_after { outcome.new ≡ (after_step_call bytes.old image.now a outcome.old).second }
{
    if !is_session(bytes) {
        put_outcome(outcome, Err(Refusal::ImpossibleSession.number()));
        return Err(Refusal::ImpossibleSession);
    }
    let lent = lent_with(outcome.len(), image.len());
    let given = session::step(session_in(bytes), &image[..lent], a);
    put_outcome(outcome, given.outcome.map_err(Refusal::number));
    given.outcome?;
    put_session(bytes, given.session);
    Ok(())
}

// Takes the answer to the standing request; gives the next request or the report.
pub fn step_into(
    session: &mut [u8],
    image: &[u8],
    a: Answer,
    outcome: &mut [u8],
) -> Result<(), Refusal>
    ensures number { number_in result ≡ (after_step_call session.old image.now a outcome.old).number }
    ensures session { session.new ≡ (after_step_call session.old image.now a outcome.old).first }
    ensures outcome { outcome.new ≡ (after_step_call session.old image.now a outcome.old).second }
{
    if session.len() < 45 {
        put_outcome(outcome, Err(Refusal::Size.number()));
        return Err(Refusal::Size);
    }
    step_on(session, image, a, outcome)
}
