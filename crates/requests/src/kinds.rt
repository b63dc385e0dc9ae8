// What kind a request is, and which answers are ones to it.
ghost use Rattle.std.specs.Prelude.{◌≡◌};
ghost use Rattle.flow.specs.Packets.{is_reset, is_attempt, answers};

use flow::{Answer, Request};

// Whether a request is a reset, which is no transfer.
pub fn is_reset(q: Request) -> bool
    ensures reset { result ≡ is_reset q }
{
    matches!(q, Request::Xres | Request::LineReset)
}

// Whether a request is an attempt of step 1.
pub fn is_attempt(q: Request) -> bool
    ensures attempt { result ≡ is_attempt q }
{
    matches!(q, Request::ReadIdcode)
}

// Whether an answer is one to this request: resets are answered by 'reset done', transfers by an acknowledgement (14).
pub fn answer_fits(q: Request, a: Answer) -> bool
    ensures fits { result ≡ answers q a }
{
    match a {
        Answer::ResetDone => is_reset(q),
        Answer::Transferred(_) => !is_reset(q),
    }
}
