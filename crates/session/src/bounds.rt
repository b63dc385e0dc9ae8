// Whether a session is possible for its part: number 13.
ghost use Rattle.std.specs.Prelude.{◌≡◌};
ghost use Rattle.session.specs.Possible.{header_fits, running_fits, is_failure, report_fits, possible_in};

use crate::Session;
use flow::{Counters, Position};
use image::Header;
use parts::Geometry;

// Whether a header is one that 6, 7 and 8 let pass.
fn header_fits(g: Geometry, h: Header) -> bool
    ensures { result ≡ header_fits g h }
{
    image::version_fits(h) && image::id_fits(g, h) && image::level_fits(h.level)
}

// Whether a running session's index and counts are in range.
fn running_fits(g: Geometry, p: Position, c: Counters) -> bool
    ensures { result ≡ running_fits g p c }
{
    (p.at as usize) < move_counts::move_count(g, p.entry)
        && c.waits <= 16
        && c.polls < 10000
        && c.attempts < 30
}

// Whether a report that is not done can have this number.
// Kept: what may not change: check 13 is a test of any byte, by the definition `is_failure`.
fn is_failure(number: u8) -> bool
    ensures { result ≡ is_failure number }
{
    matches!(number, 16..=30 | 33)
}

// Whether a report has a number and a step that a report can have.
fn report_fits(number: u8, step: u8) -> bool
    ensures { result ≡ report_fits number step }
{
    if number == 0 {
        step == 9
    } else {
        is_failure(number) && matches!(step, 1..=9)
    }
}

// Whether a session is possible for its part (13).
#[tactic(auto, unfolding(crate::specs::Possible::possible_in))]
pub(crate) fn possible_in(g: Geometry, s: Session) -> bool
    ensures { result ≡ possible_in g s }
{
    if !header_fits(g, s.header) || plan::most_transfers(g) < u64::from(s.transfers) {
        return false;
    }
    if s.finished {
        report_fits(s.number, s.step)
    } else {
        running_fits(g, s.position, s.counters)
    }
}
