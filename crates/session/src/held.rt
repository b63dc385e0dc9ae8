// A session with its geometry and the image lent to it, and what stands in it.
ghost use Rattle.std.specs.Prelude.{◌≡◌, Ok};
ghost use Rattle.flow.specs.Session.{move_at};
ghost use Rattle.image.specs.Image.{image_of};
ghost use Rattle.session.specs.Given.{outcome_at, giving};
ghost use Rattle.session.specs.Lent.{Lent};
ghost use Rattle.session.specs.Sessions.{stand_of};
ghost use Rattle.session.specs.Told.{outcome_told, given_told};

use crate::{Given, Outcome, Report, Session};
use flow::Move;
use parts::Geometry;

#[derive(Clone, Copy)]
pub(crate) struct Held<'a> {
    pub(crate) geometry: Geometry,
    pub(crate) session: Session,
    pub(crate) bytes: &'a [u8],
    ghost lent: { Lent geometry session bytes.now },
}

impl<'a> Held<'a> {
    // The move that the session stands at.
    pub(crate) fn standing_move(&self) -> Move
        ensures { let h = self.now in result ≡ move_at (image_of h.geometry h.session.header h.bytes.now) h.session.position }
    {
        let s = self.session;
        moves::move_at(
            self.geometry,
            s.header,
            self.bytes,
            s.position.entry,
            s.position.at,
        )
    }

    // What stands in the session: its report, or the request of its move.
    fn outcome(&self) -> Outcome
        ensures { let h = self.now in outcome_told (Ok result) ≡ outcome_at (image_of h.geometry h.session.header h.bytes.now) (stand_of h.session) }
    {
        let s = self.session;
        if s.finished {
            return Outcome::Reported(Report {
                number: s.number,
                step: s.step,
                transfers: s.transfers,
            });
        }
        Outcome::Ask(requests::packet_of(self.standing_move().request))
    }

    // The session with what stands in it.
    pub(crate) fn give(&self) -> Given
        ensures { let h = self.now in given_told result ≡ giving (image_of h.geometry h.session.header h.bytes.now) h.session }
    {
        Given {
            session: self.session,
            outcome: Ok(self.outcome()),
        }
    }
}
