// A caller's sessions.
ghost use Rattle.std.specs.Prelude.{◌≡◌, ◌<◌, length, slice_index_or};
ghost use Rattle.std.specs.Borrow.{sem, Lends};
ghost use Rattle.std.specs.Vec.{with_item};
ghost use Rattle.job_lanes.specs.contracts.desk.Desk.{the_row};
ghost use Rattle.bq_session.specs.contracts.Session.{the_row as session_row};

use bq_model::Lane;
use bq_session::Session;

/// The sessions of one caller, one for each lane of a set, in the order of the lanes.
#[derive(Drop)]
pub struct Desk<L: Lane> {
    pub(crate) sessions: Vec<Session<L>>,
}

impl<L: Lane> Desk<L> {
    /// The session on lane k of the set, from 0.
    pub fn session(&mut self, k: usize) -> &mut Session<L>
        requires { k < length self.old.sessions.items }
        ensures* writes_back { sem 𝓛 (Lends (the_row L.row L.Pass.row L.Book.row L.Lane) (session_row L.row L.Pass.row L.Book.row L.Lane) self.entry result
            (λ w. record { sessions = with_item self.old.sessions k w })) }
        ensures value { result.now ≡ slice_index_or self.old.sessions.items k result.now }
    {
        &mut self.sessions[k]
    }
}
