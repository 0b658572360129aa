//! The sessions of a region.
ghost use Rattle.std.specs.Prelude.{◌≡◌, ℕ, ◌<◌, IfOk, replicate, slice_set, vec_len};
ghost use Rattle.geo_world.specs.inner.Sessions.{session_at};
ghost use Rattle.geo_base.specs.declared.limits.TheConstants.{SESSIONS_PER_REGION};
ghost use Rattle.geo_world.specs.declared.session.Session.TheVariants as kept;

use crate::session::Session;
use geo_base::limits::SESSIONS_PER_REGION;
use geo_base::{CandId, NoMemory};
use std::alloc::Global;

/// All sessions of a new region: idle.
pub fn new_sessions(alloc: Global) -> Result<Vec<Session>, NoMemory>
    ensures { IfOk result (λ sessions. sessions.items ≡ replicate SESSIONS_PER_REGION kept.Idle) }
{
    let sessions = vec![in alloc; Session::Idle; SESSIONS_PER_REGION as usize]?;
    Ok(sessions)
}

/// Where the session stands.
pub fn session_state(sessions: &Vec<Session>, session: u8) -> Session
    requires { session < vec_len sessions.now }
    ensures { result ≡ session_at sessions.now.items session }
{
    sessions[session as usize]
}

/// The session waits from now on.
pub fn let_wait(sessions: &mut Vec<Session>, session: u8, ticket: CandId)
    requires { session < vec_len sessions.old }
    ensures { sessions.new.items ≡ slice_set sessions.old.items session (kept.Pending ticket) }
{
    sessions[session as usize] = Session::Pending(ticket);
}
