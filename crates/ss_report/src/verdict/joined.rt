//! Whether the payload of a session is joined.
ghost use Rattle.std.specs.Prelude.{◌≡◌};
ghost use Rattle.ss_review.specs.report.Verdict.{is_joined};

use ss_review::SessionState;

/// Whether the payload of a session is joined.
pub(crate) fn is_joined(state: SessionState) -> bool
    ensures { result ≡ is_joined state }
{
    match state {
        SessionState::Joined => true,
        SessionState::Disputed
        | SessionState::Incomplete
        | SessionState::Malformed
        | SessionState::Untrusted
        | SessionState::Unaccepted => false,
    }
}
