//! What a session may use.
ghost use Rattle.std.specs.Prelude.{◌≡◌};
ghost use Rattle.session_run.specs.declared.limit.TheConstants.{MOST_USED};
ghost use Rattle.session_run.specs.Replies.{most_used};

/// The most bytes that the bodies and files of one session may have.
pub const MOST_USED: u64 = 67_108_864;

/// The limit is this number. This law is what refuses another constant.
pub fn limit_laws()
    ensures bytes { MOST_USED ≡ 67108864 }
    ensures defined { most_used ≡ 67108864 }
{}
