//! What a follower keeps, as laws that the crates above may rest on.
ghost use Rattle.ut_followed.specs.Followed.{FollowedIsPlain, FollowedGrows, FollowedStaysAPrefix};

/// A store that follows keeps the rules of a plain state, and its journal that of the store that it follows.
pub fn follow_laws()
    ensures plain { FollowedIsPlain }
    ensures grows { FollowedGrows }
    ensures prefix { FollowedStaysAPrefix }
{}
