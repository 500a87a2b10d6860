//! What the definitions of placed lives refuse: laws with no code, shown on small lists.
ghost use Rattle.fkv_lives.specs.WrongLives.{RefusesInvented, CountsOnce, RefusesSharedSteps, RefusesOtherTimes, RefusesEarlyUpdates};
ghost use Rattle.fkv_lives.specs.WrongLives.{RefusesUnowned, RefusesUnissued, ReadsIssues, RefusesUnasked, RefusesCrossed, ReadsOwners};

/// Placed lives have no invented answer, no update that is left out or counted twice, no step that two
/// lives share, and no effect outside its times; a life with an effect and no answer can't be written.
/// Where lives account for outcomes, each answer told has its life, each life its issue, of this operation, and no
/// answer goes to another operation that is open. What was issued is read off the steps, the session of a slot by its last
/// enter; so is what a step goes on with, by the last issue that was given its context.
pub fn wrong_lives()
    ensures invented { RefusesInvented }
    ensures once { CountsOnce }
    ensures shared { RefusesSharedSteps }
    ensures times { RefusesOtherTimes }
    ensures updates { RefusesEarlyUpdates }
    ensures owned { RefusesUnowned }
    ensures issued { RefusesUnissued }
    ensures read { ReadsIssues }
    ensures asked { RefusesUnasked }
    ensures crossed { RefusesCrossed }
    ensures owners { ReadsOwners }
{}
