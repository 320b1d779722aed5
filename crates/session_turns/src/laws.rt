//! What stays as a store grows: the contract of a function that does nothing.
ghost use Rattle.session_turns.specs.Laws.{OwnNodesStay, VersionsStay};

/// A store that grows, as the commits of others make it, under versions and under calls that run: versions stand as before
/// (`versions`), and a call's nodes, which are the store's first ones with its own behind them, stay (`calls`).
pub fn growing()
    ensures versions { VersionsStay }
    ensures calls { OwnNodesStay }
{}
