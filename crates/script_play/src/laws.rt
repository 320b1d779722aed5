//! What is true of whole plays, by their definition: the contract of a function that does nothing.
ghost use Rattle.script_play.specs.PlayLaws.{PlaysTellTruth};

/// A play of a script, whoever serves.
///
/// Its deeds come of events of a client, one by one. Wherever among these a session begins with the spelling of an ideal state's projection,
/// each outcome that it is told from there on is the projection of the ideal one, on the state that the session's told updates before it leave;
/// up to the first told call whose proof shows a collision of the hash at a named place.
pub fn plays_tell_truth()
    ensures { PlaysTellTruth }
{
    session_meaning::laws::client_run();
}
