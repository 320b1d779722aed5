//! What is true of a server on links, however many there are: the contract of a function that does nothing.
ghost use Rattle.serve_links.specs.LinkLaws.{LinksKeepHistory, PartsKeepHistory};

/// Behind any links that a server served, each version but the first is made of the one before it by its commit, where it was so
/// before them, as of a server that begins: `links`, whatever came on them and however they ended; and `parts`, where serving was
/// stopped on the last one.
#[tactic(auto, using(crate::proofs::LinkHistories::links_keep_history, crate::proofs::LinkHistories::parts_keep_history))]
pub fn links_run()
    ensures links { LinksKeepHistory }
    ensures parts { PartsKeepHistory }
{
    session_meaning::laws::server_run();
    session_meaning::laws::connections();
}
