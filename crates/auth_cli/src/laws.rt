//! The laws of the definitions in `specs/`: each is a function without parameters, whose contract is the law.
ghost use Rattle.auth_cli.specs.ServedHistories.{VersionsAreServed};

/// However a serving goes, the versions that the server has in the end are a history of the state with which it began: each but the
/// first is what the ideal run of an update makes of the one before it.
#[tactic(auto, using(crate::proofs::ServedVersions::versions_are_served))]
pub fn served_versions()
    ensures { VersionsAreServed }
{
    serve_links::laws::links_run();
}
