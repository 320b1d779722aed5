// What a prover opens.
use core_terms::TyId;
use value_store::Ref;

/// A value that was opened.
#[derive(Clone, Copy)]
pub struct Opened {
    /// Its type.
    pub ty: TyId,
    /// The node that stands for it.
    pub value: Ref,
}
