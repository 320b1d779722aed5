// What a record that was loaded stands for.
ghost use Rattle.std.specs.Prelude.{◌≡◌, nat_eq};

use core_terms::TyId;
use value_store::Ref;

/// A node of the store, and the number of its type.
#[derive(Clone, Copy)]
pub(crate) struct StoredRecord {
    pub ty: TyId,
    pub value: Ref,
}

impl StoredRecord {
    /// Whether the type has this number.
    pub fn is_of(self, ty: TyId) -> bool
        ensures { result ≡ nat_eq self.ty.0 ty.0 }
    {
        self.ty == ty
    }
}
