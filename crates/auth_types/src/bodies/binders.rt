// The names that patterns bind, and the terms of what binds.
ghost use Rattle.std.specs.Prelude.{◌≡◌, [], length, map, take, OnOk};
ghost use Rattle.core_terms.specs.ProgramTrees.{types_at};
ghost use Rattle.auth_syntax.specs.Trees as written;
ghost use Rattle.auth_types.specs.Bodies.{bound_names};
ghost use Rattle.declared_types.specs.Findings.{Finds};
ghost use Rattle.declared_types.specs.Scopes.{AreWithin};
ghost use Rattle.auth_types.specs.Elaborators.{locals_of, scope_of, types_of};

use crate::bodies::elaborator::Elaborator;
use auth_syntax::tree::PlacedName;
use core_terms::TyId;
use declared_types::fault::{TypeFault, TypeKind};

impl<'s, 'a> Elaborator<'s, 'a> {
    /// Binds the names of a pattern to values of these types, as the next locals.
    pub(super) fn bind_each(
        &mut self,
        names: &'a [PlacedName],
        types: &[TyId],
    ) -> Result<(), TypeFault>
        requires count { length names.now ≡ length types.now }
        requires within { AreWithin (length (types_of self.old)) types.now }
        ensures types { types_of self.new ≡ types_of self.old }
        ensures scope { scope_of self.new ≡ scope_of self.old }
        ensures found { Finds (λ _. locals_of self.new) (bound_names [] (locals_of self.old) (map written.name_of names.now) (types_at (types_of self.old) types.now)) result }
        ensures outer { OnOk result (take (length (locals_of self.old)) (locals_of self.new) ≡ locals_of self.old) }
    {
        let outer = self.depth();
        for (index, name) in names.iter().enumerate() {
            if self.is_bound_behind(outer, &name.name) {
                return Err(TypeFault::At(TypeKind::Twice, name.at));
            }
            self.bind(name, types[index])?;
        }
        Ok(())
    }
}
