// Whether functions have the shapes that their kinds ask for.
ghost use Rattle.std.specs.Prelude.{◌≡◌, ◌∷◌, [], true, false, List, IsTrue};
ghost use Rattle.core_terms.specs.Programs.{types_in};
ghost use Rattle.core_terms.specs.ProgramTrees.{kind_of, types_at};
ghost use Rattle.core_terms.specs.Roles.{has_auth};
ghost use Rattle.core_terms.specs.TypeTables.{type_at, type_of_form};
ghost use Rattle.core_terms.specs.Types.{PairTy, Table, Ty};
ghost use Rattle.core_terms.specs.RoleShapes.{shape_test};
ghost use Rattle.term_stage.specs.Fitting.{judged};

use crate::judge::Judge;
use core_terms::{Function, Kind, TyForm, TyId};

/// Whether a type of this form has no parts, and so no `auth`.
fn is_leaf(form: TyForm) -> bool
    ensures { (named : Table) (types : List Ty) → IsTrue result → has_auth named (type_of_form types form) ≡ false }
{
    match form {
        TyForm::UnitForm | TyForm::BoolForm | TyForm::IntForm | TyForm::TextForm => true,
        _ => false,
    }
}

impl Judge<'_> {
    /// Whether a function has the shape that its kind asks for. What its caller passes may be of a type without parts alone.
    pub fn is_shaped(&self, function: &Function) -> bool
        ensures { let P = judged self.now.types.now self.now.named.now self.now.state self.now.functions.now in let T = types_in self.now.types.now in IsTrue result → shape_test P (kind_of function.now.kind) (types_at T function.now.parameters.items) (type_at T function.now.result) ≡ true }
    {
        match function.kind {
            Kind::Inner => true,
            Kind::Init => false,
            Kind::Query => self.takes_state(&function.parameters),
            Kind::Update => {
                self.takes_state(&function.parameters) && self.gives_state(function.result)
            }
        }
    }

    /// Whether these types are the state's and that of what a caller passes.
    fn takes_state(&self, parameters: &[TyId]) -> bool
        ensures { let P = judged self.now.types.now self.now.named.now self.now.state self.now.functions.now in let T = types_in self.now.types.now in IsTrue result → (argument : Ty) × (types_at T parameters.now ≡ P.state ∷ argument ∷ []) × (has_auth P.types argument ≡ false) }
    {
        match parameters {
            [state, argument] => *state == self.state && is_leaf(self.types.form(*argument)),
            _ => false,
        }
    }

    /// Whether a type is that of a new state and an answer.
    fn gives_state(&self, given: TyId) -> bool
        ensures { let P = judged self.now.types.now self.now.named.now self.now.state self.now.functions.now in let T = types_in self.now.types.now in IsTrue result → (answer : Ty) × (type_at T given ≡ PairTy P.state answer) }
    {
        match self.types.form(given) {
            TyForm::PairForm(new, _) => new == self.state,
            _ => false,
        }
    }
}
