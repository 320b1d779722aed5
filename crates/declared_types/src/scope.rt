// What a program declares for its bodies: its named types and its functions, by number and by name.
ghost use Rattle.std.specs.Prelude.{◌≡◌, map};
ghost use Rattle.declared_types.specs.ScopeNames.{constructor_meant, constructors_meant, joined, names_in, numbered};

use auth_syntax::tree::Function;
use core_terms::{Constructor, FunctionId, Name, NamedId, NamedType, Tag, TyId};
use indexmap::IndexSet;

/// The number of a constructor: that of its type, and its tag there.
#[derive(Clone, Copy)]
pub struct ConstructorId {
    pub named: NamedId,
    pub tag: Tag,
}

/// A function of the text, with the numbers of its types.
#[derive(Drop)]
pub struct Head<'a> {
    pub function: &'a Function,
    pub parameters: Vec<TyId>,
    pub result: TyId,
}

/// What a program declares for its bodies: the named types by number, with the numbers of the types of their constructors' fields; the
/// functions by number; and the names of both. A look-up costs the same whatever the number of names.
#[derive(Drop)]
pub struct Scope<'a> {
    pub named: Vec<NamedType>,
    pub heads: Vec<Head<'a>>,
    // the constructors of all types, in the order of declaration
    pub constructor_names: IndexSet<&'a [u8]>,
    pub constructor_ids: Vec<ConstructorId>,
    pub function_names: IndexSet<&'a [u8]>,
    ghost constructors_named: { names_in constructor_names.keys ≡ joined (constructors_meant named.items) },
    ghost constructors_numbered: { map constructor_meant constructor_ids.items ≡ numbered 0 (constructors_meant named.items) },
    ghost functions_named: { names_in function_names.keys ≡ map (λ h. h.function.now.name.name) heads.items },
}

impl<'a> Scope<'a> {
    ghost use Rattle.std.specs.Prelude.{◌<◌, ℕ, List, [], length, map, option_map, slice_get, Some, unwrap_or, All, IfSome};
    ghost use Rattle.core_terms.specs.Types.{Ty, fields_at};
    ghost use Rattle.core_terms.specs.ProgramTrees.{table_of, types_at};
    ghost use Rattle.declared_types.specs.Signatures.{constructor_named, function_named};
    ghost use Rattle.declared_types.specs.Scopes.{AreWithin, IsConstructorWithin, IsHeadWithin, IsWithin, function_meant, signature_meant, signatures_meant};

    /// The function of a name.
    pub fn function(&self, name: &Name) -> Option<FunctionId>
        ensures found { (types : List Ty) → function_named 0 (signatures_meant types self.now) name.now ≡ option_map (function_meant types self.now) result }
        ensures inside { IfSome result (λ id. id.0 < length self.now.heads.items) }
    {
        match self.function_names.get_index_of(name.as_bytes()) {
            Some(number) => Some(FunctionId(number)),
            None => None,
        }
    }

    /// The function with a number.
    pub fn head(&self, id: FunctionId) -> &Head<'a>
        requires { id.0 < length self.now.heads.items }
        ensures head { slice_get self.now.heads.items id.0 ≡ Some result.now }
        ensures signature { (types : List Ty) → (function_meant types self.now id).value ≡ signature_meant types result.now }
        ensures within { (count : ℕ) → IsWithin count self.now → IsHeadWithin count result.now }
    {
        &self.heads[id.0]
    }

    /// The constructor of a name.
    pub fn constructor(&self, name: &Name) -> Option<ConstructorId>
        ensures { constructor_named 0 (constructors_meant self.now.named.items) name.now ≡ option_map constructor_meant result }
    {
        match self.constructor_names.get_index_of(name.as_bytes()) {
            Some(number) => Some(self.constructor_ids[number]),
            None => None,
        }
    }

    /// The constructors of a named type, by tag; none where there is no such type.
    pub fn constructors(&self, id: NamedId) -> &[Constructor]
        ensures names { map (λ (c : Constructor). c.name) result.now ≡ unwrap_or (slice_get (constructors_meant self.now.named.items) id.0) [] }
        ensures fields { (types : List Ty) → map (λ (c : Constructor). types_at types c.fields.items) result.now ≡ unwrap_or (slice_get (table_of types self.now.named.items) id.0) [] }
        ensures within { (count : ℕ) → IsWithin count self.now → All (IsConstructorWithin count) result.now }
    {
        match self.named.get(id.0) {
            Some(named) => &named.constructors,
            None => &[],
        }
    }

    /// The numbers of the types of a constructor's fields; none where there is no such constructor.
    pub fn fields(&self, id: ConstructorId) -> &[TyId]
        ensures fields { (types : List Ty) → types_at types result.now ≡ unwrap_or (fields_at (table_of types self.now.named.items) id.named.0 id.tag.0) [] }
        ensures within { (count : ℕ) → IsWithin count self.now → AreWithin count result.now }
    {
        match self.constructors(id.named).get(id.tag.0 as usize) {
            Some(constructor) => &constructor.fields,
            None => &[],
        }
    }
}
