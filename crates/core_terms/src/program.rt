// Programs, well-typed by their type.
ghost use Rattle.std.specs.Prelude.{◌≡◌, ◌<◌, true, length, map, Some, slice_get, option_map, bytes_eq, IfOk, IfSome, IsNone};
ghost use Rattle.std.specs.List.{All, list_all, position};
ghost use Rattle.std.proofs.Props.{props};
ghost use Rattle.core_terms.specs.TypeNames.{AreNamed};
ghost use Rattle.core_terms.specs.ProgramTrees.{function_of, has_fields_below, has_types_below, is_within, program_of, types_at};
ghost use Rattle.core_terms.specs.TypeTables.{HasNoNumber, stands_behind, type_at, type_of_form};
ghost use Rattle.core_terms.specs.InstructionViews.{instructions_of};
ghost use Rattle.core_terms.specs.ProgramSizes.{IsWithinLimits};
ghost use Rattle.core_terms.specs.ProgramParts.{compiled_program, program_of_parts};
ghost use Rattle.core_terms.specs.ProgramTypes.{types_by_number};
ghost use Rattle.core_terms.specs.RoleViews.{has_role_below, role_of};
ghost use Rattle.core_terms.specs.Roles.{has_auth, role_named, program_roles, roles_set};
ghost use Rattle.core_terms.specs.RoleTypes.{HasRoleShape, role_function};
ghost use Rattle.core_terms.specs.Terms.{function_at, kinds_set};
ghost use Rattle.core_terms.specs.Types.{fields_at, has_numbers, has_tags, types_set};
ghost use Rattle.core_terms.specs.Typing.{is_shaped, is_typed};

use crate::roles::{place_of, roles_of};
use crate::{
    Digest, Format, Function, Instruction, NamedId, NamedType, Role, RoleId, Tag, TyForm, TyId,
    TyTable, Types,
};
use std::alloc::{AllocError, Global};

/// The number of a function in its program, in the order of declarations.
#[derive(Clone, Copy)]
pub struct FunctionId(pub usize);

/// A program: its types and its functions, which are written, or compiled to code. It is well-typed and within the limits of a
/// program, its roles have their shapes, and the types of its parameters and results are in its table.
#[derive(Drop)]
pub struct Program {
    types: Types,
    functions: Vec<Function>,
    code: Option<Vec<Vec<Instruction>>>,
    text_digest: Digest,
    roles: Vec<Role>,
    ghost found: { map (role_of (types_by_number types)) roles.items ≡ program_roles (program_of_parts types functions.items code) } by { Prim.hlevel (props, types_set, kinds_set, roles_set) },
    ghost typed: { is_typed (program_of_parts types functions.items code) ≡ true },
    ghost shaped: { is_shaped (program_of_parts types functions.items code) ≡ true },
    ghost limits: { IsWithinLimits (program_of_parts types functions.items code) } by { Prim.hlevel props },
    ghost within: { list_all (has_types_below (length (types_by_number types))) functions.items ≡ true },
    ghost roles_within: { list_all (has_role_below (length (types_by_number types))) roles.items ≡ true },
}

impl Program {
    ghost use Rattle.core_terms.specs.Programs.{constructor_names, meaning, types_of};
    ghost use Rattle.core_terms.specs.ProgramTypes.{text_of};

    /// A program of these parts, whose text has this digest. Its roles, and which types have an `auth`, are found here, once.
    ///
    /// # Errors
    ///
    /// `AllocError` where there is no memory for the marks of the types or for the roles.
    pub fn new(
        types: TyTable,
        named: Vec<NamedType>,
        state: TyId,
        functions: Vec<Function>,
        text_digest: Digest,
        alloc: Global,
    ) -> Result<Self, AllocError>
        requires typed { is_typed (program_of types.format types.forms.keys named.items state functions.items) ≡ true }
        requires shaped { is_shaped (program_of types.format types.forms.keys named.items state functions.items) ≡ true }
        requires within { is_within types.forms.keys named.items state functions.items ≡ true }
        requires names { AreNamed named.items }
        requires limits { IsWithinLimits (program_of types.format types.forms.keys named.items state functions.items) }
        ensures meaning { IfOk result (λ program. meaning program ≡ program_of types.format types.forms.keys named.items state functions.items) }
        ensures named { IfOk result (λ program. program.types.named.items ≡ named.items) }
        ensures digest { IfOk result (λ program. program.text_digest ≡ text_digest) }
    {
        let types = Types::new(types, named, state, alloc)?;
        let roles = roles_of(&functions, alloc)?;
        Ok(Program {
            types,
            functions,
            code: None,
            text_digest,
            roles,
        })
    }

    /// A program that is compiled to this code, by function. Of its functions no body is asked for. `digest` is that of the bytes that
    /// it was read from.
    ///
    /// # Errors
    ///
    /// `AllocError` where there is no memory for the marks of the types or for the roles.
    pub fn compiled(
        types: TyTable,
        named: Vec<NamedType>,
        state: TyId,
        functions: Vec<Function>,
        code: Vec<Vec<Instruction>>,
        digest: Digest,
        alloc: Global,
    ) -> Result<Self, AllocError>
        requires typed { is_typed (compiled_program types named.items state functions.items code.items) ≡ true }
        requires shaped { is_shaped (compiled_program types named.items state functions.items code.items) ≡ true }
        requires within { is_within types.forms.keys named.items state functions.items ≡ true }
        requires names { AreNamed named.items }
        requires limits { IsWithinLimits (compiled_program types named.items state functions.items code.items) }
        ensures meaning { IfOk result (λ program. meaning program ≡ compiled_program types named.items state functions.items code.items) }
        ensures named { IfOk result (λ program. program.types.named.items ≡ named.items) }
        ensures digest { IfOk result (λ program. program.text_digest ≡ digest) }
    {
        let types = Types::new(types, named, state, alloc)?;
        let roles = roles_of(&functions, alloc)?;
        Ok(Program {
            types,
            functions,
            code: Some(code),
            text_digest: digest,
            roles,
        })
    }

    /// The code by function, where the program is compiled.
    pub fn code(&self) -> Option<&[Vec<Instruction>]>
        ensures { option_map (λ code. map (λ c. instructions_of (types_of self.now) c.items) code.now) result ≡ (meaning self.now).code }
    {
        match &self.code {
            Some(code) => Some(code),
            None => None,
        }
    }

    /// The types.
    pub fn types(&self) -> &Types
        ensures { result.now ≡ self.now.types }
    {
        &self.types
    }

    /// The SHA-256 digest of the program's text.
    pub fn text_digest(&self) -> &Digest
        ensures { result.now ≡ self.now.text_digest }
    {
        &self.text_digest
    }

    /// The format.
    pub fn format(&self) -> Format
        ensures { result ≡ self.now.types.table.format }
    {
        self.types.format()
    }

    /// The declarations of the named types, printed, each on its line.
    ///
    /// # Errors
    ///
    /// `AllocError` where there is no memory for the text.
    pub fn types_text(&self, alloc: Global) -> Result<Vec<u8>, AllocError>
        ensures { IfOk result (λ text. text.items ≡ text_of self.now.types) }
    {
        self.types.text(alloc)
    }

    /// The number of types. Their numbers are those below it.
    pub fn type_count(&self) -> usize
        ensures { result ≡ length (types_of self.now) }
    {
        self.types.type_count()
    }

    /// The form of a type. Its parts stand before the type.
    pub fn form(&self, ty: TyId) -> TyForm
        ensures form { type_of_form (types_of self.now) result ≡ type_at (types_of self.now) ty }
        ensures parts { stands_behind ty.0 result ≡ true }
    {
        self.types.form(ty)
    }

    /// The type of this form; none where it isn't one of the program's, as long as the form's parts are.
    pub fn type_of(&self, form: TyForm) -> Option<TyId>
        ensures found { IfSome result (λ id. slice_get (types_of self.now) id.0 ≡ Some (type_of_form (types_of self.now) form)) }
        ensures within { IfSome result (λ id. id.0 < length (types_of self.now)) }
        ensures none { IsNone result → HasNoNumber (types_of self.now) form }
    {
        self.types.type_of(form)
    }

    /// The named types, in the order of declarations.
    pub fn named_types(&self) -> &[NamedType]
        ensures named { result.now ≡ self.now.types.named.items }
        ensures within { list_all (has_fields_below (length (types_of self.now))) result.now ≡ true }
        ensures numbers { has_numbers (meaning self.now).types ≡ true }
        ensures tags { has_tags (meaning self.now).types ≡ true }
    {
        self.types.named_types()
    }

    /// The constructor of this name among those of a named type, with the types of its fields; none exactly where it has no such one.
    pub fn constructor(&self, named: NamedId, name: &[u8]) -> Option<(Tag, &[TyId])>
        ensures tag { option_map (λ found. found.0.0) result ≡ position (λ other. bytes_eq other name.now) (constructor_names self.now.types.named.items named.0) }
        ensures fields { IfSome result (λ found. fields_at (meaning self.now).types named.0 found.0.0 ≡ Some (types_at (types_of self.now) found.1.now)) }
    {
        self.types.constructor(named, name)
    }

    /// The type of the state.
    pub fn state_type(&self) -> TyId
        ensures state { type_at (types_of self.now) result ≡ (meaning self.now).state }
        ensures within { result.0 < length (types_of self.now) }
    {
        self.types.state_type()
    }

    /// Whether an `auth` stands in the type, at any depth and through named types.
    pub fn has_auth(&self, ty: TyId) -> bool
        ensures { result ≡ has_auth (meaning self.now).types (type_at (types_of self.now) ty) }
    {
        self.types.has_auth(ty)
    }

    /// The functions, in the order of declarations. There are at most 1,024, and at most 262,144 expressions in all of them.
    pub fn functions(&self) -> &[Function]
        ensures functions { map (function_of (types_of self.now)) result.now ≡ (meaning self.now).functions }
        ensures limits { IsWithinLimits (meaning self.now) }
        ensures within { list_all (has_types_below (length (types_of self.now))) result.now ≡ true }
    {
        &self.functions
    }

    /// The function with a number.
    pub fn function(&self, id: FunctionId) -> &Function
        requires { id.0 < length (meaning self.now).functions }
        ensures function { function_of (types_of self.now) result.now ≡ function_at (meaning self.now) id.0 }
        ensures within { has_types_below (length (types_of self.now)) result.now ≡ true }
    {
        &self.functions[id.0]
    }

    /// The roles, in the order of declarations. Each has the shape that its kind asks for.
    pub fn roles(&self) -> &[Role]
        ensures roles { map (role_of (types_of self.now)) result.now ≡ program_roles (meaning self.now) }
        ensures within { list_all (has_role_below (length (types_of self.now))) result.now ≡ true }
        ensures shapes { All (HasRoleShape (meaning self.now)) (program_roles (meaning self.now)) }
    {
        &self.roles
    }

    /// The role of this name; none exactly where no role has it.
    pub fn role(&self, name: &str) -> Option<RoleId>
        ensures { option_map (λ id. role_function (meaning self.now) id.0) result ≡ option_map Some (role_named (meaning self.now) name.now) }
    {
        match place_of(&self.roles, name) {
            Some(place) => Some(RoleId(place)),
            None => None,
        }
    }

    /// The greatest number of bytes of a spelling, and so of a piece of a proof.
    pub fn spelling_limit(&self) -> usize
        ensures { result ≡ (meaning self.now).format.limit }
    {
        self.types.spelling_limit()
    }
}
