// Programs as they are printed.

ghost use Rattle.std.specs.Prelude.{◌≡◌, ◌∷◌, ◌++◌, [], map, Some, IfOk, OnOk};
ghost use Rattle.lexemes.specs.Places.{start};
ghost use Rattle.auth_syntax.specs.Syntax.{BinarySyntax, CallSyntax, FunctionDeclaration, IfSyntax, LetSyntax, MatchSyntax, OperateSyntax, PairSyntax, StateDeclaration, UnarySyntax, VecTypeSyntax};
ghost use Rattle.auth_syntax.specs.Grammar.{arms_tokens, array_word, brackets, constructor_tokens, constructors_tokens, declaration_tokens, expression_tokens, expressions_tokens, format_number, format_tokens, in_parentheses, kind_keyword, length_tokens, lower, names_tokens, parameter_tokens, parameters_tokens, type_tokens, types_tokens, unary_word, upper};
ghost use Rattle.auth_syntax.specs.Parsing.{in_a_row};
ghost use Rattle.printed_syntax.specs.PrintedPrograms.{program_text};
ghost use Rattle.printed_syntax.specs.LineViews.{arm_tokens, line_of, separated, with_tokens};
ghost use Rattle.auth_syntax.specs.Trees.{arm_of, arms_in_a_row, array_of, constructor_of, declaration_of, expression_of, function_of, kind_of, name_of, parameter_of, program_of, type_declaration_of, type_of, unary_of};

use crate::printer::Printer;
use auth_syntax::tree::{
    Arm, ArrayOperator, Ast, ConstructorDeclaration, Declaration, ExpTree, Function, FunctionKind,
    Parameter, PlacedName, TypeDeclaration, TypeTree, UnaryOperator,
};
use core_terms::{BinaryOperator, Format, Name};
use lexemes::token::{Keyword, Mark};
use std::alloc::{AllocError, Global};

/// The text of a program: its format, where it tells one, and each declaration on a line of its own, which 0a ends. Between two tokens of
/// a line stands one blank, but none behind `(` `[`, none before `)` `,` `;` `:` `[` `]`, and none before a `(` behind a name or the word of
/// an operation on one operand or two. The text of a program that `parse` gave is that of a program which is equal but for places
/// (`laws::parsed_is_read_back`); so `parse` gives one from it, where it has at most 262,144 bytes.
///
/// # Errors
///
/// `AllocError` where there is no memory for the text.
pub fn print(alloc: Global, ast: &Ast) -> Result<Vec<u8>, AllocError>
    ensures { IfOk result (λ text. text.items ≡ program_text (program_of ast.now)) }
{
    let mut printer = Printer::new(alloc);
    if let Some(format) = ast.format {
        printer.format(format)?;
        printer.end_line()?;
    }
    for declaration in &ast.declarations {
        printer.declaration(declaration)?;
        printer.end_line()?;
    }
    Ok(printer.into_text())
}

impl Printer {
    /// Adds a format, behind the word that tells it.
    fn format(&mut self, format: Format) -> Result<(), AllocError>
        ensures { OnOk result (line_of self.new ≡ with_tokens (line_of self.old) (format_tokens (Some format))) }
    {
        self.name(b"format")?;
        self.int(format_number(format))?;
        self.mark(Mark::Semicolon)
    }

    /// Adds a declaration.
    fn declaration(&mut self, declaration: &Declaration) -> Result<(), AllocError>
        ensures { OnOk result (line_of self.new ≡ with_tokens (line_of self.old) (declaration_tokens (declaration_of declaration.now))) }
    {
        match declaration {
            Declaration::Type(_, declared) => self.type_declaration(declared),
            Declaration::State(_, of_type) => self.state(of_type),
            Declaration::Function(_, function) => self.function(function),
        }
    }

    /// Adds a named type, from its keyword on.
    #[tactic(auto, using(crate::proofs::LineLemmas::with_tokens_append))]
    fn type_declaration(&mut self, declared: &TypeDeclaration) -> Result<(), AllocError>
        ensures { OnOk result (line_of self.new ≡ with_tokens (line_of self.old) (declaration_tokens (type_declaration_of start declared.now))) }
    {
        self.word(Keyword::Type)?;
        self.lower(&declared.name)?;
        self.mark(Mark::EqualsSign)?;
        self.constructors(&declared.constructors)?;
        self.mark(Mark::Semicolon)
    }

    /// Adds the constructors of a named type.
    fn constructors(&mut self, constructors: &[ConstructorDeclaration]) -> Result<(), AllocError>
        ensures { OnOk result (line_of self.new ≡ with_tokens (line_of self.old) (constructors_tokens (map constructor_of constructors.now))) }
    {
        for (index, constructor) in constructors.iter().enumerate() {
            self.separator(index, Mark::Bar)?;
            self.constructor(constructor)?;
        }
        Ok(())
    }

    /// Adds a constructor of a named type.
    #[tactic(auto, using(crate::proofs::LineLemmas::with_tokens_append))]
    fn constructor(&mut self, constructor: &ConstructorDeclaration) -> Result<(), AllocError>
        ensures { OnOk result (line_of self.new ≡ with_tokens (line_of self.old) (constructor_tokens (constructor_of constructor.now))) }
    {
        self.upper(&constructor.name)?;
        self.field_types(&constructor.fields)
    }

    /// Adds the type of the state, from its keyword on.
    #[tactic(auto, using(crate::proofs::LineLemmas::with_tokens_append))]
    fn state(&mut self, of_type: &TypeTree) -> Result<(), AllocError>
        ensures { OnOk result (line_of self.new ≡ with_tokens (line_of self.old) (declaration_tokens (StateDeclaration start (type_of of_type.now)))) }
    {
        self.word(Keyword::State)?;
        self.type_tree(of_type)?;
        self.mark(Mark::Semicolon)
    }

    /// Adds a function, from its keyword on.
    #[tactic(auto, using(crate::proofs::LineLemmas::with_tokens_append))]
    fn function(&mut self, function: &Function) -> Result<(), AllocError>
        ensures { OnOk result (line_of self.new ≡ with_tokens (line_of self.old) (declaration_tokens (FunctionDeclaration start (function_of function.now)))) }
    {
        self.word(kind_word(function.kind))?;
        self.lower(&function.name)?;
        self.mark(Mark::LeftParenthesis)?;
        self.parameters(&function.parameters)?;
        self.mark(Mark::RightParenthesis)?;
        self.mark(Mark::Colon)?;
        self.type_tree(&function.result_type)?;
        self.mark(Mark::EqualsSign)?;
        self.expression(&function.body)?;
        self.mark(Mark::Semicolon)
    }

    /// Adds the parameters of a function.
    fn parameters(&mut self, parameters: &[Parameter]) -> Result<(), AllocError>
        ensures { OnOk result (line_of self.new ≡ with_tokens (line_of self.old) (parameters_tokens (map parameter_of parameters.now))) }
    {
        for (index, parameter) in parameters.iter().enumerate() {
            self.separator(index, Mark::Comma)?;
            self.parameter(parameter)?;
        }
        Ok(())
    }

    /// Adds a parameter with its type.
    fn parameter(&mut self, parameter: &Parameter) -> Result<(), AllocError>
        ensures { OnOk result (line_of self.new ≡ with_tokens (line_of self.old) (parameter_tokens (parameter_of parameter.now))) }
    {
        self.lower(&parameter.name)?;
        self.mark(Mark::Colon)?;
        self.type_tree(&parameter.of_type)
    }

    /// Adds an expression.
    #[cycle(expressions)]
    fn expression(&mut self, expression: &ExpTree) -> Result<(), AllocError>
        ensures { OnOk result (line_of self.new ≡ with_tokens (line_of self.old) (expression_tokens (expression_of expression.now))) }
    {
        match expression {
            ExpTree::UnitLiteral(_) => {
                self.mark(Mark::LeftParenthesis)?;
                self.mark(Mark::RightParenthesis)
            }
            ExpTree::BoolLiteral(_, false) => self.word(Keyword::False),
            ExpTree::BoolLiteral(_, true) => self.word(Keyword::True),
            ExpTree::IntLiteral(_, number) => self.int(*number),
            ExpTree::TextLiteral(_, text) => self.text(text.as_bytes()),
            ExpTree::Local(_, name) => self.name(name.as_bytes()),
            ExpTree::Pair(_, first, second) => self.pair(first, second),
            ExpTree::Unary(_, operation, operand) => self.unary(*operation, operand),
            ExpTree::Binary(_, operation, first, second) => self.binary(*operation, first, second),
            ExpTree::Call(_, name, operands) => self.call(name, operands),
            ExpTree::Constructor(_, name, operands) => {
                self.name(name.as_bytes())?;
                self.operands(operands)
            }
            ExpTree::Operate(_, operation, operands) => self.operate(*operation, operands),
            ExpTree::Let {
                name,
                bound,
                body,
                ..
            } => self.let_in(name, bound, body),
            ExpTree::If {
                test,
                first,
                other,
                ..
            } => self.condition(test, first, other),
            ExpTree::Match { subject, arms, .. } => self.match_with(subject, arms),
        }
    }

    /// Adds an operation on one operand.
    #[cycle(expressions)]
    fn unary(&mut self, operation: UnaryOperator, operand: &ExpTree) -> Result<(), AllocError>
        ensures { OnOk result (line_of self.new ≡ with_tokens (line_of self.old) (expression_tokens (UnarySyntax start (unary_of operation) (expression_of operand.now)))) }
    {
        self.word(unary_word(operation))?;
        self.mark(Mark::LeftParenthesis)?;
        self.expression(operand)?;
        self.mark(Mark::RightParenthesis)
    }

    /// Adds an operation on two operands.
    #[cycle(expressions)]
    fn binary(
        &mut self,
        operation: BinaryOperator,
        first: &ExpTree,
        second: &ExpTree,
    ) -> Result<(), AllocError>
        ensures { OnOk result (line_of self.new ≡ with_tokens (line_of self.old) (expression_tokens (BinarySyntax start operation (expression_of first.now) (expression_of second.now)))) }
    {
        self.word(Keyword::Binary(operation))?;
        self.pair(first, second)
    }

    /// Adds a call of a function.
    #[cycle(expressions)]
    #[tactic(auto, using(crate::proofs::LineLemmas::with_tokens_append))]
    fn call(&mut self, name: &Name, operands: &[ExpTree]) -> Result<(), AllocError>
        ensures { OnOk result (line_of self.new ≡ with_tokens (line_of self.old) (expression_tokens (CallSyntax start name.now (in_a_row (map expression_of operands.now))))) }
    {
        self.name(name.as_bytes())?;
        self.mark(Mark::LeftParenthesis)?;
        self.expressions(operands)?;
        self.mark(Mark::RightParenthesis)
    }

    /// Adds an operation on arrays.
    #[cycle(expressions)]
    #[tactic(auto, using(crate::proofs::LineLemmas::with_tokens_append))]
    fn operate(&mut self, operation: ArrayOperator, operands: &[ExpTree]) -> Result<(), AllocError>
        ensures { OnOk result (line_of self.new ≡ with_tokens (line_of self.old) (expression_tokens (OperateSyntax start (array_of operation) (in_a_row (map expression_of operands.now))))) }
    {
        self.word(array_word(operation))?;
        self.brackets(operation)?;
        self.mark(Mark::LeftParenthesis)?;
        self.expressions(operands)?;
        self.mark(Mark::RightParenthesis)
    }

    /// Adds an expression that binds a name.
    #[cycle(expressions)]
    fn let_in(
        &mut self,
        name: &PlacedName,
        bound: &ExpTree,
        body: &ExpTree,
    ) -> Result<(), AllocError>
        ensures { OnOk result (line_of self.new ≡ with_tokens (line_of self.old) (expression_tokens (LetSyntax start (name_of name.now) (expression_of bound.now) (expression_of body.now)))) }
    {
        self.word(Keyword::Let)?;
        self.lower(name)?;
        self.mark(Mark::EqualsSign)?;
        self.expression(bound)?;
        self.word(Keyword::In)?;
        self.expression(body)
    }

    /// Adds a condition.
    #[cycle(expressions)]
    fn condition(
        &mut self,
        test: &ExpTree,
        first: &ExpTree,
        other: &ExpTree,
    ) -> Result<(), AllocError>
        ensures { OnOk result (line_of self.new ≡ with_tokens (line_of self.old) (expression_tokens (IfSyntax start (expression_of test.now) (expression_of first.now) (expression_of other.now)))) }
    {
        self.word(Keyword::If)?;
        self.expression(test)?;
        self.word(Keyword::Then)?;
        self.expression(first)?;
        self.word(Keyword::Else)?;
        self.expression(other)
    }

    /// Adds a match with its arms.
    #[cycle(expressions)]
    fn match_with(&mut self, subject: &ExpTree, arms: &[Arm]) -> Result<(), AllocError>
        ensures { OnOk result (line_of self.new ≡ with_tokens (line_of self.old) (expression_tokens (MatchSyntax start (expression_of subject.now) (arms_in_a_row (map arm_of arms.now))))) }
    {
        self.word(Keyword::Match)?;
        self.expression(subject)?;
        self.word(Keyword::With)?;
        self.arms(arms)?;
        self.word(Keyword::End)
    }

    /// Adds two expressions between parentheses.
    #[cycle(expressions)]
    fn pair(&mut self, first: &ExpTree, second: &ExpTree) -> Result<(), AllocError>
        ensures { OnOk result (line_of self.new ≡ with_tokens (line_of self.old) (expression_tokens (PairSyntax start (expression_of first.now) (expression_of second.now)))) }
    {
        self.mark(Mark::LeftParenthesis)?;
        self.expression(first)?;
        self.mark(Mark::Comma)?;
        self.expression(second)?;
        self.mark(Mark::RightParenthesis)
    }

    /// Adds expressions, with commas between them.
    #[cycle(expressions)]
    fn expressions(&mut self, expressions: &[ExpTree]) -> Result<(), AllocError>
        ensures { OnOk result (line_of self.new ≡ with_tokens (line_of self.old) (expressions_tokens (in_a_row (map expression_of expressions.now)))) }
    {
        for (index, expression) in expressions.iter().enumerate() {
            self.separator(index, Mark::Comma)?;
            self.expression(expression)?;
        }
        Ok(())
    }

    /// Adds the operands of a constructor: between parentheses, where there are any.
    #[cycle(expressions)]
    fn operands(&mut self, operands: &[ExpTree]) -> Result<(), AllocError>
        ensures { OnOk result (line_of self.new ≡ with_tokens (line_of self.old) (in_parentheses (expressions_tokens (in_a_row (map expression_of operands.now))))) }
    {
        if operands.is_empty() {
            return Ok(());
        }
        self.mark(Mark::LeftParenthesis)?;
        self.expressions(operands)?;
        self.mark(Mark::RightParenthesis)
    }

    /// Adds the arms of a match.
    #[cycle(expressions)]
    fn arms(&mut self, arms: &[Arm]) -> Result<(), AllocError>
        ensures { OnOk result (line_of self.new ≡ with_tokens (line_of self.old) (arms_tokens (arms_in_a_row (map arm_of arms.now)))) }
    {
        for arm in arms {
            self.arm(arm)?;
        }
        Ok(())
    }

    /// Adds an arm of a match.
    #[cycle(expressions)]
    fn arm(&mut self, arm: &Arm) -> Result<(), AllocError>
        ensures { OnOk result (line_of self.new ≡ with_tokens (line_of self.old) (arm_tokens (arm_of arm.now))) }
    {
        self.mark(Mark::Bar)?;
        self.upper(&arm.constructor)?;
        self.field_names(&arm.fields)?;
        self.mark(Mark::Arrow)?;
        self.expression(&arm.body)
    }

    /// Adds the names of a constructor's fields: between parentheses, where there are any.
    fn field_names(&mut self, names: &[PlacedName]) -> Result<(), AllocError>
        ensures { OnOk result (line_of self.new ≡ with_tokens (line_of self.old) (in_parentheses (names_tokens (map name_of names.now)))) }
    {
        if names.is_empty() {
            return Ok(());
        }
        self.mark(Mark::LeftParenthesis)?;
        self.names(names)?;
        self.mark(Mark::RightParenthesis)
    }

    /// Adds names, with commas between them.
    fn names(&mut self, names: &[PlacedName]) -> Result<(), AllocError>
        ensures { OnOk result (line_of self.new ≡ with_tokens (line_of self.old) (names_tokens (map name_of names.now))) }
    {
        for (index, name) in names.iter().enumerate() {
            self.separator(index, Mark::Comma)?;
            self.lower(name)?;
        }
        Ok(())
    }

    /// Adds the types of a constructor's fields: between parentheses, where there are any.
    fn field_types(&mut self, types: &[TypeTree]) -> Result<(), AllocError>
        ensures { OnOk result (line_of self.new ≡ with_tokens (line_of self.old) (in_parentheses (types_tokens (map type_of types.now)))) }
    {
        if types.is_empty() {
            return Ok(());
        }
        self.mark(Mark::LeftParenthesis)?;
        self.types(types)?;
        self.mark(Mark::RightParenthesis)
    }

    /// Adds types, with commas between them.
    fn types(&mut self, types: &[TypeTree]) -> Result<(), AllocError>
        ensures { OnOk result (line_of self.new ≡ with_tokens (line_of self.old) (types_tokens (map type_of types.now))) }
    {
        for (index, of_type) in types.iter().enumerate() {
            self.separator(index, Mark::Comma)?;
            self.type_tree(of_type)?;
        }
        Ok(())
    }

    /// Adds a type.
    #[tactic(auto, using(crate::proofs::LineLemmas::with_tokens_append))]
    fn type_tree(&mut self, of_type: &TypeTree) -> Result<(), AllocError>
        ensures { OnOk result (line_of self.new ≡ with_tokens (line_of self.old) (type_tokens (type_of of_type.now))) }
    {
        match of_type {
            TypeTree::UnitType(_) => self.word(Keyword::Unit),
            TypeTree::BoolType(_) => self.word(Keyword::Bool),
            TypeTree::IntType(_) => self.word(Keyword::Int),
            TypeTree::TextType(_) => self.word(Keyword::Text),
            TypeTree::NamedType(_, name) => self.name(name.as_bytes()),
            TypeTree::AuthType(_, inner) => {
                self.word(Keyword::Auth)?;
                self.type_tree(inner)
            }
            TypeTree::PairType(_, first, second) => {
                self.mark(Mark::LeftParenthesis)?;
                self.type_tree(first)?;
                self.mark(Mark::Comma)?;
                self.type_tree(second)?;
                self.mark(Mark::RightParenthesis)
            }
            TypeTree::VecType(_, length, item) => {
                self.word(Keyword::Vec)?;
                self.length(*length)?;
                self.type_tree(item)
            }
        }
    }

    /// Adds what stands between the word of an operation on arrays and its operands: a length, where it has one.
    fn brackets(&mut self, operation: ArrayOperator) -> Result<(), AllocError>
        ensures { OnOk result (line_of self.new ≡ with_tokens (line_of self.old) (brackets (array_of operation))) }
    {
        match operation {
            ArrayOperator::VecFill(length) => self.length(length),
            ArrayOperator::VecGet | ArrayOperator::VecPut => Ok(()),
        }
    }

    /// Adds the length of an array, in brackets.
    fn length(&mut self, length: u8) -> Result<(), AllocError>
        ensures { OnOk result (line_of self.new ≡ with_tokens (line_of self.old) (length_tokens length)) }
    {
        self.mark(Mark::LeftBracket)?;
        self.int(i64::from(length))?;
        self.mark(Mark::RightBracket)
    }

    /// Adds a lower name.
    fn lower(&mut self, name: &PlacedName) -> Result<(), AllocError>
        ensures { OnOk result (line_of self.new ≡ with_tokens (line_of self.old) (lower (name_of name.now) ∷ [])) }
    {
        self.name(name.name.as_bytes())
    }

    /// Adds an upper name.
    fn upper(&mut self, name: &PlacedName) -> Result<(), AllocError>
        ensures { OnOk result (line_of self.new ≡ with_tokens (line_of self.old) (upper (name_of name.now) ∷ [])) }
    {
        self.name(name.name.as_bytes())
    }

    /// Adds a mark between two things in a row: before each but the first.
    fn separator(&mut self, index: usize, mark: Mark) -> Result<(), AllocError>
        ensures { OnOk result (line_of self.new ≡ separated index mark (line_of self.old)) }
    {
        if index == 0 { Ok(()) } else { self.mark(mark) }
    }
}

/// The number of a format.
fn format_number(format: Format) -> i64
    ensures { result ≡ format_number format }
{
    match format {
        Format::First => 1,
        Format::Second => 2,
    }
}

/// The keyword of a function's kind.
fn kind_word(kind: FunctionKind) -> Keyword
    ensures { result ≡ kind_keyword (kind_of kind) }
{
    match kind {
        FunctionKind::Inner => Keyword::Fun,
        FunctionKind::Init => Keyword::Init,
        FunctionKind::Query => Keyword::Query,
        FunctionKind::Update => Keyword::Update,
    }
}

/// The word of an operation on one operand.
fn unary_word(operation: UnaryOperator) -> Keyword
    ensures { result ≡ unary_word (unary_of operation) }
{
    match operation {
        UnaryOperator::Fst => Keyword::Fst,
        UnaryOperator::Snd => Keyword::Snd,
        UnaryOperator::Auth => Keyword::Auth,
        UnaryOperator::Unauth => Keyword::Unauth,
        UnaryOperator::Len => Keyword::Len,
        UnaryOperator::Not => Keyword::Not,
    }
}

/// The word of an operation on arrays.
fn array_word(operation: ArrayOperator) -> Keyword
    ensures { result ≡ array_word (array_of operation) }
{
    match operation {
        ArrayOperator::VecFill(_) => Keyword::VecFill,
        ArrayOperator::VecGet => Keyword::VecGet,
        ArrayOperator::VecPut => Keyword::VecPut,
    }
}
