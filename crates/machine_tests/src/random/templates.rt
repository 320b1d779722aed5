// Templates of programs and of expressions, by the sorts of values.
//
// In a template `%` and a letter stand for an expression of that sort (`%=`: of the template's own sort), `^` and a digit for the name of
// a local that will be bound so many places further, `+` and a letter bind a local of that sort, and `!` drops the last one. No function
// is called between `[` and `]`.

/// The sorts of values: the types of the generated programs.
#[derive(Clone, Copy, PartialEq)]
pub enum Sort {
    Int,
    Bool,
    Text,
    Pair,
    Shape,
}

impl Sort {
    /// The sort of a letter, that of the template where the letter is `=`.
    pub fn of_letter(letter: u8, own: Sort) -> Sort {
        match letter {
            b'i' => Sort::Int,
            b'b' => Sort::Bool,
            b't' => Sort::Text,
            b'p' => Sort::Pair,
            b's' => Sort::Shape,
            _ => own,
        }
    }

    /// Expressions of the sort that have no parts.
    pub fn leaves(self) -> &'static [&'static [u8]] {
        match self {
            Sort::Int => &INT_LEAVES,
            Sort::Bool => &[b"true", b"false"],
            Sort::Text => &[b"\"\"", b"\"a\"", b"\"ab\"", b"\"\xc3\xa9\""],
            Sort::Pair => &[b"(1, \"a\")", b"(-3, \"\")"],
            Sort::Shape => &[b"Dot", b"Box(2, \"b\")", b"More(Dot, 5)"],
        }
    }

    /// Expressions of this sort alone.
    pub fn own_templates(self) -> &'static [&'static [u8]] {
        match self {
            Sort::Int => &INTS,
            Sort::Bool => &BOOLS,
            Sort::Text => &[b"cat(%t, %t)", b"snd(%p)", b"unauth(auth(%t))"],
            Sort::Pair => &[b"(%i, %t)", b"fst((%p, %s))", b"unauth(auth(%p))"],
            Sort::Shape => &[
                b"Box(%i, %t)",
                b"More(%s, %i)",
                b"unauth(snd((%b, auth(%s))))",
            ],
        }
    }

    /// A call of the function that gives a value of this sort.
    pub fn call(self) -> &'static [u8] {
        match self {
            Sort::Int => b"int_of(sub(v0, 1), %s)",
            Sort::Bool => b"bool_of(sub(v0, 1), %s)",
            Sort::Text => b"text_of(sub(v0, 1), %s)",
            Sort::Pair => b"pair_of(sub(v0, 1), %s)",
            Sort::Shape => b"shape_of(sub(v0, 1), %s)",
        }
    }
}

const INT_LEAVES: [&[u8]; 8] = [
    b"0",
    b"1",
    b"-1",
    b"2",
    b"-7",
    b"3037000500",
    b"9223372036854775807",
    b"-9223372036854775808",
];

const INTS: [&[u8]; 8] = [
    b"add(%i, %i)",
    b"sub(%i, %i)",
    b"mul(%i, %i)",
    b"div(%i, %i)",
    b"rem(%i, %i)",
    b"len(%t)",
    b"fst(%p)",
    b"unauth(auth(%i))",
];

const BOOLS: [&[u8]; 6] = [
    b"eq(%i, %i)",
    b"lt(%i, %i)",
    b"le(%i, %i)",
    b"teq(%t, %t)",
    b"tlt(%t, %t)",
    b"not(%b)",
];

/// Expressions of any sort.
pub const COMMON: [&[u8]; 7] = [
    b"if %b then %= else %=",
    b"let ^0 = %i in +i%=!",
    b"let ^0 = %b in +b%=!",
    b"let ^0 = %t in +t%=!",
    b"let ^0 = %p in +p%=!",
    b"let ^0 = %s in +s%=!",
    b"match %s with | Dot -> %= | Box(^0, ^1) -> +i+t%=!! | More(^0, ^1) -> +s+i%=!! end",
];

/// The first function, of an int.
pub const FIRST: [&[u8]; 3] = [
    b"fun first(v0: int): int = +iadd(int_of(v0, %s), %i)!;\n",
    b"fun first(v0: int): bool = +iif bool_of(v0, %s) then %b else %b!;\n",
    b"fun first(v0: int): text = +icat(text_of(v0, %s), %t)!;\n",
];

/// What stands behind it: a function of each sort, whose first argument is smaller at each call.
pub const BEHIND: &[u8] = b"state unit;
type shape = Dot | Box(int, text) | More(shape, int);
fun int_of(v0: int, v1: shape): int = +i+sif le(v0, 0) then [%i] else %i!!;
fun bool_of(v0: int, v1: shape): bool = +i+sif le(v0, 0) then [%b] else %b!!;
fun text_of(v0: int, v1: shape): text = +i+sif le(v0, 0) then [%t] else %t!!;
fun pair_of(v0: int, v1: shape): (int, text) = +i+sif le(v0, 0) then [%p] else %p!!;
fun shape_of(v0: int, v1: shape): shape = +i+sif le(v0, 0) then [%s] else %s!!;
";
