// What a command refuses.

use core_terms::{Cause, Digest};
use declared_types::fault::TypeKind;
use lexemes::fault::SyntaxKind;
use printed_syntax::fault::LiteralKind;
use wire_form::Wire;

/// Why a text is no program.
#[derive(Clone, Copy)]
pub enum ProgramKind {
    /// A token that is faulty or not allowed where it stands.
    Syntax(SyntaxKind),
    /// A rule that the tree breaks.
    Typing(TypeKind),
}

/// Why bytes are no object that is accepted: the first fault. Functions, and the instructions of each, are numbered from 0.
#[derive(Clone, Copy)]
pub enum ObjectKind {
    /// They end inside a field: how many they are.
    Cut(usize),
    /// The field at this offset is not allowed.
    BadField(usize),
    /// So many bytes stand behind the object.
    Leftover(usize),
    /// The function with this number has not the shape of its role, or has an `auth` in its argument.
    Shape(usize),
    /// The instruction with the second number, of the function with the first one, is at fault.
    Kind(usize, usize),
}

/// An argument of a command, which a refusal names.
#[derive(Clone, Copy)]
pub enum Argument {
    /// `P`, the file of a program.
    Program,
    /// `Q`, the file of the program that a state is moved to.
    Other,
    /// `STATE`, the file of a state's spelling.
    State,
    /// `FUEL`
    Fuel,
    /// `IMG`, the file of an image.
    Image,
    /// `N`, the number of pieces that are kept.
    Number,
    /// `OUT`, the file that is stored.
    Out,
    /// `SEED`, from which the numbers of a workload follow.
    Seed,
    /// `COUNT`, half the number of calls of a workload.
    Count,
    /// `PORT`, which a server listens to, or a client dials.
    Port,
    /// `CONNS`, the number of connections that a server serves.
    Connections,
    /// `SLICE`, the greatest number of calls of functions in a turn of a session.
    Slice,
    /// `SCRIPT`, the file of a user's script.
    Script,
    /// `MIRROR`, the file of a mirror.
    Mirror,
}

/// Why bytes are no image of a program: the first fault. Records are numbered from 0.
#[derive(Clone, Copy)]
pub enum ImageKind {
    /// They don't begin as an image.
    Magic,
    /// The image is one of another program.
    OtherProgram,
    /// They end inside the header or a record: how many they are.
    Cut(usize),
    /// The record with this number is not allowed.
    BadRecord(u32),
    /// There is no record, or the last one hasn't the type of the state.
    RootType,
    /// The spelling of what the record with this number stands for would pass its limit.
    TooBig(u32),
    /// What the record with this number stands for is deeper than a value may be.
    TooDeep(u32),
    /// So many bytes stand behind the last record.
    Leftover(usize),
}

/// Why bytes are no mirror: the first fault.
#[derive(Clone, Copy)]
pub enum MirrorKind {
    /// They end inside a field or a piece: how many they are.
    Cut(u32),
    /// The field at this offset is not allowed.
    BadField(u32),
    /// So many bytes stand behind the last piece.
    Leftover(u32),
}

/// Why a journal is refused: the first fault. Records are numbered from 0.
#[derive(Clone, Copy)]
pub enum JournalKind {
    /// A journal is to be made, and the file has bytes.
    NotEmpty,
    /// The bytes don't begin as a journal.
    Magic,
    /// They end inside a later part: how many they are.
    Cut(u64),
    /// The journal is one of another program.
    OtherProgram,
    /// The record with this number is not allowed.
    BadRecord(u32),
    /// The image's bytes are none of the program.
    Image(ImageKind),
}

/// Why a state is not moved from one program to another.
#[derive(Clone, Copy)]
pub enum MigrationKind {
    /// The one is not of the first format, or the other not of the second.
    Format,
    /// Their type declarations, as they are printed, or the types of their states differ.
    Types,
}

/// Why an input is refused.
#[derive(Clone, Copy)]
pub enum InputFault {
    /// The file has more bytes than it may have.
    TooLong(Argument),
    /// No program of the library has the name.
    LibraryUnknown,
    /// A state is not moved between the two programs.
    Migration(MigrationKind),
    /// No object is written of the program: it is an object, or of the second format.
    ObjectFormat,
    /// No role of the program has the name.
    RoleUnknown,
    /// The role is not one that the command calls.
    RoleKind,
    /// The number is not of 1 to 20 decimal digits, or out of its range.
    Number(Argument),
    /// The state's bytes are no spelling: the offset of the first fault.
    State(u32),
    /// The argument is no literal of its type: the first fault with its offset.
    Literal(LiteralKind, usize),
    /// The image's bytes are none of the program.
    Image(ImageKind),
    /// The bytes are no mirror.
    Mirror(MirrorKind),
    /// The file is no journal of the program, or not one that can be made.
    Journal(JournalKind),
    /// A line of the script asks for no step: the number of the first one, from 1.
    Script(usize),
}

/// Why a proof is rejected, or what is fetched in its place. Pieces are numbered from 0, as they are asked for.
#[derive(Clone, Copy)]
pub enum Rejection {
    /// For what is there: a piece, or the form of the proof.
    Cause(Cause),
    /// No piece has this digest, which is held where the one with this number is asked for.
    Missing(u64, Digest),
    /// No answer is read where a piece is asked for.
    Broken(Wire),
}

/// What a command refuses, once its words are in order.
#[derive(Clone, Copy)]
pub enum Refusal {
    /// The text is no program: the first fault with its line and column.
    Program(ProgramKind, usize, usize),
    /// The bytes begin as an object, and none is accepted: the first fault.
    Object(ObjectKind),
    /// An input is refused.
    Input(InputFault),
    /// The proof is rejected, or what is fetched in its place.
    Proof(Rejection),
}
