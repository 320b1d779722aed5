// The bytes of instructions.
ghost use Rattle.std.specs.Prelude.{◌≡◌, ◌≤◌, ◌<◌, length, map, All};
ghost use Rattle.core_terms.specs.InstructionViews.{instruction_of, instructions_of};
ghost use Rattle.core_terms.specs.ProgramLimits.{most_instructions};
ghost use Rattle.core_terms.specs.ProgramTypes.{types_by_number};
ghost use Rattle.core_terms.specs.Texts.{bytes_of};
ghost use Rattle.object_meaning.specs.Objects as meant;
ghost use Rattle.object_meaning.specs.ObjectBytes.{arith_number, bytes_of_all, compare_number, instruction_bytes, text_compare_number, word, words};
ghost use Rattle.object_meaning.specs.WrittenObjects.{code_written, instruction_written, target_of};
ghost use Rattle.object_writer.specs.Adding.{Adds, written_so_far};
ghost use Rattle.object_writer.specs.Numberings.{IsNumbering, listed};
ghost use Rattle.object_writer.specs.CodeNumbers.{HasSmallNumbers};

use crate::WriteFault;
use crate::bytes::ObjectBytes;
use crate::numbering::Numbering;
use core_terms::{Arith, Compare, Instruction, NamedId, Text, TextCompare, Types};

/// Writes the instructions of a function.
pub(crate) fn put_code(
    object: &mut ObjectBytes,
    numbering: &Numbering,
    types: &Types,
    code: &[Instruction],
) -> Result<(), WriteFault>
    requires numbering { IsNumbering types.now numbering.now }
    requires short { length (instructions_of (types_by_number types.now) code.now) ≤ most_instructions }
    requires small { All HasSmallNumbers (instructions_of (types_by_number types.now) code.now) }
    ensures { Adds (written_so_far object.old) (bytes_of_all instruction_bytes (code_written (listed types.now numbering.now) 0 (instructions_of (types_by_number types.now) code.now))) (written_so_far object.new) result }
{
    for (place, instruction) in code.iter().enumerate() {
        put_instruction(object, numbering, types, place, instruction)?;
    }
    Ok(())
}

/// Writes the instruction with this number in its function. No program of the first format has instructions of arrays: they are written
/// as returns.
fn put_instruction(
    object: &mut ObjectBytes,
    numbering: &Numbering,
    types: &Types,
    place: usize,
    instruction: &Instruction,
) -> Result<(), WriteFault>
    requires numbering { IsNumbering types.now numbering.now }
    requires place { place ≤ most_instructions }
    requires small { HasSmallNumbers (instruction_of (types_by_number types.now) instruction.now) }
    ensures { Adds (written_so_far object.old) (instruction_bytes (instruction_written (listed types.now numbering.now) place (instruction_of (types_by_number types.now) instruction.now))) (written_so_far object.new) result }
{
    match instruction {
        Instruction::PushUnit => object.put(&[0x00]),
        Instruction::PushBool(value) => object.put(&[0x01, u8::from(*value)]),
        Instruction::PushInt(value) => object.put_behind(0x02, &value.to_be_bytes()),
        Instruction::PushText(text) => put_text(object, text),
        Instruction::Load(local) => object.put(&[0x04, local.0 as u8]),
        Instruction::Bind => object.put(&[0x05]),
        Instruction::Unbind(count) => object.put(&[0x06, *count as u8]),
        Instruction::Pair => object.put(&[0x07]),
        Instruction::Fst => object.put(&[0x08]),
        Instruction::Snd => object.put(&[0x09]),
        Instruction::Make(named, tag) => {
            object.put_behind(0x0A, &named_bytes(*named))?;
            object.put(&[tag.0])
        }
        Instruction::Switch(named, places) => put_switch(object, place, *named, places),
        Instruction::Branch(passed) => object.put_behind(0x0C, &target_bytes(place, *passed)),
        Instruction::Jump(passed) => object.put_behind(0x0D, &target_bytes(place, *passed)),
        Instruction::Call(function) => object.put_behind(0x0E, &(function.0 as u16).to_be_bytes()),
        Instruction::Return => object.put(&[0x0F]),
        Instruction::Auth(ty) => object.put_tagged(0x10, numbering.number(types, *ty)),
        Instruction::Unauth(ty) => object.put_tagged(0x11, numbering.number(types, *ty)),
        Instruction::Arith(operation) => object.put(&[0x12, arith_place(*operation)]),
        Instruction::Compare(operation) => object.put(&[0x13, compare_place(*operation)]),
        Instruction::TextCompare(operation) => object.put(&[0x14, text_compare_place(*operation)]),
        Instruction::Cat => object.put(&[0x15]),
        Instruction::Len => object.put(&[0x16]),
        Instruction::Not => object.put(&[0x17]),
        Instruction::VecFill(_) | Instruction::VecGet | Instruction::VecPut => object.put(&[0x0F]),
    }
}

/// Writes a text literal.
fn put_text(object: &mut ObjectBytes, text: &Text) -> Result<(), WriteFault>
    ensures { Adds (written_so_far object.old) (instruction_bytes (meant.PushText (bytes_of text.now))) (written_so_far object.new) result }
{
    let bytes = text.as_bytes();
    object.put_behind(0x03, &(bytes.len() as u32).to_be_bytes())?;
    object.put(bytes)
}

/// Writes a switch that stands at this place, with where each constructor leads to.
fn put_switch(
    object: &mut ObjectBytes,
    place: usize,
    named: NamedId,
    places: &[usize],
) -> Result<(), WriteFault>
    requires place { place ≤ most_instructions }
    requires small { All (λ passed. passed ≤ most_instructions) places.now }
    ensures { Adds (written_so_far object.old) (instruction_bytes (meant.Switch named.0 (map (target_of place) places.now))) (written_so_far object.new) result }
{
    object.put_behind(0x0B, &named_bytes(named))?;
    put_targets(object, place, places)
}

/// Writes where a switch leads to.
fn put_targets(object: &mut ObjectBytes, place: usize, places: &[usize]) -> Result<(), WriteFault>
    requires place { place ≤ most_instructions }
    requires small { All (λ passed. passed ≤ most_instructions) places.now }
    ensures { Adds (written_so_far object.old) (words (map (target_of place) places.now)) (written_so_far object.new) result }
{
    for passed in places {
        object.put(&target_bytes(place, *passed))?;
    }
    Ok(())
}

/// The number of a named type in four bytes. A number that needs more is none of a named type: its lowest bytes are taken.
fn named_bytes(named: NamedId) -> [u8; 4]
    ensures { result ≡ word named.0 }
{
    ((named.0 & 0xffff_ffff) as u32).to_be_bytes()
}

/// The number of the instruction behind so many others that stand behind this place.
fn target_bytes(place: usize, passed: usize) -> [u8; 4]
    requires place { place ≤ most_instructions }
    requires passed { passed ≤ most_instructions }
    ensures { result ≡ word (target_of place passed) }
{
    ((place + passed + 1) as u32).to_be_bytes()
}

/// The place of an operation on two ints.
fn arith_place(operation: Arith) -> u8
    ensures { result ≡ arith_number operation }
{
    match operation {
        Arith::Add => 0,
        Arith::Sub => 1,
        Arith::Mul => 2,
        Arith::Div => 3,
        Arith::Rem => 4,
    }
}

/// The place of a comparison of ints.
fn compare_place(operation: Compare) -> u8
    ensures { result ≡ compare_number operation }
{
    match operation {
        Compare::Eq => 0,
        Compare::Lt => 1,
        Compare::Le => 2,
    }
}

/// The place of a comparison of texts.
fn text_compare_place(operation: TextCompare) -> u8
    ensures { result ≡ text_compare_number operation }
{
    match operation {
        TextCompare::Eq => 0,
        TextCompare::Lt => 1,
    }
}
