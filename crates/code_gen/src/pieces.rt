// Pieces of code, added behind what is there. The program is passed to say what its types stand for.
ghost use Rattle.std.specs.Prelude.{◌≡◌, ◌∷◌, [], OnOk};
ghost use Rattle.core_terms.specs.Programs.{meaning};
ghost use Rattle.core_terms.specs.Texts.{bytes_of};
ghost use Rattle.code_gen.specs.CodeTrees.{Adds, listed, single};
ghost use Rattle.core_terms.specs.GeneratedCode as meant;
ghost use Rattle.core_terms.specs.Instructions as instruction;

use core_terms::{Instruction, NamedId, Program, Text};
use std::alloc::{AllocError, Global};

/// Adds an instruction.
pub(crate) fn put(
    code: &mut Vec<Instruction>,
    program: &Program,
    instruction: Instruction,
) -> Result<(), AllocError>
    ensures { OnOk result (Adds program.now code.old.items code.new.items (single program.now instruction)) }
{
    code.push(instruction)?;
    Ok(())
}

/// Adds instructions.
pub(crate) fn append(
    code: &mut Vec<Instruction>,
    program: &Program,
    more: Vec<Instruction>,
) -> Result<(), AllocError>
    ensures { OnOk result (Adds program.now code.old.items code.new.items (listed program.now more.items)) }
{
    let mut more = more;
    code.append(&mut more)?;
    Ok(())
}

/// Adds a text literal of the same bytes.
pub(crate) fn put_text(
    code: &mut Vec<Instruction>,
    program: &Program,
    text: &Text,
    alloc: Global,
) -> Result<(), AllocError>
    ensures { OnOk result (Adds program.now code.old.items code.new.items (instruction.PushText (bytes_of text.now) ∷ [])) }
{
    let copy = text.copied(alloc)?;
    put(code, program, Instruction::PushText(copy))
}

/// Adds the end of an arm: its fields are dropped, where the constructor has any.
pub(crate) fn put_unbind(
    code: &mut Vec<Instruction>,
    program: &Program,
    named: NamedId,
    tag: usize,
) -> Result<(), AllocError>
    ensures { OnOk result (Adds program.now code.old.items code.new.items (meant.unbind_code (meant.field_count (meaning program.now).types named.0 tag))) }
{
    match field_count(program, named, tag) {
        0 => Ok(()),
        count => put(code, program, Instruction::Unbind(count)),
    }
}

/// The number of fields of a constructor by its number, 0 where there is none.
fn field_count(program: &Program, named: NamedId, tag: usize) -> usize
    ensures { result ≡ meant.field_count (meaning program.now).types named.0 tag }
{
    let Some(declared) = program.named_types().get(named.0) else {
        return 0;
    };
    match declared.constructors.get(tag) {
        Some(constructor) => constructor.fields.len(),
        None => 0,
    }
}

/// Adds a choice: where the test is false, the first side and the jump behind it are passed over.
pub(crate) fn choose(
    code: &mut Vec<Instruction>,
    program: &Program,
    first: Vec<Instruction>,
    other: Vec<Instruction>,
) -> Result<(), AllocError>
    ensures { OnOk result (Adds program.now code.old.items code.new.items (meant.if_code [] (listed program.now first.items) (listed program.now other.items))) }
{
    put(code, program, Instruction::Branch(first.len() + 1))?;
    append(code, program, first)?;
    put(code, program, Instruction::Jump(other.len()))?;
    append(code, program, other)
}
