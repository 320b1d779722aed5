// Spelling what a node stands for.
ghost use Rattle.std.specs.Prelude.{◌≡◌, ◌<◌, ◌^◌, ◌++◌, length, IfOk};
ghost use Rattle.std.specs.Int.{w32, to_be_bytes};
ghost use Rattle.core_terms.specs.Formats.{Hash, IsHash};
ghost use Rattle.core_terms.specs.ProgramTypes.{types_meaning};
ghost use Rattle.core_terms.specs.Projection.{digest_at, projection};
ghost use Rattle.core_terms.specs.Spelling.{spelling};
ghost use Rattle.core_terms.specs.Values.{Value};
ghost use Rattle.shallow_codec.specs.ProgramTypes.{table, ty_of};
ghost use Rattle.shallow_codec.specs.Spelled.{IsShown, IsSpelledBehind};
ghost use Rattle.value_store.specs.Standing.{ProverNodes, StandsFor, VerifierNodes};

use core_terms::{Spelling, TyId, Types};
use std::alloc::{AllocError, Global};
use value_store::{Held, Nodes, Ref, View};

/// The spelling of the shallow value of a type that the node stands for, in memory of its own: each of its authenticated parts carries a
/// digest, and what else it holds is not looked at. So of a prover's node it is the spelling of the value's projection. Takes time in
/// proportion to the parts whose spelling has a byte.
///
/// # Errors
///
/// `AllocError` where there is no memory for the spelling.
pub fn spell<N: Nodes>(
    alloc: Global,
    types: &Types,
    store: &N,
    r: Ref,
    ty: TyId,
) -> Result<Spelling, AllocError>
    requires { (v : Value) × StandsFor VerifierNodes (table types.now) (N.nodes store.now) r.0 (ty_of types.now ty) v }
    ensures spelling { IfOk result
        (λ bytes. (v : Value) → StandsFor VerifierNodes (table types.now) (N.nodes store.now) r.0 (ty_of types.now ty) v → bytes ≡ spelling v) }
    ensures projected { IfOk result
        (λ bytes. (hash : Hash) (v : Value) → IsHash hash
        → StandsFor (ProverNodes (digest_at hash (types_meaning types.now))) (table types.now) (N.nodes store.now) r.0 (ty_of types.now ty) v
        → bytes ≡ spelling (projection hash (types_meaning types.now) (ty_of types.now ty) v)) }
{
    let mut bytes = Vec::new(alloc);
    spell_into(types, store, r, ty, &mut bytes)?;
    Ok(Spelling::new(bytes))
}

/// The same spelling, in place of what a buffer held. Memory is taken where the buffer has less than the spelling needs, and no more than
/// it needs.
///
/// # Errors
///
/// `AllocError` where there is no memory for the spelling.
#[inline(always)]
pub fn spell_into<N: Nodes>(
    types: &Types,
    store: &N,
    r: Ref,
    ty: TyId,
    buffer: &mut Vec<u8>,
) -> Result<(), AllocError>
    requires { (v : Value) × StandsFor VerifierNodes (table types.now) (N.nodes store.now) r.0 (ty_of types.now ty) v }
    ensures spelling { IfOk result
        (λ _. (v : Value) → StandsFor VerifierNodes (table types.now) (N.nodes store.now) r.0 (ty_of types.now ty) v → buffer.new.items ≡ spelling v) }
    ensures projected { IfOk result
        (λ _. (hash : Hash) (v : Value) → IsHash hash
        → StandsFor (ProverNodes (digest_at hash (types_meaning types.now))) (table types.now) (N.nodes store.now) r.0 (ty_of types.now ty) v
        → buffer.new.items ≡ spelling (projection hash (types_meaning types.now) (ty_of types.now ty) v)) }
{
    buffer.clear();
    buffer.reserve_exact(store.shallow_size(r) as usize)?;
    write(store, r, buffer)?;
    Ok(())
}

/// Writes the spelling of what the node stands for behind the bytes. What is spelled by nothing is passed over at once, however many
/// units it has.
fn write<N: Nodes>(store: &N, r: Ref, bytes: &mut Vec<u8>) -> Result<(), AllocError>
    requires { IsShown (N.nodes store.now) r.0 }
    ensures { IfOk result (λ _. IsSpelledBehind (N.nodes store.now) r.0 bytes.old.items bytes.new.items) }
{
    if store.shallow_size(r) == 0 {
        return Ok(());
    }
    match store.view(r) {
        View::Unit => Ok(()),
        View::Bool(value) => bytes.extend_from_slice(&[u8::from(value)]),
        View::Int(value) => bytes.extend_from_slice(&value.to_be_bytes()),
        View::Text(text) => write_text(text, bytes),
        View::Pair(first, second) => {
            write(store, first, bytes)?;
            write(store, second, bytes)
        }
        View::Constructor(_, tag, fields) => {
            bytes.push(tag.0)?;
            for field in fields {
                write(store, *field, bytes)?;
            }
            Ok(())
        }
        View::Items(items) => {
            for item in items {
                write(store, *item, bytes)?;
            }
            Ok(())
        }
        View::Auth(Held::Both(digest, _) | Held::Only(digest)) => {
            bytes.extend_from_slice(digest.as_bytes())
        }
        View::Auth(Held::Inner(_)) => unreachable!(),
    }
}

/// Writes the length of a text in 4 bytes, and its bytes.
fn write_text(text: &str, bytes: &mut Vec<u8>) -> Result<(), AllocError>
    requires { length text.now < 2 ^ 32 }
    ensures { IfOk result (λ _. bytes.new.items ≡ bytes.old.items ++ (to_be_bytes w32 (length text.now) ++ text.now)) }
{
    let len = text.len() as u32;
    bytes.extend_from_slice(&len.to_be_bytes())?;
    bytes.extend_from_slice(text.as_bytes())
}
