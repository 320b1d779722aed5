// Writing the image of a value that stands in a store.
mod first_nodes;
mod numbers;
pub(crate) mod record;
pub(crate) mod records;

ghost use Rattle.std.specs.Prelude.{◌≡◌, true, ◌<◌, ◌≤◌, ◌∷◌, ◌++◌, [], length, IfOk, OnOk};
ghost use Rattle.value_store.specs.Markings.{HasLimit};
ghost use Rattle.core_terms.specs.ProgramTypes.{types_meaning};
ghost use Rattle.core_terms.specs.Types.{Table, Ty, has_numbers};
ghost use Rattle.core_terms.specs.Values.{Value};
ghost use Rattle.images.specs.Images.{image_of, Root};
ghost use Rattle.images.specs.Saves.{IsSaved};
ghost use Rattle.images.specs.SavedImages.{distinct, saved_image, walk};
ghost use Rattle.images.specs.LoadedRoots.{IsStateAt};
ghost use Rattle.images.specs.KeptNodes.{AreKeptFor};
ghost use Rattle.images.specs.Reached.{AllReached};
ghost use Rattle.images.specs.SavedRecords.{AreSaved, node_numbers};
ghost use Rattle.images.specs.Frames.{frame_of};
ghost use Rattle.value_store.specs.Standing.{IdealNodes, StandsFor};
ghost use Rattle.value_store.specs.Stores.{nodes_in, store_lent};

use crate::SaveFault;
use crate::header::write_header;
use core_terms::{Digest, Types};
use record::part;
use records::Records;
use std::alloc::{AllocError, Global};
use value_store::{Nodes, Ref, Store};

/// The greatest number of bytes of the records of an image that is written.
const MOST_BYTES: usize = 67_108_824;

/// The image of the state that a node stands for: the distinct parts of the value, each once, in the order in which a walk that visits
/// parts from left to right before the whole first completes them. The node is read over ideal nodes or the prover's, in a store with
/// the limit of the types' format. What is written loads to the state again.
///
/// # Errors
///
/// `TooLong` exactly where the image has more than 67,108,864 bytes, and `NoMemory` where there is no memory for it.
pub fn save_image(
    alloc: Global,
    types: &Types,
    text_digest: &Digest,
    store: &Store,
    root: Ref,
) -> Result<Vec<u8>, SaveFault>
    requires limit { HasLimit (types_meaning types.now) (store_lent store.now) }
    requires state { (v : Value) × IsStateAt (types_meaning types.now) store.now root v }
    ensures saved { (v : Value) → IsStateAt (types_meaning types.now) store.now root v → IsSaved (saved_image (types_meaning types.now) text_digest.now.0 v) result }
    ensures loads { (v : Value) → IsStateAt (types_meaning types.now) store.now root v → IfOk result (λ image. image_of (types_meaning types.now) text_digest.now.0 image.items ≡ Root v) }
{
    let digest = text_digest.as_bytes();
    let records = records_of(alloc, store, root, MOST_BYTES, false)?;
    let mut image = write_header(alloc, types, digest, records.count() as u32)?;
    records.write(&mut image)?;
    Ok(image)
}

/// A node on the way to its record, with the number of its parts, from the first on, that have theirs.
#[derive(Clone, Copy)]
struct Frame {
    node: Ref,
    next: usize,
}

/// The records of what a node stands for, each once, where all have no more than so many bytes. Nodes on the way to their records wait in
/// a list, so the depth of the value costs no stack; a node that has its record is not walked again. The first node of each record is kept
/// where it is asked for.
pub(crate) fn records_of(
    alloc: Global,
    store: &Store,
    root: Ref,
    most: usize,
    keeps_nodes: bool,
) -> Result<Records, SaveFault>
    requires { root.0 < length (nodes_in store.now) }
    ensures saved { (types : Table) (t : Ty) (v : Value) → has_numbers types ≡ true → StandsFor IdealNodes types (nodes_in store.now) root.0 t v
        → AreSaved most types (distinct [] (walk types t v)) result }
    ensures reached { keeps_nodes ≡ true → IfOk result (λ records. AllReached (nodes_in store.now) root.0 (node_numbers records)) }
    ensures kept { keeps_nodes ≡ true → (types : Table) (t : Ty) (v : Value) → has_numbers types ≡ true → StandsFor IdealNodes types (nodes_in store.now) root.0 t v
        → IfOk result (λ records. AreKeptFor types (nodes_in store.now) (distinct [] (walk types t v)) records) }
{
    let mut records = Records::new(alloc, most, keeps_nodes);
    let mut frames = Vec::new(alloc);
    add(&mut frames, root, 0)?;
    while let Some(frame) = frames.pop() {
        let view = store.view(frame.node);
        match part(view, frame.next) {
            Some(part) => {
                add(&mut frames, frame.node, frame.next + 1)?;
                if records.number_of(part).is_none() {
                    add(&mut frames, part, 0)?;
                }
            }
            None => records.add(frame.node, view)?,
        }
    }
    Ok(records)
}

/// Adds a node that waits for its record, and so many of whose parts have theirs.
fn add(frames: &mut Vec<Frame>, node: Ref, next: usize) -> Result<(), AllocError>
    ensures { OnOk result (frames.new.items ≡ frames.old.items ++ frame_of node next ∷ []) }
{
    frames.push(Frame { node, next })?;
    Ok(())
}
