// What puts and shows nodes: a store, or nodes of one's own over a store.
ghost use Rattle.std.specs.Prelude.{◌≡◌, ◌<◌, ◌≤◌, ◌+◌, ℕ, true, List, [], Some, length, take, IfOk, refl, slice_get, nat_le, nat_lt};
ghost use Rattle.std.specs.List.{list_all};
ghost use Rattle.core_terms.specs.Types.{Ty, UnitTy, BoolTy, IntTy, TextTy, PairTy, NamedTy, AuthTy, VecTy, Table, fields_at, is_length, item_types};
ghost use Rattle.core_terms.specs.Values.{Value, UnitV, BoolV, IntV, TextV, PairV, ConV, ItemsV, Values, size, depth};
ghost use Rattle.core_terms.specs.Formats.{depth_limit};
ghost use Rattle.value_store.specs.CodeNodes.{held_of, numbers_of};
ghost use Rattle.value_store.specs.Nodes.{AreSound, FormFits, form_depth, form_size, UnitNode, BoolNode, IntNode, TextNode, PairNode, ConNode, AuthNode, Node as Meant, depth_at, form_at, greatest_depth, refers_below, size_at, total_size, Lent, greatest_limit, least_limit, VecNode};
ghost use Rattle.value_store.specs.Standing.{AllStandFor, Holds, Keeps, Kind, StandsFor};

use crate::node::{DIGEST_SIZE, Held, INT_SIZE, Ref};
use crate::packed::Packed;
use crate::store::Mark;
use crate::view::View;
use core_terms::{NamedId, Tag};
use std::alloc::{AllocError, Global};

/// The number of bytes of the length in the spelling of a text.
const TEXT_LENGTH_SIZE: u32 = 4;

/// A list of nodes, behind which more are put. Each refers to earlier ones and is within the limits.
pub trait Nodes {
    ghost use Rattle.value_store.specs.Packing.{packed_nodes};
    ghost use Rattle.value_store.specs.Stores.{Puts};
    ghost use Rattle.value_store.specs.Views.{form_shown};

    /// The nodes, by number.
    ghost nodes: { Self → List Meant };

    /// What they are begun with, and keep: the greatest size of a node, and the first of them, which are another's and are never cut.
    ghost lent: { Self → Lent };

    /// Puts a node of the form that is shown, which has this size and depth. Where memory is wanting nothing is changed.
    fn put(&mut self, form: View<'_>, size: u32, depth: u32) -> Result<Ref, AllocError>
        requires refers { refers_below (length (nodes self.old)) (form_shown form) ≡ true }
        requires size { size ≡ form_size (nodes self.old) (form_shown form) }
        requires depth { depth ≡ form_depth (nodes self.old) (form_shown form) }
        requires fits { FormFits (lent self.old).limit (nodes self.old) (form_shown form) }
        ensures put { Puts (nodes self.old) (form_shown form.entry) result (nodes self.new) }
        ensures keeps { Keeps (nodes self.old) (nodes self.new) }
        ensures lent { lent self.new ≡ lent self.old };

    /// Where the node with this number stands: the list, and its number there.
    fn place(&self, r: Ref) -> (&Packed, usize)
        requires { r.0 < length (nodes self.now) }
        ensures there { result.1 < length (packed_nodes result.0.now) }
        ensures same { slice_get (packed_nodes result.0.now) result.1 ≡ slice_get (nodes self.now) r.0 };

    /// The greatest size of a node.
    fn limit(&self) -> u32
        ensures { result ≡ (lent self.now).limit };

    /// Where the nodes are kept.
    fn alloc(&self) -> Global;

    /// The place behind all nodes that stand now.
    fn mark(&self) -> Mark
        ensures { result.0 ≡ length (nodes self.now) };

    /// Drops the nodes that were put since the mark was made. Takes no memory.
    fn cut_to(&mut self, mark: Mark)
        requires there { mark.0 ≤ length (nodes self.old) }
        requires lent { length (lent self.old).nodes ≤ mark.0 }
        ensures nodes { nodes self.new ≡ take mark.0 (nodes self.old) }
        ensures keeps { (kind : Kind) (types : Table) (r : ℕ) (t : Ty) (v : Value) → r < mark.0
            → StandsFor kind types (nodes self.old) r t v → StandsFor kind types (nodes self.new) r t v }
        ensures lent { lent self.new ≡ lent self.old };

    /// Each node refers to earlier ones, keeps its size and its depth, and is within the limits.
    ghost sound: { (s : Self) → AreSound (lent s).limit (nodes s) };

    /// The limit holds each text literal.
    ghost least: { (s : Self) → least_limit ≤ (lent s).limit };

    /// No format has a greater one.
    ghost greatest: { (s : Self) → (lent s).limit ≤ greatest_limit };

    /// What is lent stands first.
    ghost first: { (s : Self) → take (length (lent s).nodes) (nodes s) ≡ (lent s).nodes };

    /// Puts the value of `unit`. Here and in the other puts, where memory is wanting nothing is changed.
    final fn put_unit(&mut self) -> Result<Ref, AllocError>
        ensures put { Puts (nodes self.old) UnitNode result (nodes self.new) }
        ensures stands { IfOk result (λ r. (kind : Kind) (types : Table) → StandsFor kind types (nodes self.new) r.0 UnitTy UnitV) }
        ensures keeps { Keeps (nodes self.old) (nodes self.new) }
        ensures lent { lent self.new ≡ lent self.old }
    {
        self.put(View::Unit, 0, 1)
    }

    /// Puts a bool.
    final fn put_bool(&mut self, value: bool) -> Result<Ref, AllocError>
        ensures put { Puts (nodes self.old) (BoolNode value) result (nodes self.new) }
        ensures stands { IfOk result (λ r. (kind : Kind) (types : Table) → StandsFor kind types (nodes self.new) r.0 BoolTy (BoolV value)) }
        ensures keeps { Keeps (nodes self.old) (nodes self.new) }
        ensures lent { lent self.new ≡ lent self.old }
    {
        self.put(View::Bool(value), 1, 1)
    }

    /// Puts an int.
    #[inline(always)]
    final fn put_int(&mut self, value: i64) -> Result<Ref, AllocError>
        ensures put { Puts (nodes self.old) (IntNode value) result (nodes self.new) }
        ensures stands { IfOk result (λ r. (kind : Kind) (types : Table) → StandsFor kind types (nodes self.new) r.0 IntTy (IntV value)) }
        ensures keeps { Keeps (nodes self.old) (nodes self.new) }
        ensures lent { lent self.new ≡ lent self.old }
    {
        self.put(View::Int(value), INT_SIZE, 1)
    }

    /// Puts a text, which is within the limits.
    final fn put_text(&mut self, text: &str) -> Result<Ref, AllocError>
        requires fits { 4 + length text.now ≤ (lent self.old).limit }
        ensures put { Puts (nodes self.old) (TextNode text.now) result (nodes self.new) }
        ensures stands { IfOk result (λ r. (kind : Kind) (types : Table) → StandsFor kind types (nodes self.new) r.0 TextTy (TextV text.now)) }
        ensures keeps { Keeps (nodes self.old) (nodes self.new) }
        ensures lent { lent self.new ≡ lent self.old }
    {
        let size = TEXT_LENGTH_SIZE + text.len() as u32;
        self.put(View::Text(text), size, 1)
    }

    /// Puts a pair of two values that stand here. The pair is within the limits.
    #[inline(always)]
    final fn put_pair(&mut self, first: Ref, second: Ref) -> Result<Ref, AllocError>
        requires first { first.0 < length (nodes self.old) }
        requires second { second.0 < length (nodes self.old) }
        requires fits { FormFits (lent self.old).limit (nodes self.old) (PairNode first.0 second.0) }
        ensures put { Puts (nodes self.old) (PairNode first.0 second.0) result (nodes self.new) }
        ensures stands { IfOk result
            (λ r. (kind : Kind) (types : Table) (a b : Ty) (x y : Value)
            → StandsFor kind types (nodes self.old) first.0 a x → StandsFor kind types (nodes self.old) second.0 b y
            → StandsFor kind types (nodes self.new) r.0 (PairTy a b) (PairV x y)) }
        ensures keeps { Keeps (nodes self.old) (nodes self.new) }
        ensures lent { lent self.new ≡ lent self.old }
    {
        let size = self.shallow_size(first) + self.shallow_size(second);
        let depth = self.shallow_depth(first).max(self.shallow_depth(second));
        self.put(View::Pair(first, second), size, 1 + depth)
    }

    /// Puts a value of a named type: the constructor with this tag, with values that stand here as its fields. It is within the
    /// limits.
    #[inline(always)]
    final fn put_constructor(
        &mut self,
        named: NamedId,
        tag: Tag,
        fields: &[Ref],
    ) -> Result<Ref, AllocError>
        requires fields { refers_below (length (nodes self.old)) (ConNode named.0 tag.0 (numbers_of fields.now)) ≡ true }
        requires fits { FormFits (lent self.old).limit (nodes self.old) (ConNode named.0 tag.0 (numbers_of fields.now)) }
        ensures put { Puts (nodes self.old) (ConNode named.0 tag.0 (numbers_of fields.now)) result (nodes self.new) }
        ensures stands { IfOk result
            (λ r. (kind : Kind) (types : Table) (ts : List Ty) (vs : Values)
            → fields_at types named.0 tag.0 ≡ Some ts → AllStandFor kind types (nodes self.old) (numbers_of fields.now) ts vs
            → StandsFor kind types (nodes self.new) r.0 (NamedTy named.0) (ConV tag.0 vs)) }
        ensures keeps { Keeps (nodes self.old) (nodes self.new) }
        ensures lent { lent self.new ≡ lent self.old }
    {
        let size = 1 + total_size(self, fields);
        let depth = 1 + greatest_depth(self, fields);
        self.put(View::Constructor(named, tag, fields), size, depth)
    }

    /// Puts an array of values that stand here, 1 to 64 of one type. It is within the limits.
    final fn put_vec(&mut self, items: &[Ref]) -> Result<Ref, AllocError>
        requires items { refers_below (length (nodes self.old)) (VecNode (numbers_of items.now)) ≡ true }
        requires count { is_length (length items.now) ≡ true }
        requires fits { FormFits (lent self.old).limit (nodes self.old) (VecNode (numbers_of items.now)) }
        ensures put { Puts (nodes self.old) (VecNode (numbers_of items.now)) result (nodes self.new) }
        ensures stands { IfOk result
            (λ r. (kind : Kind) (types : Table) (t : Ty) (vs : Values)
            → AllStandFor kind types (nodes self.old) (numbers_of items.now) (item_types (length items.now) t) vs
            → StandsFor kind types (nodes self.new) r.0 (VecTy (length items.now) t) (ItemsV vs)) }
        ensures keeps { Keeps (nodes self.old) (nodes self.new) }
        ensures lent { lent self.new ≡ lent self.old }
    {
        let size = total_size(self, items);
        let depth = 1 + greatest_depth(self, items);
        self.put(View::Items(items), size, depth)
    }

    /// Puts an authenticated value, by what is held of it. A value that is referred to stands here.
    #[inline(always)]
    final fn put_auth(&mut self, held: Held) -> Result<Ref, AllocError>
        requires inner { refers_below (length (nodes self.old)) (AuthNode (held_of held)) ≡ true }
        ensures put { Puts (nodes self.old) (AuthNode (held_of held)) result (nodes self.new) }
        ensures stands { IfOk result
            (λ r. (kind : Kind) (types : Table) (t : Ty) (v : Value)
            → Holds kind types (held_of held) t v (λ inner. StandsFor kind types (nodes self.old) inner t v)
            → StandsFor kind types (nodes self.new) r.0 (AuthTy t) v) }
        ensures keeps { Keeps (nodes self.old) (nodes self.new) }
        ensures lent { lent self.new ≡ lent self.old }
    {
        self.put(View::Auth(held), DIGEST_SIZE, 1)
    }

    /// The node with this number. Takes no memory.
    #[inline(always)]
    final fn view(&self, r: Ref) -> View<'_>
        requires { r.0 < length (nodes self.now) }
        ensures form { form_at (nodes self.now) r.0 ≡ Some (form_shown result) }
        ensures refers { refers_below r.0 (form_shown result) ≡ true }
    {
        let (packed, number) = self.place(r);
        packed.view(number)
    }

    /// The number of bytes of the spelling of what the node stands for, in constant time: 32 for an authenticated value.
    final fn shallow_size(&self, r: Ref) -> u32
        requires { r.0 < length (nodes self.now) }
        ensures kept { result ≡ size_at (nodes self.now) r.0 }
        ensures size { (kind : Kind) (types : Table) (t : Ty) (v : Value) → StandsFor kind types (nodes self.now) r.0 t v → result ≡ size types t v }
        ensures limit { result ≤ (lent self.now).limit }
    {
        let (packed, number) = self.place(r);
        packed.size(number)
    }

    /// The depth of what the node stands for, in constant time: 1 for an authenticated value.
    final fn shallow_depth(&self, r: Ref) -> u32
        requires { r.0 < length (nodes self.now) }
        ensures kept { result ≡ depth_at (nodes self.now) r.0 }
        ensures depth { (kind : Kind) (types : Table) (t : Ty) (v : Value) → StandsFor kind types (nodes self.now) r.0 t v → result ≡ depth types t v }
        ensures limit { result ≤ depth_limit }
    {
        let (packed, number) = self.place(r);
        packed.depth(number)
    }

    /// Whether the sum of the sizes of some nodes is at most `limit`.
    final fn sizes_fit(&self, refs: &[Ref], limit: u32) -> bool
        requires refs { list_all (λ r. nat_lt r (length (nodes self.now))) (numbers_of refs.now) ≡ true }
        ensures { result ≡ nat_le (total_size (nodes self.now) (numbers_of refs.now)) limit }
    {
        let mut left = limit;
        for r in refs {
            let size = self.shallow_size(*r);
            if size > left {
                return false;
            }
            left -= size;
        }
        true
    }

    /// Whether the depth of each of some nodes is at most `limit`.
    final fn depths_fit(&self, refs: &[Ref], limit: u32) -> bool
        requires refs { list_all (λ r. nat_lt r (length (nodes self.now))) (numbers_of refs.now) ≡ true }
        ensures { result ≡ nat_le (greatest_depth (nodes self.now) (numbers_of refs.now)) limit }
    {
        for r in refs {
            if self.shallow_depth(*r) > limit {
                return false;
            }
        }
        true
    }
}

/// The sum of the sizes of some nodes.
#[inline(always)]
fn total_size<N: Nodes>(store: &N, refs: &[Ref]) -> u32
    requires fits { total_size (N.nodes store.now) (numbers_of refs.now) ≤ greatest_limit }
    requires refs { list_all (λ r. nat_lt r (length (N.nodes store.now))) (numbers_of refs.now) ≡ true }
    ensures { result ≡ total_size (N.nodes store.now) (numbers_of refs.now) }
{
    let mut total = 0;
    for r in refs {
        total += store.shallow_size(*r);
    }
    total
}

/// The greatest depth of some nodes, and 0 of none.
#[inline(always)]
fn greatest_depth<N: Nodes>(store: &N, refs: &[Ref]) -> u32
    requires { list_all (λ r. nat_lt r (length (N.nodes store.now))) (numbers_of refs.now) ≡ true }
    ensures { result ≡ greatest_depth (N.nodes store.now) (numbers_of refs.now) }
{
    let mut greatest: u32 = 0;
    for r in refs {
        greatest = greatest.max(store.shallow_depth(*r));
    }
    greatest
}
