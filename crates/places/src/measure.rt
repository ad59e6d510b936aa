// How long a body and an item are, and the row of one item in them, for given numbers of the slots.
//
// Nothing is refused and no memory is written. The definitions have sizes without limit; here a size
// is cut at 65,536, which is past every image, so an array is measured by its count and one
// element's size.
ghost use Rattle.std.specs.Prelude.{◌≡◌, ◌+◌, ◌<◌, ◌≤◌, IfSome, length};
ghost use Rattle.meaning.specs.Description.{is_array};
ghost use Rattle.meaning.specs.Layout.{branches_in, taken, leaf_octets, value};
ghost use Rattle.meaning.specs.Ranges.{FieldsRange};
ghost use Rattle.places.specs.Rows.{Few};
ghost use Rattle.places.specs.Measuring.{numbers_in, inner_of, leaf_span, joined, array_span, BodyReady, ItemReady, BodyAs, ItemAs};

use crate::rows::{Row, cut};
use basics::bit_range;
use items::{Cursor, Read, nests};
use meaning::{Fields, Inner, Kind};

// WHAT AN ITEM COMES TO
pub(crate) fn is_array(f: Fields) -> bool
    ensures { result ≡ is_array f }
{
    f.kind == Kind::Array
}

// The value of an item's reference, where slots have these numbers; 0 for an item without one, and no None,
// as the definition (value) has it.
#[tactic(auto, unfolding(meaning::specs::Layout::value, meaning::specs::Layout::bit_range))]
pub(crate) fn value(numbers: [u32; 64], f: Fields) -> u32
    requires { FieldsRange f × (length numbers ≡ 64) }
    ensures { result ≡ value (numbers_in numbers) f }
{
    let slot = f.slot;
    if slot == 0 {
        return 0;
    }
    bit_range(numbers[slot], f.low, f.width)
}

// The octets of a UINT, BLOCK or SET.
#[tactic(auto, unfolding(meaning::specs::Layout::leaf_octets, meaning::specs::Layout::set_octets))]
fn leaf_octets(f: Fields, value: u32) -> usize
    ensures { result ≡ leaf_octets f value }
{
    let value = value as usize;
    if f.slot == 0 {
        return f.octets;
    }
    if f.flags {
        return value.div_ceil(8);
    }
    value
}

// The branch that a choice takes, whose items come next. IF: the items if true, or those if false, which
// follow them; it tells so by its fields, and no other item of the description is looked at.
#[tactic(auto, unfolding(meaning::specs::Layout::branches_in, meaning::specs::Layout::if_branches, meaning::specs::Layout::taken))]
pub(crate) fn chosen(d: &[u8], f: Fields, next: Cursor, value: u32) -> Inner
    ensures { result ≡ taken (branches_in d.now f next.at) value }
{
    if 0 < value {
        return Inner {
            skip: 0,
            items: f.first,
        };
    }
    Inner {
        skip: f.first,
        items: f.second,
    }
}

// The body that an ARRAY or a choice takes.
#[tactic(auto, unfolding(crate::specs::Measuring::inner_of))]
fn inner_of(d: &[u8], f: Fields, next: Cursor, value: u32) -> Inner
    ensures { result ≡ inner_of d.now f next.at value }
{
    if is_array(f) {
        return Inner {
            skip: 0,
            items: f.first,
        };
    }
    chosen(d, f, next, value)
}

// SIZES
// A size, and in it the row of the item asked for, if it stands there. That sizes are cut and levels are few
// (Few) is asked by clauses: how few differs, by what an ARRAY is to be added to.
#[derive(Clone, Copy)]
pub struct Span {
    pub size: usize,
    pub row: Option<Row>,
}

// What the element of item `at` takes.
#[tactic(auto, unfolding(crate::specs::Measuring::leaf_span))]
pub(crate) fn leaf_span(f: Fields, value: u32, at: usize, wanted: usize) -> Span
    ensures { result ≡ leaf_span f value at wanted }
{
    let octets = leaf_octets(f, value);
    Span {
        size: cut(octets),
        row: (at == wanted).then_some(Row::alone(octets)),
    }
}

// One after another.
fn joined(before: Span, here: Span) -> Span
    requires { (before.size ≤ 65536) × (here.size ≤ 65536) }
    ensures { result ≡ joined before here }
{
    Span {
        size: cut(before.size + here.size),
        row: before.row.or(here.row.map(|row| row.onward(before.size))),
    }
}

// An array takes count times its element's size.
fn array_span(count: u32, body: Span) -> Span
    requires { (body.size ≤ 65536) × IfSome body.row (λ row. Few 3 row.arrays) }
    ensures { result ≡ array_span count body }
{
    let Span { size, row } = body;
    Span {
        size: cut(count as usize * size),
        row: row.map(|row| row.in_array(count, size)),
    }
}

// What an item takes, and the place after it and all that is nested in it.
#[derive(Clone, Copy)]
pub struct Sized {
    pub span: Span,
    pub next: Cursor,
}

// A body is as long as its items: those from a place on, as many as said.
#[cycle(body_size_item_size)]
pub(crate) fn body_size(
    d: &[u8],
    numbers: [u32; 64],
    from: Cursor,
    items: usize,
    depth: usize,
    wanted: usize,
) -> Span
    requires { BodyReady d.now numbers from.at items depth }
    ensures { BodyAs d.now numbers from.at items depth wanted result }
{
    let end = from.item() + items;
    let mut place = from;
    let mut span = Span { size: 0, row: None };
    // The next place is past all that is nested in the item, so no range tells it.
    while place.item() < end {
        let one = item_size(d, numbers, place, depth, wanted);
        span = joined(span, one.span);
        place = one.next;
    }
    span
}

// An item is as long as its body; a choice takes only the body chosen.
#[cycle(body_size_item_size)]
pub(crate) fn item_size(
    d: &[u8],
    numbers: [u32; 64],
    place: Cursor,
    depth: usize,
    wanted: usize,
) -> Sized
    requires { ItemReady d.now numbers place.at depth }
    ensures { ItemAs d.now numbers place.at depth wanted result }
{
    let Read { fields: f, next } = place.read(d);
    let value = value(numbers, f);
    let inside = f.first + f.second;
    let after = next.past(inside);
    if nests(f) {
        let taken = inner_of(d, f, next, value);
        let body = body_size(
            d,
            numbers,
            next.past(taken.skip),
            taken.items,
            depth - 1,
            wanted,
        );
        if is_array(f) {
            return Sized {
                span: array_span(value, body),
                next: after,
            };
        }
        return Sized {
            span: body,
            next: after,
        };
    }
    Sized {
        span: leaf_span(f, value, place.item(), wanted),
        next: after,
    }
}
