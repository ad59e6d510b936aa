// The walk over a table, item by item: the dimensions are read, and what is asked for is found on
// the way. It is refused by 9 at the first UINT, BLOCK or SET outside arrays, or outermost ARRAY,
// that doesn't end inside the image.
//
// Nothing is written. An ARRAY is measured, and stepped over whole; a choice is walked through by
// the body that it takes.
ghost use Rattle.std.specs.Prelude.{◌≡◌, ◌<◌, length};
ghost use Rattle.meaning.specs.Ranges.{FieldsRange};
ghost use Rattle.meaning.specs.Layout.{value};
ghost use Rattle.meaning.specs.Numbers.{image_short};
ghost use Rattle.places.specs.Measuring.{numbers_in};
ghost use Rattle.places.specs.Walking.{Readable, noted, meets, StepReady, step_of, elsewhere, WalkItemReady, WalksItem, WalkBodyReady, WalksBody};

use crate::measure::{Span, chosen, is_array, item_size, leaf_span, value};
use crate::rows::Row;
use basics::{both, either};
use items::{Cursor, Read, is_choice};
use meaning::{Fields, Refusal};
use offsets::{ImageOffset, TableOffset, TableStart};

// The numbers of the slots with the one that a dimension sets.
fn noted(
    image: &[u8],
    numbers: [u32; 64],
    slot: usize,
    start: ImageOffset,
    octets: usize,
) -> [u32; 64]
    requires { (0 < slot) × (slot < 64) × Readable image.now start.0 octets }
    ensures { result ≡ noted image.now numbers slot start.0 octets }
{
    let mut later = numbers;
    later[slot] = octets::number_at(image, start, octets) as u32;
    later
}

// Whether so many octets at `from` hold an octet of what stands `here`, `size` octets long.
fn holds_one(here: TableOffset, size: usize, from: TableOffset, octets: usize) -> bool
    ensures { result ≡ meets here.0 size from.0 octets }
{
    let asked = from.octets();
    let piece = here.octets();
    if asked < piece {
        return both(0 < size, piece - asked < octets);
    }
    both(0 < octets, asked - piece < size)
}

// How far a walk has come in a table: the numbers of the slots, the octets walked, the row found of
// the item asked for, whether the octets asked about hold one of a dimension, and the item that is
// next.
#[derive(Clone, Copy)]
pub struct Walk {
    pub numbers: [u32; 64],
    pub octets: TableOffset,
    pub row: Option<Row>,
    pub held: bool,
    pub next: Cursor,
}

// What a walk over a table goes by: where the table starts, the item asked for, and the octets of the
// table asked about.
#[derive(Clone, Copy)]
pub struct Aim {
    pub start: TableStart,
    pub wanted: usize,
    pub from: TableOffset,
    pub octets: usize,
}

// 9: the image ends before the item at that place, from that octet on, does.
fn image_short(at: Cursor, here: ImageOffset) -> Refusal
    ensures { result ≡ image_short at.at here.0 }
{
    Refusal {
        number: 9,
        item: at.item() as u64,
        octet: here.octet() as u64,
        ..Refusal::NONE
    }
}

// A piece that ends inside the image or not: a UINT, BLOCK or SET, which may set a slot (0 is none,
// as in Fields, by which the definitions go), or a whole ARRAY. The item after it is `next`.
fn step(
    image: &[u8],
    aim: Aim,
    w: &Walk,
    piece: Span,
    slot: usize,
    next: Cursor,
) -> Result<Walk, Refusal>
    requires { StepReady image.now aim w.now piece slot }
    ensures { result ≡ step_of image.now aim w.now piece slot next }
{
    let Aim {
        start,
        from,
        octets: asked,
        ..
    } = aim;
    let Walk {
        numbers,
        octets: walked,
        row: before,
        held,
        next: at,
    } = *w;
    let Span { size, row } = piece;
    let here = start.in_image(walked);
    if image.len() - here.octet() < size {
        return Err(image_short(at, here));
    }
    let far = walked.octets();
    let octets = TableOffset::new(far + size);
    let row = before.or(row.map(|row| row.onward(far)));
    if slot == 0 {
        return Ok(Walk {
            numbers,
            octets,
            row,
            held,
            next,
        });
    }
    let dimension = holds_one(walked, size, from, asked);
    Ok(Walk {
        numbers: noted(image, numbers, slot, here, size),
        octets,
        row,
        held: either(held, dimension),
        next,
    })
}

// The value of an item's reference, as far as the walk has come. Most items have none, and then the
// numbers of the slots aren't copied.
#[tactic(auto, unfolding(meaning::specs::Layout::value))]
fn value_here(w: &Walk, f: Fields) -> u32
    requires { FieldsRange f × (length w.now.numbers ≡ 64) }
    ensures { result ≡ value (numbers_in w.now.numbers) f }
{
    if f.slot == 0 {
        return 0;
    }
    let numbers = w.numbers;
    value(numbers, f)
}

// The item at the walk's place.
#[cycle(walk_body_walk_item)]
fn walk_item(d: &[u8], image: &[u8], aim: Aim, w: &Walk, depth: usize) -> Result<Walk, Refusal>
    requires { WalkItemReady d.now image.now aim w.now depth }
    ensures { WalksItem d.now image.now aim w.now depth result }
{
    let place = w.next;
    let Read { fields: f, next } = place.read(d);
    let value = value_here(w, f);
    let inside = f.first + f.second;
    let after = next.past(inside);
    if is_choice(f) {
        let taken = chosen(d, f, next, value);
        let from = next.past(taken.skip);
        let mut inner = walk_body(d, image, aim, w, from, taken.items, depth - 1)?;
        inner.next = after;
        return Ok(inner);
    }
    if is_array(f) {
        let numbers = w.numbers;
        let all = item_size(d, numbers, place, depth, aim.wanted);
        return step(image, aim, w, all.span, 0, after);
    }
    let piece = leaf_span(f, value, place.item(), aim.wanted);
    step(image, aim, w, piece, f.sets, after)
}

// The items of a body, from a place on. The walk is lent and the place comes apart, and `inner` above is moved
// on in place: each copy of a walk takes some 350 octets of stack a level (docs/DECISIONS.md, "Stack").
#[cycle(walk_body_walk_item)]
pub(crate) fn walk_body(
    d: &[u8],
    image: &[u8],
    aim: Aim,
    w: &Walk,
    from: Cursor,
    items: usize,
    depth: usize,
) -> Result<Walk, Refusal>
    requires { WalkBodyReady d.now image.now aim (elsewhere w.now from) items depth }
    ensures { WalksBody d.now image.now aim (elsewhere w.now from) items depth result }
{
    let end = from.item() + items;
    let mut walk = *w;
    walk.next = from;
    // The next place is past all that is nested in the item, so no range tells it.
    while walk.next.item() < end {
        walk = walk_item(d, image, aim, &walk, depth)?;
    }
    Ok(walk)
}
