// Why there is no such element, or no such number: 22, 26, 24, then from the outside in 23 for a
// branch and 25 for a subscript.
//
// Told by the description and the numbers of its dimensions, once the image is laid out. Counts
// include nested items, so what stands round an item is found among the items before it, and comes
// outside in. No memory is written.
ghost use Rattle.std.specs.Prelude.{◌≡◌, ◌&&◌, ◌<◌, ◌≤◌, length, get_or};
ghost use Rattle.meaning.specs.Basics.{◌≤?◌, ◌=?◌};
ghost use Rattle.meaning.specs.Description.{item_count, is_element, is_array, is_uint, count};
ghost use Rattle.meaning.specs.Numbers.{subscript_too_large};
ghost use Rattle.meaning.specs.Ranges.{FieldsRange};
ghost use Rattle.meaning.specs.Causes.{encloses, arrays_round, in_branch, is_one, subscripts_of, in_the_way, suits, why_none};
ghost use Rattle.items.specs.Read.{read_at};
ghost use Rattle.places.specs.Measuring.{numbers_in};
ghost use Rattle.places.specs.Reasons.{step_in, refusal_in};

use crate::measure::{chosen, is_array, value};
use basics::{both, either};
use items::{Cursor, Read, is_choice};
use meaning::{ElementName, Fields, Inner, Kind, Refusal};

fn is_uint(f: Fields) -> bool
    ensures { result ≡ is_uint f }
{
    f.kind == Kind::Uint
}

// An element is a UINT, BLOCK or SET.
fn is_element(f: Fields) -> bool
    ensures { result ≡ is_element f }
{
    matches!(f.kind, Kind::Uint | Kind::Block | Kind::Set)
}

// Whether an item, at its place, encloses a later one.
fn encloses(f: Fields, at: usize, item: usize) -> bool
    requires { FieldsRange f × (at < item) }
    ensures { result ≡ encloses f at item }
{
    item - at <= f.first + f.second
}

// 1 for an ARRAY that encloses the item.
fn one_round(f: Fields, at: usize, item: usize) -> usize
    requires { FieldsRange f × (at < item) }
    ensures { (result ≡ count (is_array f && encloses f at item)) × (result ≤ 1) }
{
    usize::from(both(is_array(f), encloses(f, at, item)))
}

// How many ARRAYs stand round an item.
fn arrays_round(d: &[u8], item: usize) -> usize
    requires { item < item_count d.now }
    ensures { result ≡ arrays_round d.now item item }
{
    let mut place = Cursor::first();
    let mut arrays = 0;
    for at in 0..item {
        let read = place.read(d);
        arrays += one_round(read.fields, at, item);
        place = read.next;
    }
    arrays
}

// The subscript at a depth; 0 past the count, and past the four places, and no None: the definition
// (subscripts_of) is asked so.
fn subscript_at(name: ElementName, depth: usize) -> usize
    ensures { result ≡ get_or (subscripts_of name) depth 0 }
{
    if name.count <= depth {
        return 0;
    }
    name.subscripts.get(depth).copied().unwrap_or(0)
}

// Whether an item stands in that branch of the choice at item `at`, which encloses it.
fn in_branch(at: usize, branch: Inner, item: usize) -> bool
    requires { at < item }
    ensures { result ≡ in_branch at branch item }
{
    let inside = item - at - 1;
    if inside < branch.skip {
        return false;
    }
    inside - branch.skip < branch.items
}

// 25 tells the depth.
fn too_large(depth: usize) -> Refusal
    ensures { result ≡ subscript_too_large depth }
{
    Refusal {
        number: 25,
        depth: depth as u64,
        ..Refusal::NONE
    }
}

// Past the item at a place, with so many ARRAYs outside it: how many stand outside what follows, or
// the item is in the way.
fn step_in(
    d: &[u8],
    numbers: [u32; 64],
    name: ElementName,
    place: Cursor,
    depth: usize,
) -> Result<usize, Refusal>
    requires { (depth ≤ place.at) × (place.at < name.item) × (name.item < item_count d.now) }
    ensures { result ≡ step_in d.now (numbers_in numbers) name place.at depth }
{
    let item = name.item;
    let at = place.item();
    let Read { fields: f, next } = place.read(d);
    let round = encloses(f, at, item);
    let value = value(numbers, f);
    if both(is_array(f), round) {
        if subscript_at(name, depth) < value as usize {
            return Ok(depth + 1);
        }
        return Err(too_large(depth));
    }
    if both(is_choice(f), round) {
        if in_branch(at, chosen(d, f, next, value), item) {
            return Ok(depth);
        }
        return Err(Refusal::BRANCH_NOT_CHOSEN);
    }
    Ok(depth)
}

// From the outside in: refused by the first item in the way.
fn in_the_way(d: &[u8], numbers: [u32; 64], name: ElementName) -> Result<(), Refusal>
    requires { name.item < item_count d.now }
    ensures { refusal_in result ≡ in_the_way d.now (numbers_in numbers) name.item (subscripts_of name) name.item 0 0 }
{
    let mut place = Cursor::first();
    let mut depth = 0;
    for _ in 0..name.item {
        depth = step_in(d, numbers, name, place, depth)?;
        place = place.past(1);
    }
    Ok(())
}

// The item of that name, or what is read past the last.
fn item_named(d: &[u8], name: ElementName) -> Fields
    ensures { result ≡ (read_at d.now name.item).fields }
{
    Cursor::first().past(name.item).read(d).fields
}

// A number is asked of a UINT alone.
pub(crate) fn suits(d: &[u8], name: ElementName, number: bool) -> bool
    ensures { result ≡ suits number d.now name }
{
    either(!number, is_uint(item_named(d, name)))
}

// The item is an element; one past the last is none.
fn is_one(d: &[u8], name: ElementName) -> bool
    ensures { result ≡ is_one d.now name }
{
    is_element(item_named(d, name))
}

// As many subscripts as ARRAYs, and no more than there are places.
fn is_counted(name: ElementName, arrays: usize) -> bool
    ensures { result ≡ (name.count ≤? 4 && length (subscripts_of name) =? arrays) }
{
    both(name.count <= 4, name.count == arrays)
}

// The first cause; NONE where nothing is in the way, as the definition (why_none) has it.
pub(crate) fn why_none(d: &[u8], numbers: [u32; 64], name: ElementName, number: bool) -> Refusal
    ensures { result ≡ why_none number d.now (numbers_in numbers) name }
{
    if !is_one(d, name) {
        return Refusal::NOT_AN_ELEMENT;
    }
    if !suits(d, name, number) {
        return Refusal::NOT_A_NUMBER;
    }
    if !is_counted(name, arrays_round(d, name.item)) {
        return Refusal::SUBSCRIPT_COUNT;
    }
    match in_the_way(d, numbers, name) {
        Err(r) => r,
        Ok(()) => Refusal::NONE,
    }
}
