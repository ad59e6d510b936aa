// Is this description sound: the one public call is `check`, at the end.
//
// Any octets get an answer: passed, or refused by 1 for their length, or by 2 to 7 with the first
// item that breaks a rule. No memory is written. The definitions say the rules flat, item by item;
// the code goes down into bodies, so that what encloses an item is at hand.
#![tactic(auto, unfolding(meaning::specs::Description::breaks1, meaning::specs::Description::breaks2, meaning::specs::Description::breaks3, meaning::specs::Description::breaks4, meaning::specs::Description::breaks5, meaning::specs::Description::is_table00, meaning::specs::Description::is_data_order, meaning::specs::Description::misplaced, meaning::specs::Description::inside, meaning::specs::Description::lowest_broken, crate::specs::Walk::noted, crate::specs::Walk::rule_of))]

ghost use Rattle.std.specs.Prelude.{◌≡◌, ◌&&◌, ◌+◌, ◌<◌, ◌≤◌, length, get_or, if◌then◌else◌};
ghost use Rattle.meaning.specs.Basics.{◌<?◌};
ghost use Rattle.meaning.specs.Ranges.{FieldsRange};
ghost use Rattle.meaning.specs.Description.{item_count, is_table, nests, is_dimension, is_table_named, is_table00, is_data_order, misplaced, count, inside, table_given, breaks1, breaks2, breaks3, breaks4, breaks5, breaks6, breaks7, lowest_broken, check_reply};
ghost use Rattle.sound.specs.Walk.{There, Known, noted, rule_of, Before, JudgedAs, CheckedAs};

use basics::wide;
use items::{Cursor, Read, nests};
use meaning::{Fields, Kind, Refusal, Round, Verdict};

// 1 where it holds.
fn count(a: bool) -> u32
    ensures { (result ≡ count a) × (result ≤ 1) }
{
    u32::from(a)
}

// WHAT AN ITEM IS
fn is_table(f: Fields) -> bool
    ensures { result ≡ is_table f }
{
    f.kind == Kind::Table
}

fn is_dimension(f: Fields) -> bool
    ensures { result ≡ is_dimension f }
{
    0 < f.sets
}

// Two numbers and no TableName, as Fields and the definition (table_given) have them.
fn is_table_named(f: Fields, manufacturer: u32, number: u32) -> bool
    ensures { result ≡ is_table_named f manufacturer number }
{
    is_table(f) && f.manufacturer == manufacturer && f.number == number
}

// WHAT EARLIER ITEMS GAVE
// The slots are kept as their octets, 0 for a slot that isn't set, as the definition (slot_octets) has
// it: the octets of slot s.
fn octets_of_slot(slots: &[u8; 64], s: usize) -> u32
    requires { s < 64 }
    ensures { (result ≡ get_or slots.now s 0) × (result < 256) }
{
    wide(slots[s])
}

// The slots with the one that f sets.
fn noted(slots: [u8; 64], f: Fields) -> [u8; 64]
    requires { FieldsRange f × (length slots ≡ 64) }
    ensures { result ≡ noted slots f }
{
    if f.sets == 0 {
        return slots;
    }
    let mut later = slots;
    let at = f.sets;
    later[at] = f.octets as u8;
    later
}

// Whether an item before `end` is that TABLE. Kept out of line: this loop runs with the square of the items, and
// by itself its three tests become one, which is guessed right. Inlined in check_body it branches on the kind and
// the manufacturer of each earlier item, and guesses them wrong where descriptions mix them.
#[inline(never)]
fn table_given(d: &[u8], end: usize, manufacturer: u32, number: u32) -> bool
    requires { end ≤ item_count d.now }
    ensures { result ≡ table_given d.now end manufacturer number }
{
    let mut place = Cursor::first();
    for _ in 0..end {
        let read = place.read(d);
        if is_table_named(read.fields, manufacturer, number) {
            return true;
        }
        place = read.next;
    }
    false
}

// THE RULES: item i, which is f with r round it, breaks them
fn breaks2(f: Fields) -> bool
    ensures { result ≡ breaks2 f }
{
    f.kind == Kind::Malformed
}

fn is_table00(f: Fields) -> bool
    ensures { result ≡ is_table00 f }
{
    is_table_named(f, 0, 0) && 0 < f.first
}

fn is_data_order(f: Fields) -> bool
    ensures { result ≡ is_data_order f }
{
    is_dimension(f) && f.octets == 1
}

fn misplaced(f: Fields, r: Round) -> bool
    ensures { result ≡ misplaced f r }
{
    (r.tables == 0 && !is_table(f))
        || (0 < r.tables && is_table(f))
        || (is_dimension(f) && 0 < r.nests)
}

fn breaks3(f: Fields, i: usize, r: Round) -> bool
    ensures { result ≡ breaks3 f i r }
{
    (i == 0 && !is_table00(f)) || (i == 1 && !is_data_order(f)) || misplaced(f, r)
}

fn breaks4(f: Fields, i: usize, r: Round) -> bool
    requires { FieldsRange f × (i ≤ 512) }
    ensures { result ≡ breaks4 f i r }
{
    r.limit < i + 1 + f.first + f.second
}

fn breaks5(f: Fields, r: Round) -> bool
    ensures { result ≡ breaks5 f r }
{
    nests(f) && 3 < r.nests
}

// Only a TABLE is looked for among the items before it: that search is what grows with the square of
// the items.
fn table_twice(d: &[u8], f: Fields, i: usize) -> bool
    requires { i ≤ item_count d.now }
    ensures { result ≡ (is_table f && table_given d.now i f.manufacturer f.number) }
{
    if is_table(f) {
        let manufacturer = f.manufacturer;
        let number = f.number;
        return table_given(d, i, manufacturer, number);
    }
    false
}

// Whether the slot that f sets is set already.
fn slot_taken(f: Fields, slots: &[u8; 64]) -> bool
    requires { FieldsRange f × (length slots.now ≡ 64) }
    ensures { result ≡ (is_dimension f && 0 <? get_or slots.now f.sets 0) }
{
    let sets = f.sets;
    is_dimension(f) && 0 < octets_of_slot(slots, sets)
}

// What is known of the slots (Known), and that the item is there (There), is asked by clauses: it speaks of the
// description and the item as well, which a struct of the slots would have to carry for the proof alone.
fn breaks6(d: &[u8], f: Fields, i: usize, slots: &[u8; 64]) -> bool
    requires { There d.now i × FieldsRange f × Known d.now i slots.now }
    ensures { result ≡ breaks6 d.now f i }
{
    table_twice(d, f, i) || slot_taken(f, slots)
}

fn breaks7(d: &[u8], f: Fields, i: usize, slots: &[u8; 64]) -> bool
    requires { FieldsRange f × Known d.now i slots.now }
    ensures { result ≡ breaks7 d.now f i }
{
    let slot = f.slot;
    0 < slot && 8 * octets_of_slot(slots, slot) < f.low + f.width
}

// The lowest number of the rules that item i breaks; none where it keeps them all, of which the
// definition makes 0.
fn lowest_broken(d: &[u8], f: Fields, i: usize, r: Round, slots: &[u8; 64]) -> Option<u32>
    requires { There d.now i × FieldsRange f × Known d.now i slots.now }
    ensures { result ≡ rule_of (lowest_broken d.now f i r) }
{
    if breaks2(f) {
        return Some(2);
    }
    if breaks3(f, i, r) {
        return Some(3);
    }
    if breaks4(f, i, r) {
        return Some(4);
    }
    if breaks5(f, r) {
        return Some(5);
    }
    if breaks6(d, f, i, slots) {
        return Some(6);
    }
    if breaks7(d, f, i, slots) {
        return Some(7);
    }
    None
}

// THE CHECK
// The item at a place, and the next place; or the lowest rule that the item breaks.
fn judge(d: &[u8], place: Cursor, r: Round, slots: &[u8; 64]) -> Result<Read, Refusal>
    requires { There d.now (place.at + 1) × Known d.now place.at slots.now }
    ensures { JudgedAs d.now place.at r result }
{
    let read = place.read(d);
    let item = place.item();
    match lowest_broken(d, read.fields, item, r, slots) {
        None => Ok(read),
        Some(rule) => Err(Refusal {
            number: rule as u64,
            item: item as u64,
            ..Refusal::NONE
        }),
    }
}

// Inside item f too, in its body that ends before item `end`.
fn inside(f: Fields, end: usize, r: Round) -> Round
    requires { (r.tables ≤ 5) × (r.nests ≤ 5) }
    ensures { result ≡ inside f end r }
{
    Round {
        limit: end,
        tables: count(is_table(f)) + r.tables,
        nests: count(nests(f)) + r.nests,
    }
}

// A body ends at `place`, with these slots set.
#[derive(Clone, Copy)]
struct Checked {
    place: Cursor,
    slots: [u8; 64],
}

// Checks a body from a place on, item by item, and goes down into the bodies of its items: where it
// ends, or the first item that breaks a rule. Round its items stands r, `slots` are set so far, and
// `levels` more levels may stand inside: 5 at the top, where a TABLE's body takes the first.
fn check_body(
    d: &[u8],
    from: Cursor,
    slots: [u8; 64],
    r: Round,
    levels: usize,
) -> Result<Checked, Refusal>
    requires { Before d.now from.at slots r levels }
    ensures { CheckedAs d.now from.at r.limit result }
{
    let mut place = from;
    let mut set = slots;
    // No `for`: the next place is past all that is nested in an item.
    while place.item() < r.limit {
        let judged = judge(d, place, r, &set)?;
        let f = judged.fields;
        let next = judged.next;
        let known = noted(set, f);
        if f.first + f.second == 0 {
            place = next;
            set = known;
            continue;
        }
        let middle = next.item() + f.first;
        let first = check_body(d, next, known, inside(f, middle, r), levels - 1)?;
        let second = check_body(
            d,
            first.place,
            first.slots,
            inside(f, middle + f.second, r),
            levels - 1,
        )?;
        place = second.place;
        set = second.slots;
    }
    Ok(Checked { place, slots: set })
}

fn breaks1(d: &[u8]) -> bool
    ensures { result ≡ breaks1 d.now }
{
    let n = d.len();
    n == 0 || 2048 < n || 0 < n % 4
}

// Whether a description is sound. Nothing is asked of its octets.
pub fn check(description: &[u8]) -> Verdict
    ensures { result ≡ check_reply description.now }
{
    if breaks1(description) {
        return Err(Refusal::DESCRIPTION_LENGTH);
    }
    let top = Round {
        limit: description.len() / 4,
        tables: 0,
        nests: 0,
    };
    check_body(description, Cursor::first(), [0u8; 64], top, 5)?;
    Ok(())
}
