// Octets of an image: parts of it, numbers read and written in its DATA_ORDER, and octets written as
// they are. No table or element is known here.
//
// Any place and any length may be given. A part ends where the image ends. A number of octets that
// don't all lie inside the image, or of more than 8, is read as 0; what is to be written and doesn't
// lie inside leaves the image as it was. The calls answer no Option, and take start and octets apart,
// since docs/STATEMENTS.md states them so (number_read, put, part).
#![tactic(auto)]

ghost use Rattle.std.specs.Prelude.{◌≡◌, ◌+◌, ◌^◌, ◌<◌, ◌≤◌, min, length};
ghost use Rattle.meaning.specs.Basics.{part, number_in, octets_in};
ghost use Rattle.meaning.specs.Layout.{data_order};
ghost use Rattle.octets.specs.Octets.{number_of, number_read, put, place_of, replaced};

use basics::{ends_within, least, wide};
use offsets::ImageOffset;

// DATA_ORDER: bit 0 of the image's first octet. 0 is least significant octet first. A number and no
// enum: the definitions (data_order, number_in, octets_in) take the bit as it stands in the image.
pub fn data_order(image: &[u8]) -> u32
    ensures { result ≡ data_order image.now }
{
    match image {
        [] => 0,
        [first, ..] => wide(*first) % 2,
    }
}

// So many octets from `start` on, fewer where the image ends. They stand there in the image; a part
// that starts past the end stands at the end.
pub fn part<'a>(image: &'a [u8], start: ImageOffset, octets: usize) -> &'a [u8]
    ensures reply { result.now ≡ part image.now start.0 octets }
    ensures place { result.ref_ptr ≡ (image.entry.ref_ptr.0, image.entry.ref_ptr.1 + min start.0 (length image.now)) }
{
    let at = least(start.octet(), image.len());
    let end = at + least(octets, image.len() - at);
    &image[at..end]
}

// Which of n octets is the i-th most significant.
fn place_of(order: u32, n: usize, i: usize) -> usize
    requires { i < n }
    ensures { (result ≡ place_of order n i) × (result < n) }
{
    if order == 0 {
        return n - 1 - i;
    }
    i
}

// The number of some octets in a DATA_ORDER. The most significant octet is counted in first. By index: one
// loop for both orders, where `iter` and its `rev` would be two.
fn counted(octets: &[u8], order: u32) -> u64
    requires { length octets.now ≤ 8 }
    ensures { (result ≡ number_in order octets.now) × (result < 256 ^ length octets.now) }
{
    let mut number = 0u64;
    for i in 0..octets.len() {
        let k = place_of(order, octets.len(), i);
        number = number * 256 + wide(octets[k]) as u64;
    }
    number
}

// The number of some octets in a DATA_ORDER.
pub fn number_in(octets: &[u8], order: u32) -> u64
    ensures { (result ≡ number_of order octets.now) × (result < 256 ^ length octets.now) }
{
    if 8 < octets.len() {
        return 0;
    }
    counted(octets, order)
}

// The number of so many octets of the image, in its DATA_ORDER.
pub fn number_at(image: &[u8], start: ImageOffset, octets: usize) -> u64
    ensures { (result ≡ number_read image.now start.0 octets) × (result < 256 ^ octets) }
{
    let at = start.octet();
    if ends_within(at, octets, image.len()) {
        let end = at + octets;
        return number_in(&image[at..end], data_order(image));
    }
    0
}

// Fills `octets` with a number, least significant octet first.
fn least_first(octets: &mut [u8], value: u64)
    ensures { octets.new ≡ octets_in 0 (length octets.old) value }
{
    let mut rest = value;
    for octet in octets.iter_mut() {
        *octet = (rest % 256) as u8;
        rest /= 256;
    }
}

// Fills `octets` with a number, in a DATA_ORDER.
#[tactic(auto, using(crate::proofs::Filled::order_least, crate::proofs::Filled::order_most))]
pub fn fill(octets: &mut [u8], order: u32, value: u64)
    ensures { octets.new ≡ octets_in order (length octets.old) value }
{
    least_first(octets, value);
    if order != 0 {
        octets.reverse();
    }
}

// Copies octets over as many others. Where they aren't as many, the others stay. By index: of cells written
// through `iter_mut().zip(..)` a proof knows nothing afterwards, and for `copy_from_slice` the archive for C
// would need memmove.
pub fn copy(new: &[u8], room: &mut [u8])
    ensures { room.new ≡ replaced room.old new.now }
{
    if new.len() != room.len() {
        return;
    }
    for (i, octet) in new.iter().enumerate() {
        room[i] = *octet;
    }
}

// Puts octets in place of as many from `start` on. That the octets lie inside is tested here, in put_number
// and in number_at: with one function for the place's end, as an Option, each had a goal more to prove.
pub fn put_octets(image: &mut [u8], start: ImageOffset, new: &[u8])
    ensures { image.new ≡ put image.old start.0 new.now }
{
    let at = start.octet();
    if ends_within(at, new.len(), image.len()) {
        let end = at + new.len();
        copy(new, &mut image[at..end]);
    }
}

// Puts a number's octets, in the image's DATA_ORDER, in place of so many from `start` on.
pub fn put_number(image: &mut [u8], start: ImageOffset, octets: usize, value: u64)
    ensures { image.new ≡ put image.old start.0 (octets_in (data_order image.old) octets value) }
{
    let order = data_order(image);
    let at = start.octet();
    if ends_within(at, octets, image.len()) {
        let end = at + octets;
        fill(&mut image[at..end], order, value);
    }
}
