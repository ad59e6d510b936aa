// What the items of a description say, read from its octets at a place that moves on by whole items.
//
// Nothing is refused here: a word that is no item reads as malformed, and so does what stands past
// the last item. A place can't be made elsewhere: callers start before the first item
// and move on from there.
#![tactic(auto, unfolding(meaning::specs::Description::octets_of_code, meaning::specs::Description::table_of, meaning::specs::Description::uint_of, meaning::specs::Description::block_of, meaning::specs::Description::set_of, meaning::specs::Description::array_of, meaning::specs::Description::if_of, meaning::specs::Description::fields_of, crate::specs::Read::read_at))]

ghost use Rattle.std.specs.Prelude.{◌≡◌, ◌+◌, ◌<◌, ◌≤◌, min, if◌then◌else◌};
ghost use Rattle.meaning.specs.Basics.{bits};
ghost use Rattle.meaning.specs.Description.{item_count, word_at, own_octets, referring, malformed, names_slot, octets_of_code, table_of, uint_of, block_of, set_of, array_of, if_of, fields_of, is_choice, nests};
ghost use Rattle.items.specs.Numbered.{kind_numbered};
ghost use Rattle.items.specs.Read.{read_at};

use basics::{bit_range, wide};
use meaning::{Fields, Kind};

// Bits high..low of a word, bit 0 least significant.
fn bits(high: u32, low: u32, word: u32) -> u32
    requires { (low ≤ high) × (high < 32) }
    ensures { result ≡ bits high low word }
{
    bit_range(word, low, high + 1 - low)
}

// The four octets of an item as a word, the first most significant.
fn word_at(description: &[u8], item: usize) -> u32
    requires { item < item_count description.now }
    ensures { result ≡ word_at description.now item }
{
    let at = item * 4;
    u32::from_be_bytes([
        description[at],
        description[at + 1],
        description[at + 2],
        description[at + 3],
    ])
}

fn names_slot(word: u32) -> bool
    ensures { result ≡ names_slot word }
{
    0 < bits(27, 22, word)
}

fn octets_of_code(code: u32) -> usize
    ensures { result ≡ octets_of_code code }
{
    match code {
        0 => 1,
        1 => 2,
        _ => 4,
    }
}

// An item with octets of its own, and the slot that they set.
fn own_octets(kind: Kind, sets: usize, octets: usize) -> Fields
    ensures { result ≡ own_octets kind sets octets }
{
    Fields {
        kind,
        sets,
        octets,
        ..Fields::MALFORMED
    }
}

// An item with a reference, and the items in its bodies.
fn referring(kind: Kind, flags: bool, first: u32, second: u32, word: u32) -> Fields
    ensures { result ≡ referring kind flags first second word }
{
    Fields {
        kind,
        first: first as usize,
        second: second as usize,
        slot: bits(27, 22, word) as usize,
        low: bits(21, 17, word),
        width: bits(16, 12, word) + 1,
        flags,
        ..Fields::MALFORMED
    }
}

fn table_of(word: u32) -> Fields
    ensures { result ≡ table_of word }
{
    Fields {
        kind: Kind::Table,
        manufacturer: bits(27, 27, word),
        number: bits(26, 16, word),
        writable: bits(15, 15, word) == 1,
        first: bits(14, 0, word) as usize,
        ..Fields::MALFORMED
    }
}

fn uint_of(word: u32) -> Fields
    ensures { result ≡ uint_of word }
{
    let code = bits(27, 26, word);
    if code < 3 && bits(19, 0, word) == 0 {
        let sets = bits(25, 20, word) as usize;
        return own_octets(Kind::Uint, sets, octets_of_code(code));
    }
    Fields::MALFORMED
}

fn block_of(word: u32) -> Fields
    ensures { result ≡ block_of word }
{
    let octets = bits(27, 16, word);
    if 0 < octets && bits(15, 0, word) == 0 {
        return own_octets(Kind::Block, 0, octets as usize);
    }
    Fields::MALFORMED
}

fn set_of(word: u32) -> Fields
    ensures { result ≡ set_of word }
{
    if names_slot(word) && bits(10, 0, word) == 0 {
        return referring(Kind::Set, bits(11, 11, word) == 1, 0, 0, word);
    }
    Fields::MALFORMED
}

fn array_of(word: u32) -> Fields
    ensures { result ≡ array_of word }
{
    let items = bits(11, 0, word);
    if names_slot(word) && 0 < items {
        return referring(Kind::Array, false, items, 0, word);
    }
    Fields::MALFORMED
}

fn if_of(word: u32) -> Fields
    ensures { result ≡ if_of word }
{
    let yes = bits(11, 6, word);
    if names_slot(word) && 0 < yes {
        return referring(Kind::If, false, yes, bits(5, 0, word), word);
    }
    Fields::MALFORMED
}

// What an item says, from its word. Inlined, and read too: who looks for a field or two, as rule 6 does among
// all items before a TABLE, has no others made.
#[inline(always)]
fn fields_of(word: u32) -> Fields
    ensures { result ≡ fields_of word }
{
    match bits(31, 28, word) {
        1 => table_of(word),
        2 => uint_of(word),
        3 => block_of(word),
        4 => set_of(word),
        5 => array_of(word),
        6 => if_of(word),
        _ => Fields::MALFORMED,
    }
}

// The kind that a number names, for who holds one: 1 to 6 are document 01's. Any other is no item's, so it is
// malformed, and the two tests below say no of it as they do of 0.
#[tactic(auto, unfolding(crate::specs::Numbered::kind_numbered))]
pub fn kind_numbered(number: u32) -> Kind
    ensures { result ≡ kind_numbered number }
{
    match number {
        1 => Kind::Table,
        2 => Kind::Uint,
        3 => Kind::Block,
        4 => Kind::Set,
        5 => Kind::Array,
        6 => Kind::If,
        _ => Kind::Malformed,
    }
}

// Whether an item is a choice, which takes one of its bodies. Here and in the crates above, the tests of a
// kind that contracts speak of have their definitions' names, each a line; elsewhere a match is on the kind.
pub fn is_choice(f: Fields) -> bool
    ensures { result ≡ is_choice f }
{
    f.kind == Kind::If
}

// Whether it is an ARRAY or a choice, which count in the depth.
pub fn nests(f: Fields) -> bool
    ensures { result ≡ nests f }
{
    f.kind == Kind::Array || is_choice(f)
}

// A place in a description: before item `at`. A value and no Iterator, as document 01 names it: walks also
// step over what is nested in an item. So a loop over items moves a place on.
#[derive(Clone, Copy)]
pub struct Cursor {
    at: usize,
}

// What the item here says, and the next place.
#[derive(Clone, Copy)]
pub struct Read {
    pub fields: Fields,
    pub next: Cursor,
}

impl Cursor {
    // Before the first item.
    pub fn first() -> Cursor
        ensures { result.at ≡ 0 }
    {
        Cursor { at: 0 }
    }

    // What the item here says, and the place after it. Past the last item there is none: it reads
    // as malformed, and the place stays.
    #[inline(always)]
    pub fn read(self, description: &[u8]) -> Read
        ensures { result ≡ read_at description.now self.at }
    {
        let at = self.at;
        if at < description.len() / 4 {
            return Read {
                fields: fields_of(word_at(description, at)),
                next: Cursor { at: at + 1 },
            };
        }
        Read {
            fields: Fields::MALFORMED,
            next: self,
        }
    }

    // Past so many items: those nested in an item just read. A number that can't be counted is the
    // last that can.
    pub fn past(self, items: usize) -> Cursor
        ensures { result.at ≡ min (self.at + items) 18446744073709551615 }
    {
        Cursor {
            at: self.at.saturating_add(items),
        }
    }

    // The number of the item here.
    pub fn item(self) -> usize
        ensures { result ≡ self.at }
    {
        self.at
    }
}
