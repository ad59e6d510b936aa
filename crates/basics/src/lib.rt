// The few words that the layers share: tests joined, an octet as a number, bits of a number, the lesser
// of two, and whether octets end within a size.
//
// `a && b` is the plain form, and stands wherever the check goes its ways by itself. In an `if` it leaves
// two ways to its `else`, and some proofs in places and messages have to go both; these have one. In dates and
// records they are there for speed as well: each `&&` would be a guess of its own.
#![tactic(auto)]

ghost use Rattle.std.specs.Prelude.{◌≡◌, ◌&&◌, ◌||◌, ◌+◌, ◌/◌, ◌%◌, ◌^◌, ◌<◌, min, leb};

pub fn both(a: bool, b: bool) -> bool
    ensures { result ≡ (a && b) }
{
    a && b
}

pub fn either(a: bool, b: bool) -> bool
    ensures { result ≡ (a || b) }
{
    a || b
}

// A cast with a name, and no `u32::from`: what reads an octet through it need not show that the octet fits.
pub fn wide(x: u8) -> u32
    ensures { (result ≡ x) × (result < 256) }
{
    x as u32
}

// So many bits from bit `low` up, bit 0 least significant. A bit past 31 is 0, as the number has none.
pub fn bit_range(number: u32, low: u32, width: u32) -> u32
    ensures { result ≡ number / 2 ^ low % 2 ^ width }
{
    if 31 < low {
        return 0;
    }
    let above = number as u64 >> low;
    if 31 < width {
        return above as u32;
    }
    let m = 1u64 << width;
    (above % m) as u32
}

// The library's `min`, by the name that docs/STATEMENTS.md has: octets::part and places' `cut` go through it.
pub fn least(a: usize, b: usize) -> usize
    ensures { result ≡ min a b }
{
    a.min(b)
}

// Whether so many octets from `at` on end within a size.
pub fn ends_within(at: usize, octets: usize, size: usize) -> bool
    ensures { result ≡ leb (at + octets) size }
{
    at.checked_add(octets).is_some_and(|end| end <= size)
}
