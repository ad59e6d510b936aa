// Replies, put together at the start of out, word by word: a word stands behind a space unless it is
// the first. `out` and the place in it are no struct, as in crate words: the clauses (IsPut) speak of both.
ghost use Rattle.std.specs.Prelude.{map, ◌+◌, ◌*◌, ◌≤◌, length, []};
ghost use Rattle.words.specs.Put.{IsPut};
ghost use Rattle.words.specs.Number.{decimal_text};
ghost use Rattle.words.specs.Hex.{hex_text};
ghost use Rattle.lines.specs.Answer.{no_form, space_at, behind, hex_behind, add_words, Replied};

// The reply to a line of no form.
pub fn no_form(out: &mut [u8]) -> usize
    requires { 2 ≤ length out.old }
    ensures { Replied out.old no_form out.new result }
{
    words::put_text(out, 0, b"?\n")
}

// The space before a word, where one is due.
fn put_space(out: &mut [u8], at: usize) -> usize
    requires { at + 1 ≤ length out.old }
    ensures { IsPut out.old at (space_at at) out.new result }
{
    if at == 0 {
        return at;
    }
    words::put_octet(out, at, b' ')
}

// A number. None has more than 20 digits, so 21 octets suffice.
fn put_number(out: &mut [u8], at: usize, n: u64) -> usize
    requires { at + 21 ≤ length out.old }
    ensures { IsPut out.old at (behind at (decimal_text n)) out.new result }
{
    let to = put_space(out, at);
    words::put_number(out, to, n)
}

// Numbers, at most six, at the start of out.
pub fn put_numbers(out: &mut [u8], numbers: &[u64]) -> usize
    requires numbers_few { length numbers.now ≤ 6 }
    requires in_bounds { 126 ≤ length out.old }
    ensures { IsPut out.old 0 (add_words [] (map decimal_text numbers.now)) out.new result }
{
    let mut at = 0;
    for n in numbers {
        at = put_number(out, at, *n);
    }
    at
}

// A word of octets, in hex.
pub fn put_octets(out: &mut [u8], at: usize, octets: &[u8]) -> usize
    requires { at + 2 * length octets.now + 2 ≤ length out.old }
    ensures { IsPut out.old at (behind at (hex_text octets.now)) out.new result }
{
    let to = put_space(out, at);
    words::put_octets(out, to, octets)
}

// A word of octets, where the reply has it: a flag and no Option, as the row's form and the definition
// (hex_behind) have it.
pub fn put_octets_if(out: &mut [u8], at: usize, there: bool, octets: &[u8]) -> usize
    requires { at + 2 * length octets.now + 2 ≤ length out.old }
    ensures { IsPut out.old at (hex_behind at there octets.now) out.new result }
{
    if !there {
        return at;
    }
    put_octets(out, at, octets)
}
