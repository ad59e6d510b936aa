// Texts into a reply. Each function puts a text at a place of out and answers the next place; where
// there is no room it changes nothing and answers the place itself. Out and place are no struct,
// since the clause of each public function, `IsPut`, speaks of both; and the place is no Option, as it has
// the place itself.
ghost use Rattle.std.specs.Prelude.{◌≡◌, ◌∷◌, [], ◌+◌, ◌≤◌, ◌<◌, ◌*◌, length};
ghost use Rattle.words.specs.Put.{laid, IsPut};
ghost use Rattle.words.specs.Number.{decimal_text};
ghost use Rattle.words.specs.Hex.{hex_digit, hex_pairs, hex_text};

// A text as it stands.
pub fn put_text(out: &mut [u8], at: usize, text: &[u8]) -> usize
    ensures { IsPut out.old at text.now out.new result }
{
    if out.len() < at {
        return at;
    }
    if out.len() - at < text.len() {
        return at;
    }
    let next = at + text.len();
    out[at..next].copy_from_slice(text);
    next
}

// One octet, such as a space.
pub fn put_octet(out: &mut [u8], at: usize, b: u8) -> usize
    ensures { IsPut out.old at (b ∷ []) out.new result }
{
    put_text(out, at, &[b])
}

// A number, in decimal without leading zeros.
pub fn put_number(out: &mut [u8], at: usize, n: u64) -> usize
    ensures { IsPut out.old at (decimal_text n) out.new result }
{
    let mut text = [0u8; 20];
    let k = io::decimal(n, &mut text);
    put_text(out, at, &text[..k])
}

// A hex digit as text, in lower case.
#[tactic(auto, using(std::proofs::lemmas::Bool::Decides::nat_tests), unfolding(crate::specs::Hex::hex_digit))]
fn hex_digit(d: u8) -> u8
    requires { d < 16 }
    ensures { result ≡ hex_digit d }
{
    if d < 10 {
        return b'0' + d;
    }
    87 + d
}

// The octets in hex to out, where they have room: two digits a turn, to places that are counted on. Of what
// `chunks_exact_mut` lends to be written a proof knows nothing afterwards. Not inlined: as an argument, out is
// known to be apart from octets, and several octets are written in one go; inlined in program lines, where both
// may lie in one struct, that is lost, and each octet is even read again behind the first store.
#[inline(never)]
fn hex_at(out: &mut [u8], at: usize, octets: &[u8])
    requires { at + length octets.now * 2 ≤ length out.old }
    ensures { out.new ≡ laid out.old at (hex_pairs octets.now) }
{
    let mut to = at;
    for b in octets {
        out[to] = hex_digit(*b / 16);
        out[to + 1] = hex_digit(*b % 16);
        to += 2;
    }
}

// Octets in lower-case hex, `-` for none. Half the room is compared with the count, since twice the
// count might wrap.
pub fn put_octets(out: &mut [u8], at: usize, octets: &[u8]) -> usize
    ensures { IsPut out.old at (hex_text octets.now) out.new result }
{
    if octets.is_empty() {
        return put_octet(out, at, b'-');
    }
    if out.len() < at {
        return at;
    }
    if (out.len() - at) / 2 < octets.len() {
        return at;
    }
    hex_at(out, at, octets);
    at + octets.len() * 2
}
