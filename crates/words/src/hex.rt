// A word as octets.
ghost use Rattle.std.specs.Prelude.{◌≡◌, true, ◌*◌, ◌≤◌, ◌<◌, length};
ghost use Rattle.words.specs.Hex.{is_hex, hex_value, all_hex, octets_of, OctetsRead};
ghost use Rattle.words.specs.Put.{laid};

// Whether an octet is a hex digit, `0` to `9` or `a` to `f`.
#[tactic(auto, using(std::proofs::lemmas::Bool::Decides::nat_tests), unfolding(crate::specs::Hex::is_hex))]
fn is_hex(b: u8) -> bool
    ensures { result ≡ is_hex b }
{
    matches!(b, b'0'..=b'9' | b'a'..=b'f')
}

// What a hex digit counts.
#[tactic(auto, using(std::proofs::lemmas::Bool::Decides::nat_tests), unfolding(crate::specs::Hex::is_hex, crate::specs::Hex::hex_value))]
fn hex_value(b: u8) -> u8
    requires { is_hex b ≡ true }
    ensures value { result ≡ hex_value b }
    ensures upper_bound { result < 16 }
{
    match b {
        b'0'..=b'9' => b - b'0',
        _ => b - b'a' + 10,
    }
}

// Whether all octets of a piece are hex digits. No `all`, and `&=`: a loop that may end early takes one octet a
// turn, and this one sixteen.
fn piece_hex(piece: &[u8]) -> bool
    ensures { result ≡ all_hex piece.now }
{
    let mut all = true;
    for b in piece {
        all &= is_hex(*b);
    }
    all
}

// The first pass: whether every octet is a hex digit. It ends at the first piece that has another. A piece has
// sixty-four, since a loop over sixteen is written out octet by octet.
fn all_hex(word: &[u8]) -> bool
    ensures { result ≡ all_hex word.now }
{
    let (pieces, rest) = word.as_chunks::<64>();
    pieces.iter().all(|piece| piece_hex(piece)) && rest.iter().all(|b| is_hex(*b))
}

// The second pass, over a word that the first has judged: its octets to the start of out.
fn fill(word: &[u8], out: &mut [u8], count: usize)
    requires word_value { all_hex word.now ≡ true }
    requires word_len { length word.now ≡ count * 2 }
    requires count_in_bounds { count ≤ length out.old }
    ensures { out.new ≡ laid out.old 0 (octets_of word.now) }
{
    // By index: `zip` with `chunks_exact(2)` was tried, and left its goals open.
    for i in 0..count {
        let high = hex_value(word[i * 2]);
        let low = hex_value(word[i * 2 + 1]);
        out[i] = high * 16 + low;
    }
}

// How many octets the word stands for, with out starting with them; None, and out unchanged, where
// the word is none of octets or out has no room.
pub fn octets(word: &[u8], out: &mut [u8]) -> Option<usize>
    ensures { OctetsRead word.now out.old out.new result }
{
    let count = word.len() / 2;
    if word.len() == 1 {
        if word[0] == b'-' {
            return Some(0);
        }
        return None;
    }
    if word.len() < 2 {
        return None;
    }
    if word.len() % 2 != 0 {
        return None;
    }
    if !all_hex(word) {
        return None;
    }
    if out.len() < count {
        return None;
    }
    fill(word, out, count);
    Some(count)
}
