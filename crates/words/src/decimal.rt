// A word as a number.
ghost use Rattle.std.specs.Prelude.{◌≡◌};
ghost use Rattle.words.specs.Number.{digit_of, number_of};

// What an octet counts as a decimal digit; None where it is none.
#[tactic(auto, using(std::proofs::lemmas::Bool::Decides::nat_tests), unfolding(crate::specs::Number::digit_of, crate::specs::Number::is_digit))]
fn digit(b: u8) -> Option<u64>
    ensures { result ≡ digit_of b }
{
    if b.is_ascii_digit() {
        return Some(u64::from(b - b'0'));
    }
    None
}

// The word's value; None where the word is empty, has another octet than a digit, or comes to more
// than most. The value so far is at most `most` at each turn, so no sum wraps however long the word.
pub fn number(word: &[u8], most: u64) -> Option<u64>
    ensures { result ≡ number_of word.now most }
{
    if word.is_empty() {
        return None;
    }
    let mut n: u64 = 0;
    for b in word {
        let d = digit(*b)?;
        if most < d {
            return None;
        }
        if (most - d) / 10 < n {
            return None;
        }
        n = n * 10 + d;
    }
    Some(n)
}
