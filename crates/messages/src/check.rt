// The check octet, and data that stand in a message with their count before them and it behind them.
ghost use Rattle.std.specs.Prelude.{◌≡◌, ◌+◌, ◌%◌, ◌^◌, ◌<◌, ◌≤◌, length};
ghost use Rattle.meaning.specs.Messages.{sum_of, check_octet, number_from};
ghost use Rattle.messages.specs.Messages.{CountedAs};

// The sum of the data octets wraps at 256.
fn sum(new: &[u8]) -> u8
    ensures { result ≡ sum_of new.now % 2 ^ 8 }
{
    let mut total: u8 = 0;
    for octet in new {
        total = total.wrapping_add(*octet);
    }
    total
}

// The check octet is its two's complement.
pub(crate) fn check_octet(new: &[u8]) -> u8
    ensures { result ≡ check_octet new.now }
{
    sum(new).wrapping_neg()
}

// The number of so many octets, most significant first.
pub(crate) fn number_from(message: &[u8], at: usize, octets: usize) -> u64
    requires { (at + octets ≤ length message.now) × (octets ≤ 3) }
    ensures { (result ≡ number_from message.now at octets) × (result < 256 ^ octets) }
{
    let end = at + octets;
    octets::number_in(&message[at..end], 1)
}

// How many data stand from `at` on, up to the message's end, with their count before them and the check octet behind.
pub(crate) fn counted_from(message: &[u8], at: usize) -> Option<usize>
    requires { at ≤ 6 }
    ensures { CountedAs message.now at result }
{
    if message.len() < at + 3 {
        return None;
    }
    let count = number_from(message, at, 2) as usize;
    let end = at + 2 + count;
    if message.len() != end + 1 {
        return None;
    }
    let start = at + 2;
    if message[end] != check_octet(&message[start..end]) {
        return None;
    }
    Some(count)
}
