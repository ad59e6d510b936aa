// A message put together in the room lent, field by field: each goes behind the one before. Room and place
// are no struct: the room is the caller's, and `IsPut`, which every clause here is, speaks of both.
ghost use Rattle.std.specs.Prelude.{◌+◌, ◌≤◌, [], ◌∷◌, length};
ghost use Rattle.meaning.specs.Messages.{in_octets, counted};
ghost use Rattle.messages.specs.Messages.{IsPut};

use crate::check;

pub(crate) fn put_octet(room: &mut [u8], at: usize, octet: u8) -> usize
    requires { at + 1 ≤ length room.old }
    ensures { IsPut room.old at (octet ∷ []) room.new result }
{
    room[at] = octet;
    at + 1
}

// A number in so many octets, most significant first.
pub(crate) fn put_number(room: &mut [u8], at: usize, octets: usize, number: u64) -> usize
    requires { at + octets ≤ length room.old }
    ensures { IsPut room.old at (in_octets octets number) room.new result }
{
    let end = at + octets;
    octets::fill(&mut room[at..end], 1, number);
    end
}

fn put_octets(room: &mut [u8], at: usize, new: &[u8]) -> usize
    requires { at + length new.now ≤ length room.old }
    ensures { IsPut room.old at new.now room.new result }
{
    let end = at + new.len();
    octets::copy(new, &mut room[at..end]);
    end
}

// Count, data, check octet.
pub(crate) fn put_counted(room: &mut [u8], at: usize, new: &[u8]) -> usize
    requires { at + length new.now + 3 ≤ length room.old }
    ensures { IsPut room.old at (counted new.now) room.new result }
{
    let behind_count = put_number(room, at, 2, new.len() as u64);
    let behind_data = put_octets(room, behind_count, new);
    put_octet(room, behind_data, check::check_octet(new))
}
