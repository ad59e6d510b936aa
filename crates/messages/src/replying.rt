// A meter's replies: 00, count, data and check octet to a read; 00 alone to a write that is done; one
// octet, 01 to 04, where it refuses.
ghost use Rattle.std.specs.Prelude.{◌≡◌};
ghost use Rattle.meaning.specs.Messages.{holds, done, refuses, reply_in, short_reply, heard_by, write_reply_reply, write_reply_room};

use crate::{check, room};
use meaning::{Answer, Heard, Refusal, Reply};

// The first octet of a reply that refuses nothing, and the last of those that refuse. Numbers and no enum, as
// in requests.rt: the definition (refuses) takes the octet itself.
const GOOD: u8 = 0;

const LAST: u64 = 4;

// READING
// A reply of one octet.
fn read_short(only: u8) -> Result<Heard, Refusal>
    ensures { result ≡ heard_by (short_reply only) }
{
    if only == GOOD {
        return Ok(Heard::Done);
    }
    if only as u64 <= LAST {
        return Ok(Heard::Refused(only as u32));
    }
    Err(Refusal::NOT_A_REPLY)
}

pub(crate) fn read(reply: &[u8]) -> Result<Heard, Refusal>
    ensures { result ≡ heard_by (reply_in reply.now) }
{
    if reply.len() == 1 {
        return read_short(reply[0]);
    }
    let count = check::counted_from(reply, 1).ok_or(Refusal::NOT_A_REPLY)?;
    if reply[0] == GOOD {
        return Ok(Heard::Data { count });
    }
    Err(Refusal::NOT_A_REPLY)
}

// WRITING
pub(crate) fn send_data(new: &[u8], room: &mut [u8]) -> Reply
    ensures reply { result ≡ write_reply_reply (holds new.now) room.old }
    ensures room { room.new ≡ write_reply_room (holds new.now) room.old }
{
    if basics::both(
        new.len() <= 65535,
        basics::ends_within(4, new.len(), room.len()),
    ) {
        let behind = room::put_octet(room, 0, GOOD);
        return Ok(Answer::Total(room::put_counted(room, behind, new)));
    }
    Err(Refusal::NO_ROOM)
}

pub(crate) fn send_done(room: &mut [u8]) -> Reply
    ensures reply { result ≡ write_reply_reply done room.old }
    ensures room { room.new ≡ write_reply_room done room.old }
{
    if 1 <= room.len() {
        return Ok(Answer::Total(room::put_octet(room, 0, GOOD)));
    }
    Err(Refusal::NO_ROOM)
}

pub(crate) fn send_refusal(code: u64, room: &mut [u8]) -> Reply
    ensures reply { result ≡ write_reply_reply (refuses code) room.old }
    ensures room { room.new ≡ write_reply_room (refuses code) room.old }
{
    let fits = basics::both(1 <= code, code <= LAST);
    if basics::both(fits, 1 <= room.len()) {
        return Ok(Answer::Total(room::put_octet(room, 0, code as u8)));
    }
    Err(Refusal::NO_ROOM)
}
