// The C12.18 requests of document 02's E2: a meter's answer to a request, over the tables of a
// description and an image; and requests and replies, read and written.
//
// Any octets may be lent as a request or a reply. A message is put into the room lent, from its first
// octet on; where it doesn't fit, or a number doesn't fit its field, the call is refused by 21 and
// changes no octet. What a request asks of the tables is asked of the layers below. A write's reply
// is one octet, so that it fits is known before the write is made.
#![tactic(auto, unfolding(meaning::specs::Messages::code_of, meaning::specs::Messages::request_of, meaning::specs::Messages::request_sent, meaning::specs::Messages::request_room, meaning::specs::Messages::reply_of, meaning::specs::Messages::reply_sent, meaning::specs::Messages::reply_room, crate::specs::Messages::verdict_answer, crate::specs::Messages::place_answer))]

mod check;
mod replying;
mod requests;
mod room;

ghost use Rattle.std.specs.Prelude.{◌≡◌, ◌+◌};
ghost use Rattle.meaning.specs.Messages.{request_in, requested_by, request_data, request_told, reply_in, heard_by, reply_data, reply_told, request_of, request_sent, request_room, reply_of, reply_sent, reply_room, code_of, serve_reply, serve_image, serve_room, write_reply_reply, write_reply_room};
ghost use Rattle.messages.specs.Messages.{verdict_answer, place_answer};

use meaning::{Heard, Place, Refusal, Reply, Requested, Verdict};
use offsets::TableOffset;

// A manufacturer table's id is its number plus this.
const MANUFACTURER: u32 = 2048;

// The tables' 13 replies 03, any other of theirs 04. The octet itself, as the definition (code_of) has it.
fn code_of(refusal: Refusal) -> u64
    ensures { result ≡ code_of refusal }
{
    match refusal.number {
        13 => 3,
        _ => 4,
    }
}

// What a write replies.
fn reply_verdict(verdict: Verdict, room: &mut [u8]) -> Reply
    ensures reply { result ≡ write_reply_reply (verdict_answer verdict) room.old }
    ensures room { room.new ≡ write_reply_room (verdict_answer verdict) room.old }
{
    match verdict {
        Ok(()) => replying::send_done(room),
        Err(r) => replying::send_refusal(code_of(r), room),
    }
}

// What a read replies: the octets at a place.
fn reply_part(image: &[u8], place: Place, room: &mut [u8]) -> Reply
    ensures reply { result ≡ write_reply_reply (place_answer image.now place) room.old }
    ensures room { room.new ≡ write_reply_room (place_answer image.now place) room.old }
{
    match place {
        Ok(at) => replying::send_data(octets::part(image, at.start, at.length), room),
        Err(r) => replying::send_refusal(code_of(r), room),
    }
}

// THE PUBLIC CALLS
// Reads a request: what it asks for, or the octet that refuses it.
pub fn read_request(request: &[u8]) -> Result<Requested, u32>
    ensures { result ≡ requested_by (request_in request.now) }
{
    requests::read(request)
}

// A request's data, as a part of it; empty, and no None, but in a write: so crate unique states it, by the
// definition request_data.
pub fn request_data<'a>(request: &'a [u8]) -> &'a [u8]
    ensures reply { result.now ≡ request_data (request_in request.now) }
    ensures place { result.ref_ptr ≡ (request.entry.ref_ptr.0, request.entry.ref_ptr.1 + (request_told (requested_by (request_in request.now))).start) }
{
    match requests::read(request) {
        Ok(Requested::FullWrite { id: _, count }) => {
            let end = Requested::FULL_DATA + count;
            &request[Requested::FULL_DATA..end]
        }
        Ok(
            Requested::OffsetWrite {
                id: _,
                offset: _,
                count,
            },
        ) => {
            let end = Requested::OFFSET_DATA + count;
            &request[Requested::OFFSET_DATA..end]
        }
        Ok(Requested::FullRead { .. }) => &request[0..0],
        Ok(Requested::OffsetRead { .. }) => &request[0..0],
        Err(_) => &request[0..0],
    }
}

// Writes a request into the room. Its kind is its first octet; what its form lacks isn't looked at. The
// numbers are no Requested, as C hands them on, and the definition (request_of) takes them.
pub fn write_request(
    kind: u64,
    id: u64,
    offset: u64,
    count: u64,
    new: &[u8],
    room: &mut [u8],
) -> Reply
    ensures reply { result ≡ request_sent (request_of kind id offset count new.now) room.old }
    ensures room { room.new ≡ request_room (request_of kind id offset count new.now) room.old }
{
    match kind {
        Requested::FULL_READ => requests::send_full_read(id, room),
        Requested::OFFSET_READ => requests::send_offset_read(id, offset, count, room),
        Requested::FULL_WRITE => requests::send_full_write(id, new, room),
        Requested::OFFSET_WRITE => requests::send_offset_write(id, offset, new, room),
        _ => Err(Refusal::NO_ROOM),
    }
}

// Reads a meter's reply.
pub fn read_reply(reply: &[u8]) -> Result<Heard, Refusal>
    ensures { result ≡ heard_by (reply_in reply.now) }
{
    replying::read(reply)
}

// A reply's data, as a part of it; empty, and no None, but in the reply to a read: so crate unique states it,
// by the definition reply_data.
pub fn reply_data<'a>(reply: &'a [u8]) -> &'a [u8]
    ensures reply { result.now ≡ reply_data (reply_in reply.now) }
    ensures place { result.ref_ptr ≡ (reply.entry.ref_ptr.0, reply.entry.ref_ptr.1 + (reply_told (heard_by (reply_in reply.now))).start) }
{
    match replying::read(reply) {
        Ok(Heard::Data { count }) => {
            let end = Heard::DATA_START + count;
            &reply[Heard::DATA_START..end]
        }
        Ok(Heard::Done) => &reply[0..0],
        Ok(Heard::Refused(_)) => &reply[0..0],
        Err(_) => &reply[0..0],
    }
}

// Writes a meter's reply into the room. Its kind is 1 for data, 2 for done, 3 for refused: numbers and no
// Heard, as C hands them on, and the definition (reply_of) takes them.
pub fn write_reply(kind: u64, code: u64, new: &[u8], room: &mut [u8]) -> Reply
    ensures reply { result ≡ reply_sent (reply_of kind code new.now) room.old }
    ensures room { room.new ≡ reply_room (reply_of kind code new.now) room.old }
{
    match kind {
        Heard::DATA => replying::send_data(new, room),
        Heard::DONE => replying::send_done(room),
        Heard::REFUSED => replying::send_refusal(code, room),
        _ => Err(Refusal::NO_ROOM),
    }
}

// Answers a request over the tables: its reply into the room, and a write done in the image.
#[tactic(auto, using(crate::proofs::Serving::no_room_reply, crate::proofs::Serving::no_room_image, crate::proofs::Serving::no_room_after))]
pub fn serve(description: &[u8], image: &mut [u8], request: &[u8], room: &mut [u8]) -> Reply
    ensures reply { result ≡ serve_reply description.now image.old request.now room.old }
    ensures image { image.new ≡ serve_image description.now image.old request.now room.old }
    ensures room { room.new ≡ serve_room description.now image.old request.now room.old }
{
    // No reply is shorter than one octet, and a write's is no longer.
    if room.len() == 0 {
        return Err(Refusal::NO_ROOM);
    }
    match requests::read(request) {
        Err(code) => replying::send_refusal(code as u64, room),
        Ok(Requested::FullRead { id }) => {
            let place = places::table_place(
                description,
                image,
                id / MANUFACTURER,
                id % MANUFACTURER,
            );
            reply_part(image, place, room)
        }
        Ok(Requested::OffsetRead { id, offset, count }) => {
            let place = access::range_place(
                description,
                image,
                id / MANUFACTURER,
                id % MANUFACTURER,
                TableOffset::new(offset),
                count,
            );
            reply_part(image, place, room)
        }
        Ok(Requested::FullWrite { id, count }) => {
            let end = Requested::FULL_DATA + count;
            let verdict = access::write_table(
                description,
                image,
                id / MANUFACTURER,
                id % MANUFACTURER,
                &request[Requested::FULL_DATA..end],
            );
            reply_verdict(verdict, room)
        }
        Ok(Requested::OffsetWrite { id, offset, count }) => {
            let end = Requested::OFFSET_DATA + count;
            let verdict = access::write_range(
                description,
                image,
                id / MANUFACTURER,
                id % MANUFACTURER,
                TableOffset::new(offset),
                &request[Requested::OFFSET_DATA..end],
            );
            reply_verdict(verdict, room)
        }
    }
}
