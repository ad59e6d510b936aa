// Requests: full read, offset read, full write, offset write. Each begins with its kind and the
// table's id; then come an offset of three octets, in the offset forms, and what is to be read (a
// count) or written (count, data, check octet).
ghost use Rattle.std.specs.Prelude.{◌≡◌, ◌+◌, ◌≤◌, ◌∷◌, ◌++◌, length};
ghost use Rattle.meaning.specs.Messages.{in_octets, number_from, full_read, offset_read, full_write, offset_write, request_in, requested_by, request_by, write_request_reply, write_request_room};
ghost use Rattle.messages.specs.Messages.{IsPut};

use crate::{check, room};
use meaning::{Answer, Refusal, Reply, Requested};

// The most that fits an id or a count, and an offset.
const TWO_OCTETS: u64 = 65535;

const THREE_OCTETS: u64 = 16777215;

// The octets that refuse a request: numbers and no enum, as the definitions (not_request, refuses) take the
// octet itself.
const FAULTY: u32 = 1;

const UNKNOWN: u32 = 2;

// READING. A function for each form: they differ in their fields and in how long they are.
fn id_of(request: &[u8]) -> u32
    requires { 3 ≤ length request.now }
    ensures { result ≡ number_from request.now 1 2 }
{
    check::number_from(request, 1, 2) as u32
}

fn offset_of(request: &[u8]) -> usize
    requires { 6 ≤ length request.now }
    ensures { result ≡ number_from request.now 3 3 }
{
    check::number_from(request, 3, 3) as usize
}

fn read_full_read(request: &[u8]) -> Result<Requested, u32>
    ensures { result ≡ requested_by (request_by 0x30 request.now) }
{
    if request.len() != 3 {
        return Err(FAULTY);
    }
    Ok(Requested::FullRead { id: id_of(request) })
}

fn read_offset_read(request: &[u8]) -> Result<Requested, u32>
    ensures { result ≡ requested_by (request_by 0x3F request.now) }
{
    if request.len() != 8 {
        return Err(FAULTY);
    }
    Ok(Requested::OffsetRead {
        id: id_of(request),
        offset: offset_of(request),
        count: check::number_from(request, 6, 2) as usize,
    })
}

fn read_full_write(request: &[u8]) -> Result<Requested, u32>
    ensures { result ≡ requested_by (request_by 0x40 request.now) }
{
    let count = check::counted_from(request, 3).ok_or(FAULTY)?;
    Ok(Requested::FullWrite {
        id: id_of(request),
        count,
    })
}

fn read_offset_write(request: &[u8]) -> Result<Requested, u32>
    ensures { result ≡ requested_by (request_by 0x4F request.now) }
{
    let count = check::counted_from(request, 6).ok_or(FAULTY)?;
    Ok(Requested::OffsetWrite {
        id: id_of(request),
        offset: offset_of(request),
        count,
    })
}

// What a request asks for, or the octet that refuses it.
pub(crate) fn read(request: &[u8]) -> Result<Requested, u32>
    ensures { result ≡ requested_by (request_in request.now) }
{
    if request.len() == 0 {
        return Err(FAULTY);
    }
    match request[0] as u64 {
        Requested::FULL_READ => read_full_read(request),
        Requested::OFFSET_READ => read_offset_read(request),
        Requested::FULL_WRITE => read_full_write(request),
        Requested::OFFSET_WRITE => read_offset_write(request),
        _ => Err(UNKNOWN),
    }
}

// WRITING. A function for each form: the forms differ in what is put and in what has to fit, and one
// function over them would choose at each of those steps.
// Kind and id.
fn put_head(room: &mut [u8], kind: u8, id: u64) -> usize
    requires { 3 ≤ length room.old }
    ensures { IsPut room.old 0 (kind ∷ in_octets 2 id) room.new result }
{
    let behind_kind = room::put_octet(room, 0, kind);
    room::put_number(room, behind_kind, 2, id)
}

// Kind, id and offset.
fn put_offset_head(room: &mut [u8], kind: u8, id: u64, offset: u64) -> usize
    requires { 6 ≤ length room.old }
    ensures { IsPut room.old 0 (kind ∷ in_octets 2 id ++ in_octets 3 offset) room.new result }
{
    let behind_id = put_head(room, kind, id);
    room::put_number(room, behind_id, 3, offset)
}

pub(crate) fn send_full_read(id: u64, room: &mut [u8]) -> Reply
    ensures reply { result ≡ write_request_reply (full_read id) room.old }
    ensures room { room.new ≡ write_request_room (full_read id) room.old }
{
    if basics::both(id <= TWO_OCTETS, 3 <= room.len()) {
        return Ok(Answer::Total(put_head(room, Requested::FULL_READ as u8, id)));
    }
    Err(Refusal::NO_ROOM)
}

pub(crate) fn send_offset_read(id: u64, offset: u64, count: u64, room: &mut [u8]) -> Reply
    ensures reply { result ≡ write_request_reply (offset_read id offset count) room.old }
    ensures room { room.new ≡ write_request_room (offset_read id offset count) room.old }
{
    let fits = basics::both(
        id <= TWO_OCTETS,
        basics::both(offset <= THREE_OCTETS, count <= TWO_OCTETS),
    );
    if basics::both(fits, 8 <= room.len()) {
        let behind_offset = put_offset_head(room, Requested::OFFSET_READ as u8, id, offset);
        return Ok(Answer::Total(room::put_number(room, behind_offset, 2, count)));
    }
    Err(Refusal::NO_ROOM)
}

pub(crate) fn send_full_write(id: u64, new: &[u8], room: &mut [u8]) -> Reply
    ensures reply { result ≡ write_request_reply (full_write id new.now) room.old }
    ensures room { room.new ≡ write_request_room (full_write id new.now) room.old }
{
    let fits = basics::both(id <= TWO_OCTETS, new.len() as u64 <= TWO_OCTETS);
    if basics::both(fits, basics::ends_within(6, new.len(), room.len())) {
        let behind_id = put_head(room, Requested::FULL_WRITE as u8, id);
        return Ok(Answer::Total(room::put_counted(room, behind_id, new)));
    }
    Err(Refusal::NO_ROOM)
}

pub(crate) fn send_offset_write(id: u64, offset: u64, new: &[u8], room: &mut [u8]) -> Reply
    ensures reply { result ≡ write_request_reply (offset_write id offset new.now) room.old }
    ensures room { room.new ≡ write_request_room (offset_write id offset new.now) room.old }
{
    let fits = basics::both(
        id <= TWO_OCTETS,
        basics::both(offset <= THREE_OCTETS, new.len() as u64 <= TWO_OCTETS),
    );
    if basics::both(fits, basics::ends_within(9, new.len(), room.len())) {
        let behind_offset = put_offset_head(room, Requested::OFFSET_WRITE as u8, id, offset);
        return Ok(Answer::Total(room::put_counted(room, behind_offset, new)));
    }
    Err(Refusal::NO_ROOM)
}
