// What C calls: the C interface of crate bilashonge, exported. include/bilashonge.h is its manual. Each
// function here hands its arguments on to the function of that name there, and promises what that one
// promises, in the same clauses.
#![tactic(auto)]

ghost use Rattle.std.specs.Prelude.{◌≡◌, []};
ghost use Rattle.meaning.specs.Refusals.{told_by};
ghost use Rattle.meaning.specs.Calendar.{matrix_reply, matrix_verdict, cells_after};
ghost use Rattle.meaning.specs.Questions as ask;
ghost use Rattle.meaning.specs.Questions.{told_to, image_after};
ghost use Rattle.meaning.specs.Messages.{request_in, requested_by, request_told, reply_in, heard_by, reply_told, request_of, request_sent, request_room, reply_of, reply_sent, reply_room, serve_reply, serve_image, serve_room};
ghost use Rattle.replies.specs.Asked.{quantity_of};
ghost use Rattle.bilashonge.specs.Interface.{in_total, in_place, in_number, in_tier, in_answer, in_weekday, element_named, moment_of, date_of};

use bilashonge::{Answer, Number, Place, Tier, Total, Weekday};
use meaning::{Refusal, ReplyTold, RequestTold};

// Is this description sound.
#[unsafe(no_mangle)]
pub extern "C" fn bilashonge_check(description: &[u8]) -> Refusal
    ensures { result ≡ (told_to ask.check description.now []).refusal }
{
    bilashonge::bilashonge_check(description)
}

// Lay the image out: the total of octets used.
#[unsafe(no_mangle)]
pub extern "C" fn bilashonge_layout(description: &[u8], image: &[u8]) -> Total
    ensures { result ≡ in_total (told_to ask.layout description.now image.now) }
{
    bilashonge::bilashonge_layout(description, image)
}

// Where a table is, and how long.
#[unsafe(no_mangle)]
pub extern "C" fn bilashonge_table_place(
    description: &[u8],
    image: &[u8],
    manufacturer: u32,
    number: u32,
) -> Place
    ensures { result ≡ in_place (told_to (ask.table_place manufacturer number) description.now image.now) }
{
    bilashonge::bilashonge_table_place(description, image, manufacturer, number)
}

// Where a range of a table is.
#[unsafe(no_mangle)]
pub extern "C" fn bilashonge_range_place(
    description: &[u8],
    image: &[u8],
    manufacturer: u32,
    number: u32,
    offset: usize,
    length: usize,
) -> Place
    ensures { result ≡ in_place (told_to (ask.read_range manufacturer number (record { 0 = offset }) length) description.now image.now) }
{
    bilashonge::bilashonge_range_place(description, image, manufacturer, number, offset, length)
}

// Where an element is, and how long.
#[unsafe(no_mangle)]
pub extern "C" fn bilashonge_element_place(
    description: &[u8],
    image: &[u8],
    item: usize,
    subscripts: &[usize],
) -> Place
    ensures { result ≡ in_place (told_to (ask.element_place (element_named item subscripts.now)) description.now image.now) }
{
    bilashonge::bilashonge_element_place(description, image, item, subscripts)
}

// An element's number.
#[unsafe(no_mangle)]
pub extern "C" fn bilashonge_element_number(
    description: &[u8],
    image: &[u8],
    item: usize,
    subscripts: &[usize],
) -> Number
    ensures { result ≡ in_number (told_to (ask.element_number (element_named item subscripts.now)) description.now image.now) }
{
    bilashonge::bilashonge_element_number(description, image, item, subscripts)
}

// Writes a range of a table.
#[unsafe(no_mangle)]
pub extern "C" fn bilashonge_write_range(
    description: &[u8],
    image: &mut [u8],
    manufacturer: u32,
    number: u32,
    offset: usize,
    new: &[u8],
) -> Refusal
    ensures reply { result ≡ (told_to (ask.write_range manufacturer number (record { 0 = offset }) new.now) description.now image.old).refusal }
    ensures image { image.new ≡ image_after (ask.write_range manufacturer number (record { 0 = offset }) new.now) description.now image.old }
{
    bilashonge::bilashonge_write_range(description, image, manufacturer, number, offset, new)
}

// Writes an element's octets.
#[unsafe(no_mangle)]
pub extern "C" fn bilashonge_write_octets(
    description: &[u8],
    image: &mut [u8],
    item: usize,
    subscripts: &[usize],
    new: &[u8],
) -> Refusal
    ensures reply { result ≡ (told_to (ask.write_octets (element_named item subscripts.now) new.now) description.now image.old).refusal }
    ensures image { image.new ≡ image_after (ask.write_octets (element_named item subscripts.now) new.now) description.now image.old }
{
    bilashonge::bilashonge_write_octets(description, image, item, subscripts, new)
}

// Writes an element's number, in the image's DATA_ORDER.
#[unsafe(no_mangle)]
pub extern "C" fn bilashonge_write_number(
    description: &[u8],
    image: &mut [u8],
    item: usize,
    subscripts: &[usize],
    value: u64,
) -> Refusal
    ensures reply { result ≡ (told_to (ask.write_number (element_named item subscripts.now) value) description.now image.old).refusal }
    ensures image { image.new ≡ image_after (ask.write_number (element_named item subscripts.now) value) description.now image.old }
{
    bilashonge::bilashonge_write_number(description, image, item, subscripts, value)
}

// The tier at a date and time.
#[unsafe(no_mangle)]
pub extern "C" fn bilashonge_tier_at(
    description: &[u8],
    image: &[u8],
    year: u32,
    month: u32,
    day: u32,
    hour: u32,
    minute: u32,
    quantity: u32,
) -> Tier
    ensures { result ≡ in_tier (told_to (ask.tier (moment_of year month day hour minute) (quantity_of quantity)) description.now image.now) }
{
    bilashonge::bilashonge_tier_at(description, image, year, month, day, hour, minute, quantity)
}

// Whether any season record with a real date stands at or before a date.
#[unsafe(no_mangle)]
pub extern "C" fn bilashonge_seasoned(
    description: &[u8],
    image: &[u8],
    year: u32,
    month: u32,
    day: u32,
) -> Answer
    ensures { result ≡ in_answer (told_to (ask.seasoned (date_of year month day)) description.now image.now) }
{
    bilashonge::bilashonge_seasoned(description, image, year, month, day)
}

// The weekday of a date.
#[unsafe(no_mangle)]
pub extern "C" fn bilashonge_weekday_of(year: u32, month: u32, day: u32) -> Weekday
    ensures { result ≡ in_weekday (told_to (ask.weekday (date_of year month day)) [] []) }
{
    bilashonge::bilashonge_weekday_of(year, month, day)
}

// The schedule matrix, into cells. A refused call leaves cells as they are.
#[unsafe(no_mangle)]
pub extern "C" fn bilashonge_matrix(
    description: &[u8],
    image: &[u8],
    cells: &mut [[u8; 22]; 15],
) -> Refusal
    ensures reply { result ≡ (told_to ask.matrix description.now image.now).refusal }
    ensures cells { cells.new ≡ cells_after (matrix_verdict description.now image.now) (matrix_reply description.now image.now) cells.old }
{
    bilashonge::bilashonge_matrix(description, image, cells)
}

// Answers a request over the tables: the reply into the room, and a write done in the image.
#[unsafe(no_mangle)]
pub extern "C" fn bilashonge_serve(
    description: &[u8],
    image: &mut [u8],
    request: &[u8],
    room: &mut [u8],
) -> Total
    ensures reply { result ≡ in_total (told_by (serve_reply description.now image.old request.now room.old)) }
    ensures image { image.new ≡ serve_image description.now image.old request.now room.old }
    ensures room { room.new ≡ serve_room description.now image.old request.now room.old }
{
    bilashonge::bilashonge_serve(description, image, request, room)
}

// Reads a request.
#[unsafe(no_mangle)]
pub extern "C" fn bilashonge_read_request(request: &[u8]) -> RequestTold
    ensures { result ≡ request_told (requested_by (request_in request.now)) }
{
    bilashonge::bilashonge_read_request(request)
}

// Writes a request into the room.
#[unsafe(no_mangle)]
pub extern "C" fn bilashonge_write_request(
    kind: u64,
    id: u64,
    offset: u64,
    count: u64,
    new: &[u8],
    room: &mut [u8],
) -> Total
    ensures reply { result ≡ in_total (told_by (request_sent (request_of kind id offset count new.now) room.old)) }
    ensures room { room.new ≡ request_room (request_of kind id offset count new.now) room.old }
{
    bilashonge::bilashonge_write_request(kind, id, offset, count, new, room)
}

// Reads a meter's reply.
#[unsafe(no_mangle)]
pub extern "C" fn bilashonge_read_reply(reply: &[u8]) -> ReplyTold
    ensures { result ≡ reply_told (heard_by (reply_in reply.now)) }
{
    bilashonge::bilashonge_read_reply(reply)
}

// Writes a meter's reply into the room.
#[unsafe(no_mangle)]
pub extern "C" fn bilashonge_write_reply(kind: u64, code: u64, new: &[u8], room: &mut [u8]) -> Total
    ensures reply { result ≡ in_total (told_by (reply_sent (reply_of kind code new.now) room.old)) }
    ensures room { room.new ≡ reply_room (reply_of kind code new.now) room.old }
{
    bilashonge::bilashonge_write_reply(kind, code, new, room)
}
