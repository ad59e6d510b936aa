// The C interface. include/bilashonge.h is its manual. Each function asks one question of the layers
// below and hands on what its reply tells, in a struct that C knows. A refusal is the struct of the
// layers themselves.
//
// A struct for each kind of answer, though some have one shape, and flags as numbers: so the C header names
// and reads them.
//
// Nothing is kept. Memory is lent to be read, but for an image that is to be written, the cells of
// the matrix and the room for a message: what those hold afterwards is stated too, for answers and
// refusals.
#![tactic(auto, unfolding(meaning::specs::Questions::outcome_of, meaning::specs::Questions::reply_to, meaning::specs::Questions::told_to, meaning::specs::Questions::image_after, crate::specs::Interface::element_named, crate::specs::Interface::moment_of, crate::specs::Interface::date_of))]

ghost use Rattle.std.specs.Prelude.{◌≡◌, [], get_or};
ghost use Rattle.meaning.specs.Refusals.{told_by, verdict_reply, place_reply};
ghost use Rattle.meaning.specs.Calendar.{matrix_reply, matrix_verdict, cells_after};
ghost use Rattle.meaning.specs.Questions as ask;
ghost use Rattle.meaning.specs.Questions.{told_to, image_after};
ghost use Rattle.meaning.specs.Messages.{request_in, requested_by, request_told, reply_in, heard_by, reply_told, request_of, request_sent, request_room, reply_of, reply_sent, reply_room, serve_reply, serve_image, serve_room};
ghost use Rattle.replies.specs.Asked.{quantity_of};
ghost use Rattle.bilashonge.specs.Interface.{in_total, in_place, in_number, in_tier, in_answer, in_weekday, element_named, moment_of, date_of};

use meaning::{Date, ElementName, Moment, Refusal, ReplyTold, RequestTold, Told};
use offsets::TableOffset;

// The total of octets used, of the image or of the room for a message, 0 on refusal.
#[repr(C)]
#[derive(Clone, Copy)]
pub struct Total {
    pub refusal: Refusal,
    pub total: u64,
}

impl From<Told> for Total {
    ghost from_gives = { λ told answer. answer ≡ in_total told };

    fn from(told: Told) -> Total {
        Total {
            refusal: told.refusal,
            total: told.first,
        }
    }
}

// The first octet in the image, and the length, both 0 on refusal.
#[repr(C)]
#[derive(Clone, Copy)]
pub struct Place {
    pub refusal: Refusal,
    pub start: u64,
    pub length: u64,
}

impl From<Told> for Place {
    ghost from_gives = { λ told answer. answer ≡ in_place told };

    fn from(told: Told) -> Place {
        Place {
            refusal: told.refusal,
            start: told.first,
            length: told.second,
        }
    }
}

// An element's number, 0 on refusal.
#[repr(C)]
#[derive(Clone, Copy)]
pub struct Number {
    pub refusal: Refusal,
    pub number: u64,
}

impl From<Told> for Number {
    ghost from_gives = { λ told answer. answer ≡ in_number told };

    fn from(told: Told) -> Number {
        Number {
            refusal: told.refusal,
            number: told.first,
        }
    }
}

// 1 for "none yet today", and the tier, both 0 on refusal.
#[repr(C)]
#[derive(Clone, Copy)]
pub struct Tier {
    pub refusal: Refusal,
    pub none: u64,
    pub tier: u64,
}

impl From<Told> for Tier {
    ghost from_gives = { λ told answer. answer ≡ in_tier told };

    fn from(told: Told) -> Tier {
        Tier {
            refusal: told.refusal,
            none: told.first,
            tier: told.second,
        }
    }
}

// 1 for yes and 0 for no, 0 on refusal.
#[repr(C)]
#[derive(Clone, Copy)]
pub struct Answer {
    pub refusal: Refusal,
    pub yes: u64,
}

impl From<Told> for Answer {
    ghost from_gives = { λ told answer. answer ≡ in_answer told };

    fn from(told: Told) -> Answer {
        Answer {
            refusal: told.refusal,
            yes: told.first,
        }
    }
}

// 0 for Sunday to 6 for Saturday, 0 on refusal.
#[repr(C)]
#[derive(Clone, Copy)]
pub struct Weekday {
    pub refusal: Refusal,
    pub weekday: u64,
}

impl From<Told> for Weekday {
    ghost from_gives = { λ told answer. answer ≡ in_weekday told };

    fn from(told: Told) -> Weekday {
        Weekday {
            refusal: told.refusal,
            weekday: told.first,
        }
    }
}

// Subscript k of those lent, 0 past the last, and no None, as the definition (element_named) has it.
fn subscript(subscripts: &[usize], k: usize) -> usize
    ensures { result ≡ get_or subscripts.now k 0 }
{
    subscripts.get(k).copied().unwrap_or(0)
}

// The element of that item and those subscripts. More than four name none, whichever they are.
fn element_named(item: usize, subscripts: &[usize]) -> ElementName
    ensures { result ≡ element_named item subscripts.now }
{
    ElementName {
        item,
        count: subscripts.len(),
        subscripts: [
            subscript(subscripts, 0),
            subscript(subscripts, 1),
            subscript(subscripts, 2),
            subscript(subscripts, 3),
        ],
    }
}

// Is this description sound.
pub fn bilashonge_check(description: &[u8]) -> Refusal
    ensures { result ≡ (told_to ask.check description.now []).refusal }
{
    replies::verdict_told(sound::check(description)).refusal
}

// Lay the image out: the total of octets used.
pub fn bilashonge_layout(description: &[u8], image: &[u8]) -> Total
    ensures { result ≡ in_total (told_to ask.layout description.now image.now) }
{
    Total::from(replies::told(places::layout(description, image)))
}

// Where a table is, and how long.
pub fn bilashonge_table_place(
    description: &[u8],
    image: &[u8],
    manufacturer: u32,
    number: u32,
) -> Place
    ensures { result ≡ in_place (told_to (ask.table_place manufacturer number) description.now image.now) }
{
    Place::from(replies::place_told(places::table_place(description, image, manufacturer, number)))
}

// Where a range of a table is.
pub fn bilashonge_range_place(
    description: &[u8],
    image: &[u8],
    manufacturer: u32,
    number: u32,
    offset: usize,
    length: usize,
) -> Place
    ensures { result ≡ in_place (told_to (ask.read_range manufacturer number (record { 0 = offset }) length) description.now image.now) }
{
    let at = TableOffset::new(offset);
    Place::from(replies::place_told(access::range_place(
        description,
        image,
        manufacturer,
        number,
        at,
        length,
    )))
}

// Where an element is, and how long.
pub fn bilashonge_element_place(
    description: &[u8],
    image: &[u8],
    item: usize,
    subscripts: &[usize],
) -> Place
    ensures { result ≡ in_place (told_to (ask.element_place (element_named item subscripts.now)) description.now image.now) }
{
    Place::from(replies::place_told(places::element_place(
        description,
        image,
        element_named(item, subscripts),
    )))
}

// An element's number.
pub fn bilashonge_element_number(
    description: &[u8],
    image: &[u8],
    item: usize,
    subscripts: &[usize],
) -> Number
    ensures { result ≡ in_number (told_to (ask.element_number (element_named item subscripts.now)) description.now image.now) }
{
    Number::from(replies::told(access::element_number(
        description,
        image,
        element_named(item, subscripts),
    )))
}

// Writes a range of a table.
pub fn bilashonge_write_range(
    description: &[u8],
    image: &mut [u8],
    manufacturer: u32,
    number: u32,
    offset: usize,
    new: &[u8],
) -> Refusal
    ensures reply { result ≡ (told_to (ask.write_range manufacturer number (record { 0 = offset }) new.now) description.now image.old).refusal }
    ensures image { image.new ≡ image_after (ask.write_range manufacturer number (record { 0 = offset }) new.now) description.now image.old }
{
    let at = TableOffset::new(offset);
    replies::verdict_told(access::write_range(
        description,
        image,
        manufacturer,
        number,
        at,
        new,
    )).refusal
}

// Writes an element's octets.
pub fn bilashonge_write_octets(
    description: &[u8],
    image: &mut [u8],
    item: usize,
    subscripts: &[usize],
    new: &[u8],
) -> Refusal
    ensures reply { result ≡ (told_to (ask.write_octets (element_named item subscripts.now) new.now) description.now image.old).refusal }
    ensures image { image.new ≡ image_after (ask.write_octets (element_named item subscripts.now) new.now) description.now image.old }
{
    replies::verdict_told(access::write_octets(
        description,
        image,
        element_named(item, subscripts),
        new,
    )).refusal
}

// Writes an element's number, in the image's DATA_ORDER.
pub fn bilashonge_write_number(
    description: &[u8],
    image: &mut [u8],
    item: usize,
    subscripts: &[usize],
    value: u64,
) -> Refusal
    ensures reply { result ≡ (told_to (ask.write_number (element_named item subscripts.now) value) description.now image.old).refusal }
    ensures image { image.new ≡ image_after (ask.write_number (element_named item subscripts.now) value) description.now image.old }
{
    replies::verdict_told(access::write_number(
        description,
        image,
        element_named(item, subscripts),
        value,
    )).refusal
}

// The tier at a date and time.
pub fn bilashonge_tier_at(
    description: &[u8],
    image: &[u8],
    year: u32,
    month: u32,
    day: u32,
    hour: u32,
    minute: u32,
    quantity: u32,
) -> Tier
    ensures { result ≡ in_tier (told_to (ask.tier (moment_of year month day hour minute) (quantity_of quantity)) description.now image.now) }
{
    let moment = Moment {
        year,
        month,
        day,
        hour,
        minute,
    };
    Tier::from(replies::told(calendar::tier(
        description,
        image,
        moment,
        replies::quantity(quantity as u64),
    )))
}

// Whether any season record with a real date stands at or before a date.
pub fn bilashonge_seasoned(
    description: &[u8],
    image: &[u8],
    year: u32,
    month: u32,
    day: u32,
) -> Answer
    ensures { result ≡ in_answer (told_to (ask.seasoned (date_of year month day)) description.now image.now) }
{
    let date = Date { year, month, day };
    Answer::from(replies::told(calendar::seasoned(description, image, date)))
}

// The weekday of a date.
pub fn bilashonge_weekday_of(year: u32, month: u32, day: u32) -> Weekday
    ensures { result ≡ in_weekday (told_to (ask.weekday (date_of year month day)) [] []) }
{
    let date = Date { year, month, day };
    Weekday::from(replies::told(dates::weekday_of(date)))
}

// The schedule matrix, into cells. A refused call leaves cells as they are.
pub fn bilashonge_matrix(description: &[u8], image: &[u8], cells: &mut [[u8; 22]; 15]) -> Refusal
    ensures reply { result ≡ (told_to ask.matrix description.now image.now).refusal }
    ensures cells { cells.new ≡ cells_after (matrix_verdict description.now image.now) (matrix_reply description.now image.now) cells.old }
{
    replies::verdict_told(calendar::matrix_into(description, image, cells)).refusal
}

// Answers a request over the tables: the reply into the room, and a write done in the image.
pub fn bilashonge_serve(
    description: &[u8],
    image: &mut [u8],
    request: &[u8],
    room: &mut [u8],
) -> Total
    ensures reply { result ≡ in_total (told_by (serve_reply description.now image.old request.now room.old)) }
    ensures image { image.new ≡ serve_image description.now image.old request.now room.old }
    ensures room { room.new ≡ serve_room description.now image.old request.now room.old }
{
    Total::from(replies::told(messages::serve(description, image, request, room)))
}

// Reads a request.
pub fn bilashonge_read_request(request: &[u8]) -> RequestTold
    ensures { result ≡ request_told (requested_by (request_in request.now)) }
{
    replies::request_told(messages::read_request(request))
}

// Writes a request into the room.
pub fn bilashonge_write_request(
    kind: u64,
    id: u64,
    offset: u64,
    count: u64,
    new: &[u8],
    room: &mut [u8],
) -> Total
    ensures reply { result ≡ in_total (told_by (request_sent (request_of kind id offset count new.now) room.old)) }
    ensures room { room.new ≡ request_room (request_of kind id offset count new.now) room.old }
{
    Total::from(replies::told(messages::write_request(kind, id, offset, count, new, room)))
}

// Reads a meter's reply.
pub fn bilashonge_read_reply(reply: &[u8]) -> ReplyTold
    ensures { result ≡ reply_told (heard_by (reply_in reply.now)) }
{
    replies::reply_told(messages::read_reply(reply))
}

// Writes a meter's reply into the room.
pub fn bilashonge_write_reply(kind: u64, code: u64, new: &[u8], room: &mut [u8]) -> Total
    ensures reply { result ≡ in_total (told_by (reply_sent (reply_of kind code new.now) room.old)) }
    ensures room { room.new ≡ reply_room (reply_of kind code new.now) room.old }
{
    Total::from(replies::told(messages::write_reply(kind, code, new, room)))
}
