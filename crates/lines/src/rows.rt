// The questions, a row each: a name, the form of the lines that ask it, and what its reply tells. specs/Answer.antt has the same table, with what each row asks.
ghost use Rattle.std.specs.Prelude.{◌≡◌, ◌+◌, ◌≤◌, if◌then◌else◌};
ghost use Rattle.lines.specs.Answer.{kind_of, form_of, takes};
ghost use Rattle.lines.specs.Kinds.{tables_place, messages_place, kind_place, found_place};

use meaning::{Heard, Requested};

// The questions about tables.
#[derive(Clone, Copy)]
pub enum TableKind {
    Check,
    Layout,
    Table,
    TablePart,
    Where,
    Octets,
    Number,
    WriteRange,
    WriteOctets,
    WriteNumber,
    Tier,
    Matrix,
    Seasoned,
    ReadRange,
}

// The messages.
#[derive(Clone, Copy)]
pub enum MessageKind {
    Serve,
    ReadRequest,
    WriteRequest,
    ReadReply,
    WriteReply,
}

// A row of the table.
#[derive(Clone, Copy)]
pub enum Kind {
    Tables(TableKind),
    Messages(MessageKind),
    // The row of a date alone.
    Weekday,
}

// The rows in the table's order, which is that of NAMES. Two tables and none of pairs: a name is looked up in
// one text by crate words, and the definition (table_rows, message_rows) has a row by its place.
const KINDS: [Kind; 20] = [
    Kind::Tables(TableKind::Check),
    Kind::Tables(TableKind::Layout),
    Kind::Tables(TableKind::Table),
    Kind::Tables(TableKind::TablePart),
    Kind::Tables(TableKind::Where),
    Kind::Tables(TableKind::Octets),
    Kind::Tables(TableKind::Number),
    Kind::Tables(TableKind::WriteRange),
    Kind::Tables(TableKind::WriteOctets),
    Kind::Tables(TableKind::WriteNumber),
    Kind::Tables(TableKind::Tier),
    Kind::Tables(TableKind::Matrix),
    Kind::Tables(TableKind::Seasoned),
    Kind::Tables(TableKind::ReadRange),
    Kind::Messages(MessageKind::Serve),
    Kind::Messages(MessageKind::ReadRequest),
    Kind::Messages(MessageKind::WriteRequest),
    Kind::Messages(MessageKind::ReadReply),
    Kind::Messages(MessageKind::WriteReply),
    Kind::Weekday,
];

const NAMES: &[u8] =
    b"check layout table tablepart where octets number writerange writeoctets writenumber tier matrix seasoned readrange serve readrequest writerequest readreply writereply weekday";

// Which row a name is of; None where it is of none.
pub fn kind_of(name: &[u8]) -> Option<Kind>
    ensures { found_place result ≡ kind_of name.now }
{
    match words::index_of(name, NAMES) {
        Ok(place) => Some(KINDS[place]),
        Err(_) => None,
    }
}

// The form of a line: how many words it has; how many of octets stand behind the name, none, D, or D
// and M; how many numbers stand behind those, and the most that each may come to; whether DATA stands
// last. And its reply: how many numbers it tells, whether octets, whether the image afterwards. Counts and
// no enums: the table of specs/Answer.antt has these numbers.
#[derive(Clone, Copy)]
pub struct Form {
    pub words: usize,
    pub lent: usize,
    pub numbers: usize,
    pub most: [u64; 7],
    pub given: bool,
    pub told: usize,
    pub part: bool,
    pub after: bool,
}

// What the numbers may come to: mfr 1 and num 65,535; the five of a moment and the three of a date
// 2^32 - 1, and what 1; a room the longest request's 65,544. An offset, a length, the six numbers of
// an element, a value and a message's own numbers are not limited.
const NONE: [u64; 7] = [0; 7];

const TABLE_MOST: [u64; 7] = [1, 65535, 0, 0, 0, 0, 0];

const RANGE_MOST: [u64; 7] = [1, 65535, u64::MAX, 0, 0, 0, 0];

const LENGTH_MOST: [u64; 7] = [1, 65535, u64::MAX, u64::MAX, 0, 0, 0];

const ELEMENT_MOST: [u64; 7] = [
    u64::MAX,
    u64::MAX,
    u64::MAX,
    u64::MAX,
    u64::MAX,
    u64::MAX,
    0,
];

const VALUE_MOST: [u64; 7] = [u64::MAX; 7];

const TIER_MOST: [u64; 7] = [
    4294967295, 4294967295, 4294967295, 4294967295, 4294967295, 1, 0,
];

const DATE_MOST: [u64; 7] = [4294967295, 4294967295, 4294967295, 0, 0, 0, 0];

const ROOM: u64 = 65544;

const ROOM_MOST: [u64; 7] = [ROOM, 0, 0, 0, 0, 0, 0];

const REQUEST_MOST: [u64; 7] = [u64::MAX, u64::MAX, u64::MAX, u64::MAX, ROOM, 0, 0];

const REPLY_MOST: [u64; 7] = [u64::MAX, u64::MAX, ROOM, 0, 0, 0, 0];

// How many numbers a reply tells: none, a refusal's, or one or two of the answer's own behind those;
// of a message that was written the refusal's number, of one that was read three or five, of a weekday two.
const NOTHING: usize = 0;

const REFUSAL: usize = 4;

const ONE_MORE: usize = 5;

const TWO_MORE: usize = 6;

// The form of a line and of its reply: the fields of Form, with the words counted. They go by
// position, as in a table: by name each row would take ten lines.
fn columns(
    lent: usize,
    numbers: usize,
    most: [u64; 7],
    given: bool,
    told: usize,
    part: bool,
    after: bool,
) -> Form
    requires { (lent ≤ 2) × (numbers ≤ 7) }
    ensures { result ≡ record {
      words = 1 + lent + numbers + (if given then 1 else 0);
      lent = lent;
      numbers = numbers;
      most = most;
      given = given;
      told = told;
      part = part;
      after = after;
    } }
{
    let last = usize::from(given);
    Form {
        words: 1 + lent + numbers + last,
        lent,
        numbers,
        most,
        given,
        told,
        part,
        after,
    }
}

impl TableKind {
    // The form of the lines that ask this question, and its reply.
    #[tactic(auto, unfolding(crate::specs::Answer::table_rows, crate::specs::Answer::message_rows, crate::specs::Answer::date_rows, crate::specs::Answer::rows, crate::specs::Answer::row_at, crate::specs::Answer::form_of))]
    pub fn form(self) -> Form
        ensures { result ≡ form_of (tables_place self) }
    {
        match self {
            TableKind::Check => columns(1, 0, NONE, false, REFUSAL, false, false),
            TableKind::Layout => columns(2, 0, NONE, false, ONE_MORE, false, false),
            TableKind::Table => columns(2, 2, TABLE_MOST, false, TWO_MORE, false, false),
            TableKind::TablePart => columns(2, 2, TABLE_MOST, false, NOTHING, true, false),
            TableKind::Where => columns(2, 6, ELEMENT_MOST, false, TWO_MORE, false, false),
            TableKind::Octets => columns(2, 6, ELEMENT_MOST, false, NOTHING, true, false),
            TableKind::Number => columns(2, 6, ELEMENT_MOST, false, ONE_MORE, false, false),
            TableKind::WriteRange => columns(2, 3, RANGE_MOST, true, REFUSAL, false, true),
            TableKind::WriteOctets => columns(2, 6, ELEMENT_MOST, true, REFUSAL, false, true),
            TableKind::WriteNumber => columns(2, 7, VALUE_MOST, false, REFUSAL, false, true),
            TableKind::Tier => columns(2, 6, TIER_MOST, false, TWO_MORE, false, false),
            TableKind::Matrix => columns(2, 0, NONE, false, REFUSAL, true, false),
            TableKind::Seasoned => columns(2, 3, DATE_MOST, false, ONE_MORE, false, false),
            TableKind::ReadRange => columns(2, 4, LENGTH_MOST, false, TWO_MORE, true, false),
        }
    }
}

impl MessageKind {
    // The form of the lines that ask for this message, and its reply.
    #[tactic(auto, unfolding(crate::specs::Answer::table_rows, crate::specs::Answer::message_rows, crate::specs::Answer::date_rows, crate::specs::Answer::rows, crate::specs::Answer::row_at, crate::specs::Answer::form_of))]
    pub fn form(self) -> Form
        ensures { result ≡ form_of (messages_place self) }
    {
        match self {
            MessageKind::Serve => columns(2, 1, ROOM_MOST, true, 1, true, true),
            MessageKind::ReadRequest => columns(1, 0, NONE, false, 5, true, false),
            MessageKind::WriteRequest => columns(0, 5, REQUEST_MOST, true, 1, true, false),
            MessageKind::ReadReply => columns(1, 0, NONE, false, 3, true, false),
            MessageKind::WriteReply => columns(0, 3, REPLY_MOST, true, 1, true, false),
        }
    }

    // Whether a message that is to be written has a kind that there is, by the first number; the
    // others take any.
    fn takes(self, numbers: [u64; 7]) -> bool
        ensures { result ≡ takes (messages_place self) numbers }
    {
        let first = numbers[0];
        match self {
            MessageKind::WriteRequest => matches!(
                first,
                Requested::FULL_READ
                    | Requested::OFFSET_READ
                    | Requested::FULL_WRITE
                    | Requested::OFFSET_WRITE
            ),
            MessageKind::WriteReply => matches!(first, Heard::DATA | Heard::DONE | Heard::REFUSED),
            MessageKind::Serve | MessageKind::ReadRequest | MessageKind::ReadReply => true,
        }
    }
}

impl Kind {
    // The form of the lines that ask for this row, and its reply.
    pub fn form(self) -> Form
        ensures { result ≡ form_of (kind_place self) }
    {
        match self {
            Kind::Tables(kind) => kind.form(),
            Kind::Messages(kind) => kind.form(),
            Kind::Weekday => columns(0, 3, DATE_MOST, false, 2, false, false),
        }
    }

    // Whether the row takes numbers.
    pub fn takes(self, numbers: [u64; 7]) -> bool
        ensures { result ≡ takes (kind_place self) numbers }
    {
        match self {
            Kind::Messages(kind) => kind.takes(numbers),
            Kind::Tables(_) | Kind::Weekday => true,
        }
    }
}
