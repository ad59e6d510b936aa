// What a description's items are, what each question answers, and why it may be refused: the values that pass between the layers and to callers.
// No function stands here. The definitions in specs/ say what these values mean, section by section of document 01; the layers above make them.
#![tactic(auto)]

use offsets::ImageOffset;

// What an item of a description is. `Malformed` is none of document 01's kinds, and the fields are no Option of an item: rule 2 and the definitions (malformed, breaks2) ask
// for the fields of any word.
#[derive(Clone, Copy, PartialEq, Eq)]
pub enum Kind {
    Malformed,
    Table,
    Uint,
    Block,
    Set,
    Array,
    If,
}

// What an item of a description says, each field 0 where its kind has none. One struct and no case for each kind: the rules and their theorems (FieldsRange, demand 3)
// ask for a field of any item. A table's manufacturer is a number, as it is asked for by any number. That the numbers are in range (FieldsRange) is asked by clauses and
// is no ghost field: the definitions make items too, and each would have to hold its proof.
#[derive(Clone, Copy)]
pub struct Fields {
    pub kind: Kind,
    pub manufacturer: u32,
    pub number: u32,
    pub writable: bool,
    // Items in its body, nested ones included, of an IF those if true; and an IF's items if false.
    pub first: usize,
    pub second: usize,
    // The slot that a UINT sets, and the octets of a UINT or BLOCK.
    pub sets: usize,
    pub octets: usize,
    // A reference: `width` bits of the slot's number from bit `low` up, bit 0 least significant.
    pub slot: usize,
    pub low: u32,
    pub width: u32,
    // A SET's: its value counts flags, eight to an octet, not octets.
    pub flags: bool,
}

impl Fields {
    // What a word that is no item says.
    pub const MALFORMED: Fields = Fields {
        kind: Kind::Malformed,
        manufacturer: 0,
        number: 0,
        writable: false,
        first: 0,
        second: 0,
        sets: 0,
        octets: 0,
        slot: 0,
        low: 0,
        width: 0,
        flags: false,
    };
}

// A body inside an item: how many of the items in it come before that body, and how many it has.
#[derive(Clone, Copy)]
pub struct Inner {
    pub skip: usize,
    pub items: usize,
}

// What stands round an item: where the innermost body round it ends, and how many TABLEs, and ARRAYs and IFs, enclose it.
#[derive(Clone, Copy)]
pub struct Round {
    pub limit: usize,
    pub tables: u32,
    pub nests: u32,
}

// The name of a table.
#[derive(Clone, Copy)]
pub struct TableName {
    pub manufacturer: u32,
    pub number: u32,
}

// The name of an element: its item, and one subscript for each ARRAY round it, outermost first. Places past the count aren't read. A count beside four places and no
// slice: the definitions (`subscripts_of`, SameName of crate demands) speak of these fields, and memory is fixed.
#[derive(Clone, Copy)]
pub struct ElementName {
    pub item: usize,
    pub count: usize,
    pub subscripts: [usize; 4],
}

// A date.
#[derive(Clone, Copy)]
pub struct Date {
    pub year: u32,
    pub month: u32,
    pub day: u32,
}

// A date and a time of day. Flat, with no Date in it: the definitions and the demands speak of its fields.
#[derive(Clone, Copy)]
pub struct Moment {
    pub year: u32,
    pub month: u32,
    pub day: u32,
    pub hour: u32,
    pub minute: u32,
}

// What a tier is asked for.
#[derive(Clone, Copy)]
pub enum Quantity {
    Summations,
    Demands,
}

// What Table 51 says of the calendar: its flags, and how many records and schedules Table 54 has.
#[derive(Clone, Copy)]
pub struct Controls {
    // SEASON_CHNG_ARMED, ANCHOR_DATE, SEPARATE_WEEKDAYS, SEPARATE_SUM_DEMANDS.
    pub armed: bool,
    pub anchored: bool,
    pub weekdays: bool,
    pub separate: bool,
    // Seasons, special schedules, non-recurring and recurring dates, tier switches.
    pub seasons: usize,
    pub specials: usize,
    pub dates: usize,
    pub recurring: usize,
    pub switches: usize,
}

// Three octets of Table 54: a number of two, and one more.
#[derive(Clone, Copy)]
pub struct Triple {
    pub word: u32,
    pub octet: u32,
}

// What a record of Table 54 brings, and the day or the minute from which it holds.
#[derive(Clone, Copy)]
pub struct Entry {
    pub when: u32,
    pub brings: u32,
}

// A record may bring nothing.
pub type Chosen = Option<Entry>;

// Why a question is refused: the number of document 01 or 02, and what it reports, an item, an octet and a subscript's depth, each 0 where it reports none. C has this very struct, so it is numbers and no enum. The
// numbers that report nothing have their names here; specs/Numbers.antt has the same names, for the definitions.
#[repr(C)]
#[derive(Clone, Copy)]
pub struct Refusal {
    pub number: u64,
    pub item: u64,
    pub octet: u64,
    pub depth: u64,
}

impl Refusal {
    // Nothing is refused: what an answer tells in a refusal's place.
    pub const NONE: Refusal = Refusal {
        number: 0,
        item: 0,
        octet: 0,
        depth: 0,
    };
    // Of the description, its length alone; 2 to 7 are the rules that an item breaks.
    pub const DESCRIPTION_LENGTH: Refusal = Refusal {
        number: 1,
        ..Refusal::NONE
    };
    // Of the image; 9 is that it is short.
    pub const IMAGE_TOO_LONG: Refusal = Refusal {
        number: 8,
        ..Refusal::NONE
    };
    // Of what is asked for, and of writes.
    pub const NO_TABLE: Refusal = Refusal {
        number: 10,
        ..Refusal::NONE
    };

    pub const OUTSIDE_TABLE: Refusal = Refusal {
        number: 12,
        ..Refusal::NONE
    };

    pub const NOT_WRITABLE: Refusal = Refusal {
        number: 13,
        ..Refusal::NONE
    };

    pub const HOLDS_DIMENSION: Refusal = Refusal {
        number: 14,
        ..Refusal::NONE
    };

    pub const WRONG_SIZE: Refusal = Refusal {
        number: 15,
        ..Refusal::NONE
    };
    // Of the calendar; 17 is no longer given.
    pub const NOT_A_DATE: Refusal = Refusal {
        number: 16,
        ..Refusal::NONE
    };

    pub const SEASON_CHANGE_ARMED: Refusal = Refusal {
        number: 18,
        ..Refusal::NONE
    };

    pub const NO_ROW_OR_COLUMN: Refusal = Refusal {
        number: 19,
        ..Refusal::NONE
    };

    pub const NOT_A_CALENDAR: Refusal = Refusal {
        number: 20,
        ..Refusal::NONE
    };
    // Of elements, in place of 11; 25 is a subscript too large, with its depth.
    pub const NOT_AN_ELEMENT: Refusal = Refusal {
        number: 22,
        ..Refusal::NONE
    };

    pub const BRANCH_NOT_CHOSEN: Refusal = Refusal {
        number: 23,
        ..Refusal::NONE
    };

    pub const SUBSCRIPT_COUNT: Refusal = Refusal {
        number: 24,
        ..Refusal::NONE
    };

    pub const NOT_A_NUMBER: Refusal = Refusal {
        number: 26,
        ..Refusal::NONE
    };
    // Of messages.
    pub const NO_ROOM: Refusal = Refusal {
        number: 21,
        ..Refusal::NONE
    };

    pub const NOT_A_REPLY: Refusal = Refusal {
        number: 43,
        ..Refusal::NONE
    };
}

// Whether a description is sound, a write is accepted, the matrix can be had.
pub type Verdict = Result<(), Refusal>;

// Where octets stand in the image, and how many.
#[derive(Clone, Copy)]
pub struct Location {
    pub start: ImageOffset,
    pub length: usize,
}

// Where a table or an element is, and how long.
pub type Place = Result<Location, Refusal>;

// What a question is answered: a case for each kind of answer. specs/Refusals.antt has the numbers that each tells.
#[derive(Clone, Copy)]
pub enum Answer {
    // A verdict that refuses nothing.
    Passed,
    // The total of octets used, of the image or of a room lent.
    Total(usize),
    // A place.
    At(Location),
    // An element's number.
    Number(u64),
    // The tier that holds; or that no switch has come yet that day.
    Tier(u32),
    NoneYet,
    // A question of yes or no.
    Yes,
    No,
    // A date's, 0 for Sunday to 6 for Saturday.
    Weekday(u32),
}

// What a question comes to.
pub type Reply = Result<Answer, Refusal>;

// A reply in numbers, for callers that know no enum: the refusal, and two numbers of the answer's own, 0 where it has fewer or is refused.
#[derive(Clone, Copy)]
pub struct Told {
    pub refusal: Refusal,
    pub first: u64,
    pub second: u64,
}

// What a request asks for (document 02's E2). Of a write, how many octets of data it has; they stand from its octet 5 on, behind an offset from octet 8 on.
#[derive(Clone, Copy)]
pub enum Requested {
    FullRead {
        id: u32,
    },
    OffsetRead {
        id: u32,
        offset: usize,
        count: usize,
    },
    FullWrite {
        id: u32,
        count: usize,
    },
    OffsetWrite {
        id: u32,
        offset: usize,
        count: usize,
    },
}

// As numbers, in messages and to callers: a request's kind is its first octet, and its data start there.
// Numbers and no enum of kinds: each form has its case in `Requested`, and a number of none is judged
// where it is read.
impl Requested {
    pub const FULL_READ: u64 = 0x30;

    pub const OFFSET_READ: u64 = 0x3F;

    pub const FULL_WRITE: u64 = 0x40;

    pub const OFFSET_WRITE: u64 = 0x4F;

    pub const FULL_DATA: usize = 5;

    pub const OFFSET_DATA: usize = 8;
}

// A meter's reply: so many octets of data, from its octet 3 on; a write done; the octet that refuses.
#[derive(Clone, Copy)]
pub enum Heard {
    Data { count: usize },
    Done,
    Refused(u32),
}

// As numbers, to callers that know no enum (ReplyTold): a reply's kind, and where a read's data start in it.
impl Heard {
    pub const DATA: u64 = 1;

    pub const DONE: u64 = 2;

    pub const REFUSED: u64 = 3;

    pub const DATA_START: usize = 3;
}

// A request that was read, in numbers, for callers that know no enum; C has this very struct. The octet that refuses it, 0 where none does; its kind, which is its first
// octet, id, offset and count; where its data start. All else is 0 where it is refused, and so is what its form lacks.
#[repr(C)]
#[derive(Clone, Copy)]
pub struct RequestTold {
    pub code: u64,
    pub kind: u64,
    pub id: u64,
    pub offset: u64,
    pub count: u64,
    pub start: u64,
}

// A meter's reply that was read, likewise: its kind, 1 for data, 2 for done, 3 for refused; the octet that refuses; how many data, and where they start.
#[repr(C)]
#[derive(Clone, Copy)]
pub struct ReplyTold {
    pub refusal: Refusal,
    pub kind: u64,
    pub code: u64,
    pub count: u64,
    pub start: u64,
}
