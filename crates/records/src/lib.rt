// Records of Table 54, three octets each: what a record brings to whoever asks, and the latest of
// what some records bring.
//
// Any octets may be given; one or two past the last whole record aren't read.
#![tactic(auto)]

ghost use Rattle.std.specs.Prelude.{◌≡◌, if◌then◌else◌};
ghost use Rattle.meaning.specs.Calendar.{triple_at, or_later, year_of, flagged_for, counts, season_entry, special_entry, switch_entry};
ghost use Rattle.records.specs.Records.{record_date, selected, brought_to, when_of, latest_in};

use basics::{both, either, wide};
use meaning::{Chosen, Entry, Quantity, Triple};

// What is wanted of some records. An enum and no closure, since crates/unique states of `latest` over it
// that a call has one reply.
#[derive(Clone, Copy)]
pub enum Wanted {
    // The season on a day, the special schedule on a day.
    Season {
        today: u32,
    },
    Special {
        today: u32,
    },
    // The switch of a schedule at a minute of the day; `separate` is SEPARATE_SUM_DEMANDS.
    Switch {
        separate: bool,
        quantity: Quantity,
        schedule: u32,
        minute: u32,
    },
}

// A RECORD
fn triple_of(order: u32, raw: &[u8; 3]) -> Triple
    ensures { result ≡ triple_at order raw.now 0 }
{
    Triple {
        word: octets::number_in(&raw[..2], order) as u32,
        octet: wide(raw[2]),
    }
}

// WHAT A DATE BRINGS
// The year of two digits; 100 and over are no years: 0, in which there is no date, and no None, as the
// definition (year_of) has it.
#[tactic(auto, unfolding(meaning::specs::Calendar::year_of))]
fn year_of(digits: u32) -> u32
    ensures { result ≡ year_of digits }
{
    match digits {
        0..=89 => 2000 + digits,
        90..=99 => 1900 + digits,
        _ => 0,
    }
}

#[tactic(auto, using(basics::proofs::Bits::from_bit_0), unfolding(crate::specs::Records::record_date))]
fn record_date(triple: Triple) -> Option<u32>
    ensures { result ≡ record_date triple }
{
    let year = year_of(triple.word % 128);
    dates::day_of(year, triple.word / 128 % 16, triple.word / 2048 % 32)
}

// What an action selects, where it is one of `first` to `last`: the first selects 0.
#[tactic(auto, unfolding(crate::specs::Records::selected))]
fn selected(first: u32, last: u32, action: u32) -> Option<u32>
    ensures { result ≡ selected first last action }
{
    if first <= action && action <= last {
        return Some(action - first);
    }
    None
}

// A season holds from its day on, and actions 3 to 18 select it. This and the next compare the day
// differently; one function that is handed the comparison would be no plainer, and of `filter` a proof could
// cite nothing that its closure answers.
#[tactic(auto, using(crate::proofs::Laws::season_is))]
fn season_entry(today: u32, triple: Triple) -> Chosen
    ensures { result ≡ season_entry today triple }
{
    let season = selected(3, 18, triple.octet % 32);
    match (record_date(triple), season) {
        (Some(when), Some(brings)) if when <= today => Some(Entry { when, brings }),
        _ => None,
    }
}

// A special schedule holds on its day alone, and actions 19 to 30 select it.
#[tactic(auto, using(crate::proofs::Laws::special_is))]
fn special_entry(today: u32, triple: Triple) -> Chosen
    ensures { result ≡ special_entry today triple }
{
    let special = selected(19, 30, triple.octet % 32);
    match (record_date(triple), special) {
        (Some(when), Some(brings)) if when == today => Some(Entry { when, brings }),
        _ => None,
    }
}

// WHAT A SWITCH BRINGS
#[tactic(auto, unfolding(meaning::specs::Calendar::flagged_for))]
fn flagged_for(quantity: Quantity, word: u32) -> bool
    ensures { result ≡ flagged_for quantity word }
{
    match quantity {
        Quantity::Summations => word / 8 % 2 == 1,
        Quantity::Demands => word / 16 % 2 == 1,
    }
}

#[tactic(auto, unfolding(meaning::specs::Calendar::counts))]
fn does_count(separate: bool, quantity: Quantity, word: u32) -> bool
    ensures { result ≡ counts separate quantity word }
{
    either(!separate, flagged_for(quantity, word))
}

// The tests are joined by `both`, not by `&&`, and the entry is made before they are asked, with no early
// return: of switches in any order each test alone is a guess that a processor often gets wrong.
#[tactic(auto, using(basics::proofs::Bits::from_bit_0), unfolding(meaning::specs::Calendar::switch_entry, meaning::specs::Calendar::switch_minute))]
fn switch_entry(
    separate: bool,
    quantity: Quantity,
    schedule: u32,
    minute: u32,
    triple: Triple,
) -> Chosen
    ensures { result ≡ switch_entry separate quantity schedule minute triple }
{
    let word = triple.word;
    let hours = word / 2048 % 32;
    let minutes = word / 32 % 64;
    let when = 60 * hours + minutes;
    let of_it = both(triple.octet == schedule, dates::is_time(hours, minutes));
    let come = both(of_it, when <= minute);
    let mut entry = Some(Entry {
        when,
        brings: word % 8,
    });
    if !both(come, does_count(separate, quantity, word)) {
        entry = None;
    }
    entry
}

// THE LATEST
#[tactic(auto, unfolding(crate::specs::Records::brought_to))]
fn brought_to(wanted: Wanted, triple: Triple) -> Chosen
    ensures { result ≡ brought_to wanted triple }
{
    match wanted {
        Wanted::Season { today } => season_entry(today, triple),
        Wanted::Special { today } => special_entry(today, triple),
        Wanted::Switch {
            separate,
            quantity,
            schedule,
            minute,
        } => switch_entry(separate, quantity, schedule, minute, triple),
    }
}

// From when something holds; 0 where there is nothing.
#[tactic(auto, unfolding(crate::specs::Records::when_of))]
fn when_of(chosen: Chosen) -> u32
    ensures { result ≡ when_of chosen }
{
    match chosen {
        None => 0,
        Some(entry) => entry.when,
    }
}

// Whether what a later record brings takes the place of what an earlier one brings. Where there is no earlier
// one, 0 stands for its time, so that one comparison tells it: whether there is one is no test of its own, and
// no guess.
#[tactic(auto, using(almanac::proofs::Latest::none_later, crate::proofs::Laws::later_by_when))]
fn replaces(later: Chosen, earlier: Chosen) -> bool
    ensures { or_later earlier later ≡ (if result then later else earlier) }
{
    match later {
        None => false,
        Some(entry) => when_of(earlier) <= entry.when,
    }
}

// Of what two records bring, the later; of equals, what the later record brings.
fn or_later(earlier: Chosen, later: Chosen) -> Chosen
    ensures { result ≡ or_later earlier later }
{
    if replaces(later, earlier) {
        return later;
    }
    earlier
}

// The latest of what some records bring.
pub fn latest(order: u32, records: &[u8], wanted: Wanted) -> Chosen
    ensures { result ≡ latest_in order records.now wanted }
{
    let (whole, _) = records.as_chunks::<3>();
    let mut chosen = None;
    for record in whole {
        chosen = or_later(chosen, brought_to(wanted, triple_of(order, record)));
    }
    chosen
}
