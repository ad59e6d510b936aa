// Dates and times of day: whether they are real, a date's day number, the weekday. Years from 1990 to
// 2089; any numbers may be given.
//
// Tests are joined by `both` and `either`, not by `&&` and `||`, and a month's days come from a table, not
// from a `match`: none of it makes a processor guess its way, so a real date takes as long whichever it is.
#![tactic(auto)]

ghost use Rattle.std.specs.Prelude.{◌≡◌, ◌≤◌, ◌&&◌};
ghost use Rattle.meaning.specs.Basics.{◌<?◌};
ghost use Rattle.meaning.specs.Calendar.{leap, month_length, real_date, real_time, year_days, month_days, weekday_of, weekday_reply};
ghost use Rattle.dates.specs.Days.{day_of};

use basics::{both, either};
use meaning::{Answer, Date, Refusal, Reply};

// How many days each month has, by its number, in a year that is no leap year.
const DAYS_IN: [u32; 13] = [0, 31, 28, 31, 30, 31, 30, 31, 31, 30, 31, 30, 31];

// And how many come before it.
const DAYS_BEFORE: [u32; 13] = [0, 0, 31, 59, 90, 120, 151, 181, 212, 243, 273, 304, 334];

#[tactic(auto, unfolding(meaning::specs::Calendar::leap))]
fn is_leap(year: u32) -> bool
    ensures { result ≡ leap year }
{
    both(year % 4 == 0, either(year % 100 != 0, year % 400 == 0))
}

// No such month has no days: 0 and no None, as the definition (month_length) has it.
fn month_length(year: u32, month: u32) -> u32
    ensures { result ≡ month_length year month }
{
    let days = DAYS_IN.get(month as usize).copied().unwrap_or(0);
    if both(month == 2, is_leap(year)) {
        return days + 1;
    }
    days
}

#[tactic(auto, unfolding(meaning::specs::Calendar::real_date))]
fn is_real(year: u32, month: u32, day: u32) -> bool
    ensures { result ≡ real_date year month day }
{
    let in_years = both(1990 <= year, year <= 2089);
    both(both(in_years, 0 < day), day <= month_length(year, month))
}

// The days of so many years from 1990 on. Every fourth has one more: 1992 is the first of them, and 2000
// is one of them. 2100 would be the first that isn't, so 1990 to 2099 are as far as this goes.
#[tactic(auto, using(almanac::proofs::Days::years_at_once), unfolding(almanac::specs::Days::every_fourth))]
fn year_days(years: u32) -> u32
    requires { years ≤ 110 }
    ensures { result ≡ year_days years }
{
    365 * years + (years + 1) / 4
}

// Whether a leap year's own day comes before a month.
#[tactic(auto, unfolding(meaning::specs::Calendar::leap))]
fn past_leap_day(year: u32, month: u32) -> bool
    ensures { result ≡ (2 <? month && leap year) }
{
    both(2 < month, is_leap(year))
}

// The days of a year before a month. A leap year has one more before March and each month behind it.
fn month_days(year: u32, month: u32) -> u32
    requires { month ≤ 12 }
    ensures { result ≡ month_days year month }
{
    let days = DAYS_BEFORE[month as usize];
    if past_leap_day(year, month) {
        return days + 1;
    }
    days
}

// A day's number, 1 January 1990 being 0; none where there is no such date. It is worked out at once: it
// takes as long for every real date; and inlined, as a call would be a good part of it. Three numbers and no
// Date, as crate unique states it: records and moments have no Date to give.
#[tactic(auto, using(almanac::proofs::Days::real, crate::proofs::Laws::day_fits), unfolding(crate::specs::Days::day_of, meaning::specs::Calendar::day_number))]
#[inline]
pub fn day_of(year: u32, month: u32, day: u32) -> Option<u32>
    ensures { result ≡ day_of year month day }
{
    if is_real(year, month, day) {
        return Some(year_days(year - 1990) + month_days(year, month) + (day - 1));
    }
    None
}

// 0 is Sunday, 6 Saturday: a number and no enum, as the definition (weekday_of) counts. The remainder is taken first, as the number after the last wouldn't fit.
#[tactic(auto, unfolding(meaning::specs::Calendar::weekday_of))]
pub fn weekday(day: u32) -> u32
    ensures { result ≡ weekday_of day }
{
    (day % 7 + 1) % 7
}

// The weekday of a date; 16 where it isn't real.
#[tactic(auto, unfolding(meaning::specs::Calendar::weekday_reply, crate::specs::Days::day_of))]
pub fn weekday_of(date: Date) -> Reply
    ensures { result ≡ weekday_reply date }
{
    let day = day_of(date.year, date.month, date.day).ok_or(Refusal::NOT_A_DATE)?;
    Ok(Answer::Weekday(weekday(day)))
}

// Whether it is a time 00:00 to 23:59.
#[tactic(auto, unfolding(meaning::specs::Calendar::real_time))]
pub fn is_time(hour: u32, minute: u32) -> bool
    ensures { result ≡ real_time hour minute }
{
    both(hour <= 23, minute <= 59)
}
