// The calendar: which tier holds at a date and time, whether a season record stands by a date, and
// the schedule matrix. The public calls stand at the end.
//
// Any description, image, date and time get an answer. Refusals 1 to 9 come first, then 10, 20, 16,
// 18, 19. Tables 51 and 54 are read as octets, however the description divides them, and their
// two-octet fields in the image's DATA_ORDER. Nothing is kept: each call lays the image out anew.
#![tactic(auto)]

ghost use Rattle.std.specs.Prelude.{◌≡◌, ◌+◌, ◌*◌, ◌<◌, ◌≤◌, length, get_or, IfOk, IfErr};
ghost use Rattle.meaning.specs.Basics.{part, build};
ghost use Rattle.meaning.specs.Calendar.{controls_of, dates_at, matrix_at, day_columns, row_width, sized, calendar, day_column, column_on, missing_special, cell_at, tier_by_schedule, tier_on, tier_day, tier_in, found, missing, tier_reply, latest, dates_of, in_season, season_stands, seasoned_in, seasoned_reply, matrix_of, matrix_reply, matrix_verdict, cells_after};
ghost use Rattle.records.specs.Records.{brought_to};
ghost use Rattle.calendar.specs.Sections.{Small, sections_of, Sized};

use basics::wide;
use meaning::{Answer, Chosen, Controls, Date, Moment, Quantity, Refusal, Reply, Verdict};
use records::Wanted;

// The columns of days: Sunday to Saturday; or Saturday, Sunday, weekday.
const EACH_DAY: usize = 7;

const SHARED: usize = 3;

// Where the parts of Table 54 stand, how wide a row of the matrix is, and how long the table is.
#[derive(Clone, Copy)]
struct Sections {
    dates: usize,
    switches: usize,
    matrix: usize,
    width: usize,
    size: usize,
}

// The calendar of an image: its DATA_ORDER, what Table 51 says, and Table 54's octets, as many as Table 51
// says.
#[derive(Clone, Copy)]
struct Calendar<'a> {
    order: u32,
    controls: Controls,
    sections: Sections,
    table: &'a [u8],
    ghost sized: { Sized controls table.now },
    ghost placed: { sections ≡ sections_of controls },
}

// TABLES 51 AND 54
fn controls_of(order: u32, table: &[u8; 9]) -> Controls
    ensures reply { result ≡ controls_of order table.now }
    ensures small { Small result }
{
    let first = wide(table[0]);
    let second = wide(table[1]);
    let schedules = wide(table[2]);
    Controls {
        armed: first / 8 % 2 == 1,
        anchored: first / 32 % 2 == 1,
        weekdays: second / 2 % 2 == 1,
        separate: second / 4 % 2 == 1,
        seasons: (schedules % 16) as usize,
        specials: (schedules / 16 % 16) as usize,
        dates: wide(table[3]) as usize,
        recurring: wide(table[4]) as usize,
        switches: octets::number_in(&table[5..7], order) as usize,
    }
}

#[tactic(auto, unfolding(meaning::specs::Calendar::dates_at))]
fn dates_at(controls: Controls) -> usize
    ensures { result ≡ dates_at controls }
{
    if controls.anchored {
        return 2;
    }
    0
}

#[tactic(auto, unfolding(meaning::specs::Calendar::day_columns))]
fn day_columns(controls: Controls) -> usize
    ensures { result ≡ day_columns controls }
{
    if controls.weekdays {
        return EACH_DAY;
    }
    SHARED
}

#[tactic(auto, using(crate::proofs::Laws::records_few, crate::proofs::Laws::columns_few, crate::proofs::Laws::cells_few), unfolding(crate::specs::Sections::sections_of, meaning::specs::Calendar::switches_at, meaning::specs::Calendar::matrix_at, meaning::specs::Calendar::row_width, meaning::specs::Calendar::table54_size))]
fn sections_of(controls: Controls) -> Sections
    requires { Small controls }
    ensures { result ≡ sections_of controls }
{
    let dates = dates_at(controls);
    let switches = dates + 3 * controls.dates + 3 * controls.recurring;
    let matrix = switches + 3 * controls.switches;
    let width = day_columns(controls) + controls.specials;
    let size = matrix + controls.seasons * width;
    Sections {
        dates,
        switches,
        matrix,
        width,
        size,
    }
}

// The season that is chosen; season 0 on a day before every season record.
#[tactic(auto, unfolding(meaning::specs::Calendar::in_season))]
fn in_season(chosen: Chosen) -> usize
    ensures { result ≡ in_season chosen }
{
    match chosen {
        None => 0,
        Some(season) => season.brings as usize,
    }
}

impl<'a> Calendar<'a> {
    // 1 to 10, then 20. Table 00 isn't asked for: no image lays out without it.
    fn of(description: &[u8], image: &'a [u8]) -> Result<Calendar<'a>, Refusal>
        ensures found { IfOk result (λ k. found k.order k.controls k.table.now ≡ calendar description.now image.now) }
        ensures missing { IfErr result (λ r. missing r ≡ calendar description.now image.now) }
    {
        let tables = places::table_places(description, image, 0, 51, 0, 54);
        let table51 = tables.first?;
        let table54 = tables.second?;
        Calendar::sized(
            octets::data_order(image),
            octets::part(image, table51.start, table51.length),
            octets::part(image, table54.start, table54.length),
        )
    }

    // 20, by the octets of tables 51 and 54.
    #[tactic(auto, unfolding(meaning::specs::Calendar::sized, crate::specs::Sections::sections_of))]
    fn sized(order: u32, table51: &[u8], table54: &'a [u8]) -> Result<Calendar<'a>, Refusal>
        ensures found { IfOk result (λ k. found k.order k.controls k.table.now ≡ sized order table51.now table54.now) }
        ensures missing { IfErr result (λ r. missing r ≡ sized order table51.now table54.now) }
    {
        let table51 = table51.as_array().ok_or(Refusal::NOT_A_CALENDAR)?;
        let controls = controls_of(order, table51);
        let sections = sections_of(controls);
        if table54.len() != sections.size {
            return Err(Refusal::NOT_A_CALENDAR);
        }
        Ok(Calendar {
            order,
            controls,
            sections,
            table: table54,
        })
    }

    // What the non-recurring dates bring.
    #[tactic(auto, using(crate::proofs::Laws::dates_inside, crate::proofs::Laws::dates_latest))]
    fn chosen_by(&self, wanted: Wanted) -> Chosen
        ensures { result ≡ latest (brought_to wanted) (dates_of self.now.order self.now.controls self.now.table.now) }
    {
        let at = self.sections.dates;
        let dates = &self.table[at..at + 3 * self.controls.dates];
        records::latest(self.order, dates, wanted)
    }

    // THE SCHEDULE
    #[tactic(auto, unfolding(meaning::specs::Calendar::day_column))]
    fn day_column(&self, weekday: u32) -> usize
        ensures { result ≡ day_column self.now.controls weekday }
    {
        if self.controls.weekdays {
            return weekday as usize;
        }
        match weekday {
            6 => 0,
            0 => 1,
            _ => 2,
        }
    }

    #[tactic(auto, using(almanac::proofs::Matrix::days_most), unfolding(meaning::specs::Calendar::column_on))]
    fn column_on(&self, day: u32, special: Chosen) -> usize
        ensures { result ≡ column_on self.now.controls day special }
    {
        match special {
            None => self.day_column(dates::weekday(day)),
            Some(special) => day_columns(self.controls) + special.brings as usize,
        }
    }

    #[tactic(auto, unfolding(meaning::specs::Calendar::missing_special))]
    fn missing_special(&self, special: Chosen) -> bool
        ensures { result ≡ missing_special self.now.controls special }
    {
        match special {
            None => false,
            Some(special) => self.controls.specials <= special.brings as usize,
        }
    }

    // The schedule in a cell of the matrix.
    #[tactic(auto, using(crate::proofs::Laws::cell_inside), unfolding(meaning::specs::Calendar::cell_at, crate::specs::Sections::sections_of))]
    fn cell_at(&self, row: usize, column: usize) -> u32
        requires has_row { row < self.now.controls.seasons }
        requires has_column { column < row_width self.now.controls }
        ensures { result ≡ cell_at self.now.controls self.now.table.now row column }
    {
        wide(self.table[self.sections.matrix + row * self.sections.width + column])
    }

    // THE TIER
    #[tactic(auto, using(crate::proofs::Laws::switches_inside, crate::proofs::Laws::switches_latest, crate::proofs::Laws::tier_is), unfolding(meaning::specs::Calendar::tier_from))]
    fn tier_at(&self, quantity: Quantity, schedule: u32, minute: u32) -> Reply
        ensures { result ≡ tier_by_schedule self.now.order self.now.controls self.now.table.now quantity schedule minute }
    {
        let wanted = Wanted::Switch {
            separate: self.controls.separate,
            quantity,
            schedule,
            minute,
        };
        let switches = &self.table[self.sections.switches..self.sections.matrix];
        match records::latest(self.order, switches, wanted) {
            None => Ok(Answer::NoneYet),
            Some(switch) => Ok(Answer::Tier(switch.brings)),
        }
    }

    // 19, by the special schedule and the season on the day. Day, minute and quantity are no struct: the
    // definitions (tier_day, tier_on, tier_at) take them one by one.
    #[tactic(auto, using(crate::proofs::Laws::column_inside), unfolding(meaning::specs::Calendar::tier_on))]
    fn tier_on(
        &self,
        day: u32,
        minute: u32,
        quantity: Quantity,
        special: Chosen,
        season: usize,
    ) -> Reply
        ensures { result ≡ tier_on self.now.order self.now.controls self.now.table.now day minute quantity special season }
    {
        if self.controls.seasons <= season {
            return Err(Refusal::NO_ROW_OR_COLUMN);
        }
        if self.missing_special(special) {
            return Err(Refusal::NO_ROW_OR_COLUMN);
        }
        let column = self.column_on(day, special);
        let schedule = self.cell_at(season, column);
        self.tier_at(quantity, schedule, minute)
    }

    #[tactic(auto, unfolding(meaning::specs::Calendar::tier_day, meaning::specs::Calendar::special_on, meaning::specs::Calendar::season_on, records::specs::Records::brought_to))]
    fn tier_day(&self, day: u32, minute: u32, quantity: Quantity) -> Reply
        ensures { result ≡ tier_day self.now.order self.now.controls self.now.table.now day minute quantity }
    {
        let special = self.chosen_by(Wanted::Special { today: day });
        let season = self.chosen_by(Wanted::Season { today: day });
        self.tier_on(day, minute, quantity, special, in_season(season))
    }

    // 16, then 18.
    #[tactic(auto, using(crate::proofs::Laws::few_minutes), unfolding(meaning::specs::Calendar::tier_in, dates::specs::Days::day_of))]
    fn tier_in(&self, moment: Moment, quantity: Quantity) -> Reply
        ensures { result ≡ tier_in moment quantity (found self.now.order self.now.controls self.now.table.now) }
    {
        if !dates::is_time(moment.hour, moment.minute) {
            return Err(Refusal::NOT_A_DATE);
        }
        let day = dates::day_of(moment.year, moment.month, moment.day).ok_or(Refusal::NOT_A_DATE)?;
        if self.controls.armed {
            return Err(Refusal::SEASON_CHANGE_ARMED);
        }
        self.tier_day(day, 60 * moment.hour + moment.minute, quantity)
    }

    // THE SEASON RECORDS
    // Whether one stands at or before a day: then it, or a later one, is chosen.
    #[tactic(auto, using(crate::proofs::Laws::stands_is))]
    fn season_stands(&self, day: u32) -> bool
        ensures { result ≡ season_stands day (dates_of self.now.order self.now.controls self.now.table.now) }
    {
        self.chosen_by(Wanted::Season { today: day }).is_some()
    }

    // 16 alone.
    #[tactic(auto, unfolding(meaning::specs::Calendar::seasoned_in, dates::specs::Days::day_of))]
    fn seasoned_in(&self, date: Date) -> Reply
        ensures { result ≡ seasoned_in date (found self.now.order self.now.controls self.now.table.now) }
    {
        let day = dates::day_of(date.year, date.month, date.day).ok_or(Refusal::NOT_A_DATE)?;
        if self.season_stands(day) {
            return Ok(Answer::Yes);
        }
        Ok(Answer::No)
    }

    // THE MATRIX
    // The octets of a row.
    #[tactic(auto, using(crate::proofs::Cells::row_inside), unfolding(crate::specs::Sections::sections_of, meaning::specs::Basics::part))]
    fn row(&self, row: usize) -> &[u8]
        requires { row < self.now.controls.seasons }
        ensures { result.now ≡ part self.now.table.now (matrix_at self.now.controls + row * row_width self.now.controls) (row_width self.now.controls) }
    {
        let at = self.sections.matrix + row * self.sections.width;
        &self.table[at..at + self.sections.width]
    }

    // All rows, of cells 0 past the last. By index: a row is asked for by its number.
    fn rows(&self) -> [[u8; 22]; 15]
        ensures { result ≡ matrix_of self.now.controls self.now.table.now }
    {
        let mut rows = [[0u8; 22]; 15];
        for row in 0..self.controls.seasons {
            rows[row] = cells_of(self.row(row));
        }
        rows
    }
}

// Octets as a row of cells; the cells behind them are 0. Written by their index: of cells that `iter_mut`
// hands to a `zip` a proof knows nothing afterwards.
fn cells_of(octets: &[u8]) -> [u8; 22]
    requires { length octets.now ≤ 22 }
    ensures { result ≡ build 22 (λ column. get_or octets.now column 0) }
{
    let mut row = [0u8; 22];
    for (column, octet) in octets.iter().enumerate() {
        row[column] = *octet;
    }
    row
}

// THE PUBLIC CALLS
// The tier at a date and time, for summations or demands.
#[tactic(auto, unfolding(meaning::specs::Calendar::tier_reply, meaning::specs::Calendar::tier_in))]
pub fn tier(description: &[u8], image: &[u8], moment: Moment, quantity: Quantity) -> Reply
    ensures { result ≡ tier_reply description.now image.now moment quantity }
{
    let calendar = Calendar::of(description, image)?;
    calendar.tier_in(moment, quantity)
}

// Whether any season record with a real date stands at or before a date.
#[tactic(auto, unfolding(meaning::specs::Calendar::seasoned_reply, meaning::specs::Calendar::seasoned_in))]
pub fn seasoned(description: &[u8], image: &[u8], date: Date) -> Reply
    ensures { result ≡ seasoned_reply description.now image.now date }
{
    let calendar = Calendar::of(description, image)?;
    calendar.seasoned_in(date)
}

// The matrix; all cells 0 on refusal. It and its refusal are two calls and no Result: crate unique states each
// by its definition (matrix_reply, matrix_verdict).
#[tactic(auto, unfolding(meaning::specs::Calendar::matrix_reply, meaning::specs::Calendar::matrix_in, meaning::specs::Basics::build))]
pub fn matrix(description: &[u8], image: &[u8]) -> [[u8; 22]; 15]
    ensures { result ≡ matrix_reply description.now image.now }
{
    match Calendar::of(description, image) {
        Err(_) => [[0; 22]; 15],
        Ok(calendar) => calendar.rows(),
    }
}

// The matrix's refusal.
#[tactic(auto, unfolding(meaning::specs::Calendar::matrix_verdict, meaning::specs::Calendar::matrix_verdict_in))]
pub fn matrix_verdict(description: &[u8], image: &[u8]) -> Verdict
    ensures { result ≡ matrix_verdict description.now image.now }
{
    Calendar::of(description, image)?;
    Ok(())
}

// The matrix into cells, and its refusal. A refused call leaves cells as they are.
#[tactic(auto, unfolding(meaning::specs::Calendar::matrix_verdict, meaning::specs::Calendar::matrix_verdict_in, meaning::specs::Calendar::matrix_reply, meaning::specs::Calendar::matrix_in, meaning::specs::Calendar::cells_after))]
pub fn matrix_into(description: &[u8], image: &[u8], cells: &mut [[u8; 22]; 15]) -> Verdict
    ensures reply { result ≡ matrix_verdict description.now image.now }
    ensures cells { cells.new ≡ cells_after (matrix_verdict description.now image.now) (matrix_reply description.now image.now) cells.old }
{
    let calendar = Calendar::of(description, image)?;
    *cells = calendar.rows();
    Ok(())
}
