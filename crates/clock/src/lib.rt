// The clock: the date and time words of a number of seconds since 1980 began.
#![tactic(auto)]

ghost use Rattle.std.specs.Prelude.{◌≡◌, ℕ, ◌-◌, ◌/◌, ◌≤◌, ◌<◌};
ghost use Rattle.model.specs.Calendar.{is_leap, year_days, month_days, count_off, year_of, month_of, moment, date_word, time_word, stamp_of, last_second};
ghost use Rattle.clock.specs.Computes.{Computes};

use model::Elapsed;

// The last second of 2107.
pub const LAST_SECOND: u32 = 4039286399;

// Every fourth year but 2100.
#[tactic(auto, unfolding(model::specs::Calendar::is_leap))]
fn is_leap(year: u32) -> bool
    ensures { result ≡ is_leap year }
{
    year % 4 == 0 && year != 2100
}

// The days of a year.
#[tactic(auto, unfolding(model::specs::Calendar::year_days))]
fn year_days(year: u32) -> u32
    ensures { result ≡ year_days year }
{
    if is_leap(year) { 366 } else { 365 }
}

// The days of a month.
#[tactic(auto, unfolding(model::specs::Calendar::month_days, model::specs::Scan::any))]
fn month_days(year: u32, month: u32) -> u32
    ensures { result ≡ month_days year month }
{
    match month {
        2 => { if is_leap(year) { 29 } else { 28 } }
        4 | 6 | 9 | 11 => 30,
        _ => 31,
    }
}

// Days counted off in units of these lengths, from the unit `from` on, up to `end`: the unit that is reached, and the days of it.
fn count_off<F: Fn(u32) -> u32>(from: u32, end: u32, days: u32, length: F) -> Elapsed
    requires { F.IsAlwaysCallable length × (from ≤ end) }
    ensures { (long : ℕ → ℕ) → Computes (F.post length) long → result ≡ count_off long (end - from) from days }
{
    let mut left = days;
    for unit in from..end {
        let n = length(unit);
        if left < n {
            return Elapsed { unit, days: left };
        }
        left -= n;
    }
    Elapsed {
        unit: end,
        days: left,
    }
}

// The year that a number of days since 1980 began reaches.
fn year_of(days: u32) -> Elapsed
    ensures { result ≡ year_of days }
{
    count_off(1980, 2108, days, year_days)
}

// The month that a number of days of a year reaches.
fn month_of(year: u32, days: u32) -> Elapsed
    ensures { result ≡ month_of year days }
{
    count_off(1, 13, days, |month| month_days(year, month))
}

// The date: day in bits 0 to 4, month in 5 to 8, years since 1980 in 9 to 15.
#[tactic(auto, using(crate::proofs::Dates::reached), unfolding(model::specs::Calendar::moment))]
fn date_word(seconds: u32) -> u32
    requires { seconds ≤ last_second }
    ensures { (result ≡ date_word (moment seconds)) × (result < 65536) }
{
    let y = year_of(seconds / 86400);
    let m = month_of(y.unit, y.days);
    (y.unit - 1980) * 512 + m.unit * 32 + (m.days + 1)
}

// Seconds are halved, rounding down.
fn halved(second: u32) -> u32
    requires { second < 60 }
    ensures { result ≡ second / 2 }
{
    second / 2
}

// The time: seconds halved in bits 0 to 4, minutes in 5 to 10, hours in 11 to 15.
#[tactic(auto, unfolding(model::specs::Calendar::moment))]
fn time_word(seconds: u32) -> u32
    ensures { (result ≡ time_word (moment seconds)) × (result < 65536) }
{
    seconds % 86400 / 3600 * 2048 + seconds % 3600 / 60 * 32 + halved(seconds % 60)
}

// Both, the time in the low two bytes and the date in the high two.
#[tactic(auto, unfolding(model::specs::Calendar::stamp_of))]
pub fn stamp(seconds: u32) -> u32
    requires { seconds ≤ last_second }
    ensures { result ≡ stamp_of seconds }
{
    time_word(seconds) + 65536 * date_word(seconds)
}
