ghost use Rattle.std.specs.{Cmp.Rules.comparing, Prelude.{◌≡◌, ◌==◌, ◌&&◌, ◌+◌, ◌<◌, ◌≤◌, ◌-ℤ◌, length, pos, true, IsTrue, Some}, List.list_all};
ghost use Rattle.std.proofs.Common.{rules};
ghost use Rattle.edi_syntax.specs.Moments.{CivilMoment, is_moment, is_day, is_digit, number_at, are_moment_digits, moment_of, moment_text, moment_digits, two_digits, day_number, DaysAreTheCalendars};
ghost use Rattle.jiff.specs.Words.{epoch_day};

use jiff::civil::{Date, date};
use std::marker::Model;

/// A day of the calendar from the year 0 to 9999, and an hour and a minute of that day.
#[derive(Clone, Copy, Eq, Debug)]
pub struct Moment {
    year: u16,
    month: u8,
    day: u8,
    hour: u8,
    minute: u8,
}

impl Model for Moment {
    ghost Value = { CivilMoment };

    ghost view = { λ m. record { year = m.year; month = m.month; day = m.day; hour = m.hour; minute = m.minute } };

    ghost invariant = { λ m.
        IsTrue (is_moment (record { year = m.year; month = m.month; day = m.day; hour = m.hour; minute = m.minute })) };

    ghost inverse = { λ m. record { year = m.year; month = m.month; day = m.day; hour = m.hour; minute = m.minute } };
}

impl PartialEq for Moment {
    ghost eq = { λ a b. a.year == b.year && a.month == b.month && a.day == b.day && a.hour == b.hour
        && a.minute == b.minute };

    ghost laws = { Prim.search (comparing, rules) };

    /// Day, hour and minute are the same.
    fn eq(&self, other: &Moment) -> bool {
        self.year == other.year
            && self.month == other.month
            && self.day == other.day
            && self.hour == other.hour
            && self.minute == other.minute
    }
}

impl Moment {
    /// The moment of twelve digits, CCYYMMDDHHMM, or of eight, CCYYMMDD at 00:00. `None` if the text isn't that, the
    /// calendar has no such day, the hour is over 23 or the minute over 59.
    pub fn parse(text: &[u8]) -> Option<Moment>
        ensures { result ≡ moment_of text.now }
    {
        if !are_moment_digits(text) {
            return None;
        }
        let year = u16::from(number_at(text, 0)) * 100 + u16::from(number_at(text, 2));
        let month = number_at(text, 4);
        let day = number_at(text, 6);
        let hour = number_at(text, 8);
        let minute = number_at(text, 10);
        if is_day(year, month, day) && hour < 24 && minute < 60 {
            Some(Moment {
                year,
                month,
                day,
                hour,
                minute,
            })
        } else {
            None
        }
    }

    /// The moment as `2024-03-05 09:10`.
    pub fn text(self) -> [u8; 16]
        ensures { result ≡ moment_text self }
    {
        let [c1, c0] = two_digits((self.year / 100) as u8);
        let [y1, y0] = two_digits((self.year % 100) as u8);
        let [m1, m0] = two_digits(self.month);
        let [d1, d0] = two_digits(self.day);
        let [h1, h0] = two_digits(self.hour);
        let [n1, n0] = two_digits(self.minute);
        [
            c1, c0, y1, y0, b'-', m1, m0, b'-', d1, d0, b' ', h1, h0, b':', n1, n0,
        ]
    }

    /// The moment as CCYYMMDDHHMM, from which it is read again.
    pub fn digits(self) -> [u8; 12]
        ensures written { result ≡ moment_digits self }
        ensures read { moment_of result ≡ Some self }
    {
        let _ = &self.year;
        self.written()
    }

    fn written(self) -> [u8; 12]
        ensures { result ≡ moment_digits self }
    {
        let [c1, c0] = two_digits((self.year / 100) as u8);
        let [y1, y0] = two_digits((self.year % 100) as u8);
        let [m1, m0] = two_digits(self.month);
        let [d1, d0] = two_digits(self.day);
        let [h1, h0] = two_digits(self.hour);
        let [n1, n0] = two_digits(self.minute);
        [c1, c0, y1, y0, m1, m0, d1, d0, h1, h0, n1, n0]
    }

    /// The days from this moment's date to another's, negative if that is earlier.
    pub fn days_until(self, other: Moment) -> i32
        ensures { result ≡ day_number other -ℤ day_number self }
    {
        self.date().to_plain().until(other.date().to_plain())
    }

    fn date(self) -> Date
        ensures { epoch_day result ≡ day_number self }
    {
        date(self.year as i16, self.month as i8, self.day as i8)
    }
}

/// The text is twelve digits or eight.
fn are_moment_digits(text: &[u8]) -> bool
    ensures { result ≡ are_moment_digits text.now }
{
    (text.len() == 12 || text.len() == 8) && are_digits(text)
}

fn are_digits(text: &[u8]) -> bool
    ensures { result ≡ list_all is_digit text.now }
{
    text.iter().all(|byte| byte.is_ascii_digit())
}

/// The number of the two digits at a place, 0 if there are none.
fn number_at(text: &[u8], i: usize) -> u8
    requires digits { list_all is_digit text.now ≡ true }
    requires within { i < 100 }
    ensures number { result ≡ number_at text.now i }
    ensures small { result < 100 }
{
    if i + 2 <= text.len() {
        (text[i] - b'0') * 10 + (text[i + 1] - b'0')
    } else {
        0
    }
}

/// The calendar has this day.
fn is_day(year: u16, month: u8, day: u8) -> bool
    requires year_within { year ≤ 9999 }
    requires month_within { month < 100 }
    requires day_within { day < 100 }
    ensures { result ≡ is_day year month day }
{
    Date::new(year as i16, month as i8, day as i8).is_ok()
}

/// The two digits of a number below a hundred.
fn two_digits(number: u8) -> [u8; 2]
    requires { number < 100 }
    ensures { result ≡ two_digits number }
{
    [b'0' + number / 10, b'0' + number % 10]
}

/// The days of moments are those of the calendar.
pub fn days_are_the_calendars()
    ensures { DaysAreTheCalendars }
{}
