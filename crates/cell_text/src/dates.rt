ghost use Rattle.std.specs.Prelude.{◌≡◌, ◌≤◌, ◌+◌, ◌++◌, length, if◌then◌else◌, Some, None, pos, ◌≤ℤ◌, ◌-ℤ◌, OnOk, OnErr};
ghost use Rattle.jiff.specs.Words.{epoch_day};
ghost use Rattle.cell_text.specs.Days.{civil_day, day_of, are_two, two_at, date_spelling, date_text, year_of, month_of, day_of_month};

use jiff::civil::Date;
use std::alloc::AllocError;

// The day number of a date, where the calendar has it.
fn civil_day(year: u16, month: u8, day: u8) -> Option<i32>
    requires year { year ≤ 9999 }
    requires month { month ≤ 99 }
    requires day { day ≤ 99 }
    ensures { result ≡ civil_day year month day }
{
    match Date::new(year as i16, month as i8, day as i8) {
        Ok(date) => Some(date.to_plain().to_unix_epoch_day() + 719_528),
        Err(_) => None,
    }
}

// Two digits, from a place on.
fn two_digits(bytes: &[u8], at: usize) -> Option<u8>
    requires { at + 2 ≤ length bytes.now }
    ensures { result ≡ (if are_two bytes.now at then Some (two_at bytes.now at) else None) }
{
    let high = bytes[at];
    let low = bytes[at + 1];
    if high.is_ascii_digit() && low.is_ascii_digit() {
        Some((high - b'0') * 10 + (low - b'0'))
    } else {
        None
    }
}

/// The day of a text `YYYY-MM-DD`, counted from 0000-01-01, where the calendar has it.
pub fn read_date(bytes: &[u8]) -> Option<i32>
    ensures { result ≡ day_of bytes.now }
{
    if bytes.len() != 10 {
        return None;
    }
    let century = two_digits(bytes, 0)?;
    let year = two_digits(bytes, 2)?;
    if bytes[4] != b'-' {
        return None;
    }
    let month = two_digits(bytes, 5)?;
    if bytes[7] != b'-' {
        return None;
    }
    let day = two_digits(bytes, 8)?;
    civil_day(u16::from(century) * 100 + u16::from(year), month, day)
}

// The date with a day number.
fn numbered_date(day: i32) -> Date
    requires low { pos 0 ≤ℤ day }
    requires high { day ≤ℤ pos 3652424 }
    ensures { epoch_day result ≡ day -ℤ pos 719528 }
{
    match jiff_core::civil::Date::from_unix_epoch_day(i64::from(day) - 719_528) {
        Ok(date) => Date::from_plain(date),
        Err(_) => Date::ZERO,
    }
}

// The year, the month and the place in it of a day.
fn date_of(day: i32) -> Date
    requires low { pos 0 ≤ℤ day }
    requires high { day ≤ℤ pos 3652424 }
    ensures year { result.year ≡ pos (year_of day) }
    ensures month { result.month ≡ month_of day }
    ensures place { result.day ≡ day_of_month day }
    ensures reads_back { day_of (date_text day) ≡ Some day }
{
    numbered_date(day)
}

// `YYYY-MM-DD`.
fn date_bytes(year: u16, month: u8, day: u8) -> [u8; 10]
    requires year { year ≤ 9999 }
    requires month { month ≤ 99 }
    requires day { day ≤ 99 }
    ensures { result ≡ date_spelling year month day }
{
    let century = (year / 100) as u8;
    let rest = (year % 100) as u8;
    [
        b'0' + century / 10,
        b'0' + century % 10,
        b'0' + rest / 10,
        b'0' + rest % 10,
        b'-',
        b'0' + month / 10,
        b'0' + month % 10,
        b'-',
        b'0' + day / 10,
        b'0' + day % 10,
    ]
}

/// Appends the text `YYYY-MM-DD` of a day.
pub fn write_date(day: i32, out: &mut Vec<u8>) -> Result<(), AllocError>
    requires low { pos 0 ≤ℤ day }
    requires high { day ≤ℤ pos 3652424 }
    ensures ok { OnOk result (out.new.items ≡ out.old.items ++ date_text day) }
    ensures err { OnErr result (out.new.items ≡ out.old.items) }
    ensures reads_back { day_of (date_text day) ≡ Some day }
{
    let date = date_of(day);
    let text = date_bytes(date.year() as u16, date.month() as u8, date.day() as u8);
    out.extend_from_slice(&text)
}
