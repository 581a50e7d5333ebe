ghost use Rattle.std.specs.Prelude.{◌≡◌, option_and_then};
ghost use Rattle.cell_text.specs.Cells.{digits_after};
ghost use Rattle.schema_json.specs.TypeNames.{if_u32, kind_named, length_named, varchar_named};

use pk_values::Kind;

// The number that digits spell, if it has 32 bits.
fn number_named(digits: &[u8]) -> Option<u32>
    ensures { result ≡ option_and_then if_u32 (digits_after 0 digits.now) }
{
    let mut number: u64 = 0;
    for digit in digits {
        if !digit.is_ascii_digit() {
            return None;
        }
        number = number * 10 + u64::from(*digit - b'0');
        if number > 0xffff_ffff {
            return None;
        }
    }
    Some(number as u32)
}

fn length_named(digits: &[u8]) -> Option<u32>
    ensures { result ≡ length_named digits.now }
{
    if digits.len() > 10 {
        return None;
    }
    match digits {
        [] => None,
        [_, ..] => number_named(digits),
    }
}

fn varchar_named(name: &[u8]) -> Option<Kind>
    ensures { result ≡ varchar_named name.now }
{
    if name.len() < 9 {
        return None;
    }
    if !name[..8].eq_ignore_ascii_case(b"VARCHAR(") {
        return None;
    }
    if name[name.len() - 1] != b')' {
        return None;
    }
    let most = length_named(&name[8..name.len() - 1])?;
    Some(Kind::Varchar(most))
}

/// The column type of a name, in any ASCII case.
pub(crate) fn kind_named(name: &[u8]) -> Option<Kind>
    ensures { result ≡ kind_named name.now }
{
    if name.eq_ignore_ascii_case(b"BOOLEAN") {
        Some(Kind::Boolean)
    } else if name.eq_ignore_ascii_case(b"TINYINT") {
        Some(Kind::TinyInt)
    } else if name.eq_ignore_ascii_case(b"SMALLINT") {
        Some(Kind::SmallInt)
    } else if name.eq_ignore_ascii_case(b"INT") {
        Some(Kind::Int)
    } else if name.eq_ignore_ascii_case(b"BIGINT") {
        Some(Kind::BigInt)
    } else if name.eq_ignore_ascii_case(b"LARGEINT") {
        Some(Kind::LargeInt)
    } else if name.eq_ignore_ascii_case(b"DATE") {
        Some(Kind::Date)
    } else {
        varchar_named(name)
    }
}
