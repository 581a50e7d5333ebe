use crate::texts::{bytes_of, text_of};
use pk_values::{Kind, Octets, Value};
use std::alloc::{AllocError, Global};

fn varchar(word: &str) -> Option<Kind> {
    let digits = word.strip_prefix("varchar(")?.strip_suffix(")")?;
    Some(Kind::Varchar(digits.parse::<u32>().ok()?))
}

/// The kind that a word names.
pub fn kind_of(word: &str) -> Option<Kind> {
    match word {
        "boolean" => Some(Kind::Boolean),
        "tinyint" => Some(Kind::TinyInt),
        "smallint" => Some(Kind::SmallInt),
        "int" => Some(Kind::Int),
        "bigint" => Some(Kind::BigInt),
        "largeint" => Some(Kind::LargeInt),
        "date" => Some(Kind::Date),
        _ => varchar(word),
    }
}

/// The word of a kind.
pub fn kind_text(alloc: Global, kind: &Kind) -> Result<String, AllocError> {
    match kind {
        Kind::Boolean => "boolean".to_string(alloc),
        Kind::TinyInt => "tinyint".to_string(alloc),
        Kind::SmallInt => "smallint".to_string(alloc),
        Kind::Int => "int".to_string(alloc),
        Kind::BigInt => "bigint".to_string(alloc),
        Kind::LargeInt => "largeint".to_string(alloc),
        Kind::Date => "date".to_string(alloc),
        Kind::Varchar(most) => format!(in alloc; "varchar({most})"),
    }
}

/// The value that a text names: `null`, `bool 1`, `num 5`, `day 719528` or `text a`.
pub fn value_of(alloc: Global, text: &str) -> Result<Option<Value>, AllocError> {
    match text.split_once(' ') {
        Some(("bool", truth)) => Ok(Some(Value::Bool(truth == "1"))),
        Some(("num", number)) => Ok(number.parse::<i128>().ok().map(Value::Num)),
        Some(("day", day)) => Ok(day.parse::<i32>().ok().map(Value::Day)),
        Some(("text", text)) => {
            let bytes = Octets::from_vec(alloc, bytes_of(alloc, text)?)?;
            Ok(Some(Value::Text(bytes)))
        }
        Some(_) => Ok(None),
        None => Ok(if text == "null" {
            Some(Value::Null)
        } else {
            None
        }),
    }
}

/// The text that names a value.
pub fn value_text(alloc: Global, value: &Value) -> Result<String, AllocError> {
    match value {
        Value::Null => "null".to_string(alloc),
        Value::Bool(truth) => format!(in alloc; "bool {}", u8::from(*truth)),
        Value::Num(number) => format!(in alloc; "num {number}"),
        Value::Day(day) => format!(in alloc; "day {day}"),
        Value::Text(bytes) => {
            let text = text_of(alloc, bytes.as_slice())?;
            format!(in alloc; "text {text}")
        }
    }
}

/// The texts that name values, with commas between.
pub fn values_text(alloc: Global, values: &[Value]) -> Result<String, AllocError> {
    let mut text = String::new(alloc);
    let mut between = "";
    for value in values {
        text.push_str(between)?;
        text.push_str(value_text(alloc, value)?.as_str())?;
        between = ", ";
    }
    Ok(text)
}
