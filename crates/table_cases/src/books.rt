ghost use Rattle.std.specs.Prelude.{◌≤◌, ◌<◌, ◌^◌, ◌+◌};
ghost use Rattle.pk_model.specs.Books.{greatest_number};

use crate::report_texts::reply_text;
use crate::schemas::Schemas;
use case_texts::values_text;
use pk_model::{Book, Call, Load, Op, Reply, Want, step};
use pk_values::{Items, Key, Octets, Row, Schema, Value};
use std::alloc::{AllocError, Global};

/// Two books of one history, the plain one stepped and the other asked as the program asks it.
#[derive(Drop)]
pub struct Course {
    plain: Book,
    fast: Book,
    calls: u64,
    ghost few_plain: { greatest_number plain ≤ calls },
    ghost few_fast: { greatest_number fast ≤ calls },
}

// One line: `+1=a` writes the text at the key, `+1` the key alone, and `-1` deletes it.
fn op_of(alloc: Global, word: &str) -> Result<Option<Op>, AllocError> {
    let (name, text) = word.split_once('=').unwrap_or((word, ""));
    let Ok(number) = name
        .trim_start_matches('+')
        .trim_start_matches('-')
        .parse::<i128>()
    else {
        return Ok(None);
    };
    let mut key = Vec::new(alloc);
    key.push(Value::Num(number))?;
    let key = Key { cells: key };
    if name.starts_with('-') {
        return Ok(Some(Op::Delete { key }));
    }
    let mut cells = Items::new(alloc);
    if !text.is_empty() {
        cells.push(Value::Text(Octets::from_slice(alloc, text.as_bytes())?))?;
    }
    Ok(Some(Op::Upsert { key, cells }))
}

// A load of lines that carry the second column, or the key alone.
fn load_of(alloc: Global, carries: bool, words: &str) -> Result<Load, AllocError> {
    let mut given = Items::new(alloc);
    if carries {
        given.push(1)?;
    }
    let mut ops = Items::new(alloc);
    for word in words.split_whitespace() {
        if let Some(op) = op_of(alloc, word)? {
            ops.push(op)?;
        }
    }
    Ok(Load { given, ops })
}

fn number(word: &str) -> u64 {
    word.parse::<u64>().unwrap_or(0)
}

fn call_of(alloc: Global, words: &str) -> Result<Option<Call>, AllocError> {
    let (name, rest) = words.split_once(' ').unwrap_or((words, ""));
    match name {
        "load" => Ok(Some(Call::Load(load_of(alloc, true, rest)?))),
        "load-keys" => Ok(Some(Call::Load(load_of(alloc, false, rest)?))),
        "open" => Ok(Some(Call::Open(if rest == "latest" {
            Want::Latest
        } else {
            Want::At(number(rest))
        }))),
        "begin" => Ok(Some(Call::Begin)),
        "end" => Ok(Some(Call::End(number(rest)))),
        "give-up" => Ok(Some(Call::GiveUp(number(rest)))),
        "expire" => Ok(Some(Call::Expire(number(rest)))),
        "stat" => Ok(Some(Call::Stat)),
        _ => Ok(None),
    }
}

// Does a call as the program does it.
fn fast_step(
    alloc: Global,
    schema: &Schema,
    book: &mut Book,
    place: u64,
    call: Call,
) -> Result<Reply, AllocError>
    requires { greatest_number book.old < 2 ^ 62 }
    ensures { greatest_number book.new ≤ greatest_number book.old + 1 }
{
    match call {
        Call::Load(load) => book.load(alloc, schema, load),
        Call::Open(want) => Ok(book.open(want)),
        Call::Stat => Ok(book.stat()),
        call => step(alloc, schema, book, place, &call),
    }
}

fn rows_text(alloc: Global, rows: Option<&[Row]>) -> Result<String, AllocError> {
    let Some(rows) = rows else {
        return "not kept".to_string(alloc);
    };
    let mut text = format!(in alloc; "{}", rows.len())?;
    for row in rows {
        text.push_str("; ")?;
        text.push_str(values_text(alloc, &row.cells)?.as_str())?;
    }
    Ok(text)
}

// What both say, or what each says.
fn agreed(alloc: Global, plain: String, fast: String) -> Result<String, AllocError> {
    if plain.as_str() == fast.as_str() {
        Ok(plain)
    } else {
        format!(in alloc; "{plain} but fast {fast}")
    }
}

impl Course {
    pub fn new(alloc: Global) -> Course {
        Course {
            plain: Book::new(alloc),
            fast: Book::new(alloc),
            calls: 0,
        }
    }

    fn call(&mut self, alloc: Global, schema: &Schema, words: &str) -> Result<String, AllocError> {
        let (Some(call), Some(again)) = (call_of(alloc, words)?, call_of(alloc, words)?) else {
            return "no call".to_string(alloc);
        };
        if self.calls >= 1_000_000 {
            return "too many calls".to_string(alloc);
        }
        self.calls += 1;
        let plain = step(alloc, schema, &mut self.plain, self.calls, &call)?;
        let fast = fast_step(alloc, schema, &mut self.fast, self.calls, again)?;
        agreed(alloc, reply_text(alloc, plain)?, reply_text(alloc, fast)?)
    }

    /// `turn CALL`: what the books answer to a call.
    pub fn turn(
        &mut self,
        alloc: Global,
        schemas: &Schemas,
        words: &str,
    ) -> Result<String, AllocError> {
        match &schemas.schema {
            Some(schema) => self.call(alloc, schema, words),
            None => "no table".to_string(alloc),
        }
    }

    /// `turns COUNT CALL`: the same call so many times, and the last answer.
    pub fn turns(
        &mut self,
        alloc: Global,
        schemas: &Schemas,
        words: &str,
    ) -> Result<String, AllocError> {
        let (count, words) = words.split_once(' ').unwrap_or(("0", ""));
        let mut told = String::new(alloc);
        for _ in 0..number(count) {
            told = self.turn(alloc, schemas, words)?;
        }
        Ok(told)
    }

    /// `rows VERSION`: the rows of a version.
    pub fn rows(&self, alloc: Global, words: &str) -> Result<String, AllocError> {
        let version = number(words);
        let plain = rows_text(alloc, self.plain.rows_at(version))?;
        agreed(alloc, plain, rows_text(alloc, self.fast.rows_at(version))?)
    }

    /// `full`: whether as many versions are kept as may be.
    pub fn full(&self, alloc: Global) -> Result<String, AllocError> {
        let plain = format!(in alloc; "{}", self.plain.is_full())?;
        agreed(alloc, plain, format!(in alloc; "{}", self.fast.is_full())?)
    }
}
