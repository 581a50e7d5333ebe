use crate::keys::order_text;
use case_texts::{bytes_of, kind_of, kind_text, text_of, value_of, value_text};
use pk_values::{Column, Items, Key, Octets, Row, Schema, Value};
use schema_json::{TableFault, read_table};
use std::alloc::{AllocError, Global};

/// The columns of a table to be made, and the table that was made last.
#[derive(Drop)]
pub struct Schemas {
    columns: Vec<Column>,
    pub schema: Option<Schema>,
}

fn column(alloc: Global, words: &str, nullable: bool) -> Result<Option<Column>, AllocError> {
    let (word, name) = words.split_once(' ').unwrap_or((words, ""));
    let Some(kind) = kind_of(word) else {
        return Ok(None);
    };
    let name = Octets::from_vec(alloc, bytes_of(alloc, name)?)?;
    let default = None;
    Ok(Some(Column {
        name,
        kind,
        nullable,
        default,
    }))
}

// A text of a column: its name, its kind, whether it takes NULL, and its default.
fn column_text(alloc: Global, column: &Column) -> Result<String, AllocError> {
    let name = text_of(alloc, column.name.as_slice())?;
    let kind = kind_text(alloc, &column.kind)?;
    let nullable = if column.nullable { " nullable" } else { "" };
    match &column.default {
        Some(value) => {
            let value = value_text(alloc, value)?;
            format!(in alloc; "{name} {kind}{nullable} default {value}")
        }
        None => format!(in alloc; "{name} {kind}{nullable}"),
    }
}

fn schema_text(alloc: Global, schema: &Schema) -> Result<String, AllocError> {
    let mut text = format!(in alloc; "{} of {}", schema.keys(), schema.count())?;
    for column in schema.columns() {
        text.push_str("; ")?;
        text.push_str(column_text(alloc, column)?.as_str())?;
    }
    Ok(text)
}

fn first_cell_fits(schema: &Schema, value: &Value) -> bool {
    schema.count() > 0 && schema.fits(0, value)
}

// A copy of a key of these cells, by way of a row.
fn key_of(alloc: Global, text: &str) -> Result<Key, AllocError> {
    let mut cells = Vec::new(alloc);
    if let Some(value) = value_of(alloc, text)? {
        cells.push(value)?;
    }
    let row = Row { cells }.copy(alloc)?;
    Key { cells: row.cells }.copy(alloc)
}

impl Schemas {
    pub fn new(alloc: Global) -> Schemas {
        Schemas {
            columns: Vec::new(alloc),
            schema: None,
        }
    }

    /// `column KIND NAME` and `nullable KIND NAME`: one column more.
    pub fn column(
        &mut self,
        alloc: Global,
        words: &str,
        nullable: bool,
    ) -> Result<String, AllocError> {
        match column(alloc, words, nullable)? {
            Some(column) => self.columns.push(column)?,
            None => return "no kind".to_string(alloc),
        }
        format!(in alloc; "{}", self.columns.len())
    }

    /// `columns COUNT`: so many columns of numbers, whose names are `a`, `aa` and so on.
    pub fn columns(&mut self, alloc: Global, words: &str) -> Result<String, AllocError> {
        let mut name = String::new(alloc);
        for _ in 0..words.parse::<u32>().unwrap_or(0) {
            name.push('a')?;
            let words = format!(in alloc; "int {name}")?;
            self.column(alloc, words.as_str(), false)?;
        }
        format!(in alloc; "{}", self.columns.len())
    }

    /// `default VALUE`: the default of the last column.
    pub fn default(&mut self, alloc: Global, words: &str) -> Result<String, AllocError> {
        let value = value_of(alloc, words)?;
        match self.columns.last_mut() {
            Some(column) => {
                column.default = value;
                column_text(alloc, column)
            }
            None => "no column".to_string(alloc),
        }
    }

    /// `schema KEYS`: a copy of the table of these columns, of which so many are the key.
    pub fn schema(&mut self, alloc: Global, words: &str) -> Result<String, AllocError> {
        let mut columns = Vec::new(alloc);
        columns.append(&mut self.columns)?;
        match Schema::new(columns, words.parse::<u32>().unwrap_or(0)) {
            Ok(schema) => {
                let schema = schema.copy(alloc)?;
                let text = schema_text(alloc, &schema)?;
                self.schema = Some(schema);
                Ok(text)
            }
            Err(fault) => format!(in alloc; "{fault:?}"),
        }
    }

    /// `table JSON`: the table that a text describes.
    pub fn table(&mut self, alloc: Global, bytes: &[u8]) -> Result<String, AllocError> {
        match read_table(alloc, bytes) {
            Ok(schema) => {
                let text = schema_text(alloc, &schema)?;
                self.schema = Some(schema);
                Ok(text)
            }
            Err(TableFault::Memory) => Err(AllocError),
            Err(fault) => format!(in alloc; "{fault:?}"),
        }
    }

    /// `fits VALUE`: whether the first column may hold a value.
    pub fn fits(&self, alloc: Global, words: &str) -> Result<String, AllocError> {
        match (&self.schema, value_of(alloc, words)?) {
            (Some(schema), Some(value)) => format!(in alloc; "{}", first_cell_fits(schema, &value)),
            _ => "no value".to_string(alloc),
        }
    }

    /// `last-default`: the default of a copy of the last column.
    pub fn last_default(&self, alloc: Global) -> Result<String, AllocError> {
        let Some(schema) = &self.schema else {
            return "no table".to_string(alloc);
        };
        match schema.columns().last() {
            Some(column) => value_text(alloc, &column.copy(alloc)?.default_cell(alloc)?),
            None => "no column".to_string(alloc),
        }
    }

    /// `order VALUE, VALUE`: how keys of one cell stand to one another, and whether they are equal.
    pub fn order(&self, alloc: Global, words: &str) -> Result<String, AllocError> {
        let (first, second) = words.split_once(", ").unwrap_or((words, ""));
        let Some(schema) = &self.schema else {
            return "no table".to_string(alloc);
        };
        let first = key_of(alloc, first)?;
        let second = key_of(alloc, second)?;
        let order = order_text(schema.cmp_key(&first, &second));
        format!(in alloc; "{order} {}", first == second)
    }
}

/// `mend JSON`: what is said of a text that is no table.
pub fn mend(alloc: Global, bytes: &[u8]) -> Result<String, AllocError> {
    match read_table(alloc, bytes) {
        Ok(_) => "a table".to_string(alloc),
        Err(fault) => format!(in alloc; "{fault}"),
    }
}

/// `items NUMBER`: a list of one number, by way of a text of one byte.
pub fn items(alloc: Global, words: &str) -> Result<String, AllocError> {
    let mut items = Items::with_capacity(alloc, 1)?;
    let was_empty = items.is_empty() && Items::<u8>::new(alloc).is_empty();
    items.push(words.parse::<u8>().unwrap_or(0))?;
    items.reserve(1)?;
    let count = items.len();
    let first = items.as_slice().first().copied().unwrap_or(0);
    let octets = Octets::from_vec(alloc, Items::from_vec(items.into_vec()).into_vec())?.copy(
        alloc,
    )?;
    format!(in alloc; "{was_empty} {count} {first} {:?}", octets.as_slice())
}
