ghost use Rattle.std.specs.Prelude.{IsTrue};
ghost use Rattle.pk_values.specs.Schemas.{is_kind};

use crate::rows::column;
use case_texts::{bytes_of_hex, hex_of, value_of, values_text};
use column_page::{
    FooterFault, PageFault, all_fit, decode_page, encode_page, read_footer, write_footer,
};
use pk_values::{Column, Kind, Value};
use std::alloc::{AllocError, Global};

fn values_of(alloc: Global, words: &str) -> Result<Vec<Value>, AllocError> {
    let mut values = Vec::new(alloc);
    for word in words.split(", ") {
        if let Some(value) = value_of(alloc, word)? {
            values.push(value)?;
        }
    }
    Ok(values)
}

fn page_of(alloc: Global, column: &Column, words: &str) -> Result<String, AllocError>
    requires { IsTrue (is_kind column.now.kind) }
{
    let cells = values_of(alloc, words)?;
    if cells.is_empty() || cells.len() > 1024 || !all_fit(column, &cells) {
        return "unfit".to_string(alloc);
    }
    hex_of(alloc, encode_page(alloc, column, &cells)?.as_slice())
}

/// `page int VALUES` and `page text VALUES`: the page of cells of an INT column, and of a VARCHAR(4) one that
/// takes NULL.
pub fn page(alloc: Global, words: &str) -> Result<String, AllocError> {
    match words.split_once(' ') {
        Some(("int", words)) => page_of(
            alloc,
            &column(alloc, b"n", Kind::Int, false, None)?,
            words,
        ),
        Some(("text", words)) => {
            page_of(
                alloc,
                &column(alloc, b"v", Kind::Varchar(4), true, None)?,
                words,
            )
        }
        _ => "no column".to_string(alloc),
    }
}

fn cells_of(alloc: Global, column: &Column, words: &str) -> Result<String, AllocError>
    requires { IsTrue (is_kind column.now.kind) }
{
    let (count, digits) = words.split_once(' ').unwrap_or((words, ""));
    let bytes = bytes_of_hex(alloc, digits)?;
    match decode_page(alloc, column, count.parse::<u32>().unwrap_or(0), &bytes) {
        Ok(cells) => values_text(alloc, &cells),
        Err(PageFault::NotAPage) => "no page".to_string(alloc),
        Err(PageFault::Memory) => Err(AllocError),
    }
}

/// `cells int COUNT HEX` and `cells text COUNT HEX`: the cells of a page.
pub fn cells(alloc: Global, words: &str) -> Result<String, AllocError> {
    match words.split_once(' ') {
        Some(("int", words)) => cells_of(
            alloc,
            &column(alloc, b"n", Kind::Int, false, None)?,
            words,
        ),
        Some(("text", words)) => {
            cells_of(
                alloc,
                &column(alloc, b"v", Kind::Varchar(4), true, None)?,
                words,
            )
        }
        _ => "no column".to_string(alloc),
    }
}

/// `footer HEX`: what a footer tells, and the bytes of a copy.
pub fn footer(alloc: Global, words: &str) -> Result<String, AllocError> {
    match read_footer(alloc, &bytes_of_hex(alloc, words)?) {
        Ok(footer) => {
            let again = hex_of(alloc, write_footer(alloc, &footer.copy()?)?.as_slice())?;
            let rows = footer.rows();
            format!(in alloc;
                "{} columns {rows} rows {} blocks {again}",
                footer.columns(),
                footer.blocks()
            )
        }
        Err(FooterFault::NotAFooter) => "no footer".to_string(alloc),
        Err(FooterFault::Memory) => Err(AllocError),
    }
}
