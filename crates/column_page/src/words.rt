ghost use Rattle.std.specs.Prelude.{◌≡◌, ◌+◌, ◌≤◌, ◌<◌, ◌^◌, [], ◌∷◌, ◌++◌, List, OnOk, IfOk, IfNone, IfSome, length};
ghost use Rattle.column_page.specs.Page.{dictionary, Cell};
ghost use Rattle.column_page.specs.Texts.{lent, Knows};

use crate::values::put_u16;
use indexmap::IndexSet;
use std::alloc::{AllocError, Global};

// The different cells so far, the place of each cell among them, and how many bytes the words have,
// or fewer.
#[derive(Drop)]
struct Words<'a> {
    words: IndexSet<&'a [u8]>,
    places: Vec<u8>,
    len: usize,
}

impl<'a> Words<'a> {
    fn new(alloc: Global) -> Words<'a>
        ensures { Knows result.words.keys result.places.items result.len [] }
    {
        Words {
            words: IndexSet::new(alloc),
            places: Vec::new(alloc),
            len: 0,
        }
    }

    // Adds a cell.
    fn add(&mut self, cell: &'a [u8]) -> Result<(), AllocError>
        requires { length self.old.words.keys < 65535 }
        ensures grows { OnOk result (length self.new.words.keys ≤ length self.old.words.keys + 1) }
        ensures knows { OnOk result ((cells : List Cell) → Knows self.old.words.keys self.old.places.items self.old.len cells → Knows self.new.words.keys self.new.places.items self.new.len (cells ++ cell.now ∷ [])) }
    {
        let (place, is_new) = self.words.insert_full(cell)?;
        put_u16(&mut self.places, place as u16)?;
        if is_new {
            self.len = self.len.saturating_add(cell.len());
        }
        Ok(())
    }
}

// The different cells, or none where the dictionary form has `most` bytes or more.
fn words_within<'a>(
    alloc: Global,
    cells: &[&'a [u8]],
    most: usize,
) -> Result<Option<Words<'a>>, AllocError>
    requires { length cells.now < 2 ^ 16 }
    ensures some { IfOk result (λ found. IfSome found (λ words. Knows words.words.keys words.places.items words.len (lent cells.now))) }
    ensures none { IfOk result (λ found. IfNone found (most ≤ length (dictionary (lent cells.now)))) }
{
    // The form, the number of words, and the places.
    let around = 3 + 2 * cells.len();
    let mut words = Words::new(alloc);
    for cell in cells {
        words.add(cell)?;
        if words.len >= most.saturating_sub(around) {
            return Ok(None);
        }
    }
    Ok(Some(words))
}

// The dictionary form of cells whose words these are.
fn dictionary_page(alloc: Global, words: &Words<'_>) -> Result<Vec<u8>, AllocError>
    requires { length words.now.words.keys < 2 ^ 16 }
    ensures { IfOk result (λ page. (cells : List Cell) → Knows words.now.words.keys words.now.places.items words.now.len cells → page.items ≡ dictionary cells) }
{
    let mut page = Vec::new(alloc);
    page.push(2)?;
    put_u16(&mut page, words.words.len() as u16)?;
    for word in words.words.as_slice() {
        page.extend_from_slice(word)?;
    }
    page.extend_from_slice(&words.places)?;
    Ok(page)
}

/// The dictionary form of the cells; None only where it has `most` bytes or more, which often shows
/// before all cells were looked at.
pub fn dictionary_within(
    alloc: Global,
    cells: &[&[u8]],
    most: usize,
) -> Result<Option<Vec<u8>>, AllocError>
    requires { length cells.now < 2 ^ 16 }
    ensures some { IfOk result (λ found. IfSome found (λ page. page.items ≡ dictionary (lent cells.now))) }
    ensures none { IfOk result (λ found. IfNone found (most ≤ length (dictionary (lent cells.now)))) }
{
    match words_within(alloc, cells, most)? {
        Some(words) => Ok(Some(dictionary_page(alloc, &words)?)),
        None => Ok(None),
    }
}
