ghost use Rattle.std.specs.Prelude.{◌≡◌, ◌<◌, ◌≤◌, ◌+◌, ◌^◌, ◌++◌, ◌∷◌, [], ℕ, IfOk, OnOk, OnErr, false, if◌then◌else◌};
ghost use Rattle.pk_model.specs.Books.{answer, answer_load, change, change_load, greatest_number, is_full, MayReply};

use crate::books::Book;
use crate::calls::{Call, Load, Reply};
use crate::copies::plan_after;
use crate::tables::Table;
use pk_values::{Items, Schema};
use std::alloc::{AllocError, Global};
use std::mem;

// One more rowset where there is one to add.
pub fn more_rowsets(rowsets: u64, one_more: bool) -> u64
    requires { rowsets < 2 ^ 62 }
    ensures { result ≡ rowsets + (if one_more then 1 else 0) }
{
    if one_more { rowsets + 1 } else { rowsets }
}

// Puts the current table behind the older ones, and another in its place, without a copy of either.
fn add_version(
    alloc: Global,
    older: &mut Items<Table>,
    current: &mut Table,
    next: Table,
) -> Result<(), AllocError>
    ensures older { OnOk result (older.new ≡ older.old ++ current.old ∷ []) }
    ensures current { OnOk result (current.new ≡ next) }
    ensures older_stay { OnErr result (older.new ≡ older.old) }
    ensures current_stays { OnErr result (current.new ≡ current.old) }
{
    let mut tables = mem::replace(older, Items::new(alloc)).into_vec();
    match tables.reserve(1) {
        Ok(()) => {
            tables.push_reserved(mem::replace(current, next));
            *older = Items::from_vec(tables);
            Ok(())
        }
        Err(error) => {
            *older = Items::from_vec(tables);
            Err(error)
        }
    }
}

// Makes a version of an open book, unless it is full.
pub fn publish(
    alloc: Global,
    schema: &Schema,
    book: &mut Book,
    load: Load,
) -> Result<Reply, AllocError>
    requires { greatest_number book.old < 2 ^ 62 }
    ensures answers { IfOk result (λ reply. reply ≡ answer_load book.old) }
    ensures changes { OnOk result (book.new ≡ change_load schema.now book.old load) }
    ensures err { OnErr result (book.new ≡ book.old) }
    ensures room { OnErr result (is_full book.old ≡ false) }
    ensures grows { greatest_number book.new ≤ greatest_number book.old + 1 }
{
    if book.is_full() {
        return Ok(Reply::ManyVersions);
    }
    let version = book.version() + 1;
    let plan = plan_after(alloc, &book.plan, &load)?;
    let rows = book.current.copy(alloc)?;
    let (next, writes) = rows.after(alloc, schema, load)?;
    let rowsets = more_rowsets(book.rowsets, writes);
    add_version(alloc, &mut book.older, &mut book.current, next)?;
    book.rowsets = rowsets;
    book.plan = plan;
    Ok(Reply::Published(version))
}

impl Book {
    /// Does a load, and answers it. It takes the load and sorts its lines once, so it is the quick form of `step` for
    /// one.
    ///
    /// # Errors
    /// Want of memory, which leaves the book as it was. It does not come where the book refuses the load.
    pub fn load(&mut self, alloc: Global, schema: &Schema, load: Load) -> Result<Reply, AllocError>
        requires { greatest_number self.old < 2 ^ 62 }
        ensures answers { IfOk result (λ reply. reply ≡ answer self.old (Call.Load load)) }
        ensures changes { OnOk result ((place : ℕ) → self.new ≡ change schema.now self.old place (Call.Load load)) }
        ensures err { OnErr result (self.new ≡ self.old) }
        ensures may_want { OnErr result (MayReply self.old (Call.Load load) Reply.Memory) }
        ensures grows { greatest_number self.new ≤ greatest_number self.old + 1 }
    {
        match self.closed {
            Some(place) => Ok(Reply::Closed(place)),
            None => publish(alloc, schema, self, load),
        }
    }
}
