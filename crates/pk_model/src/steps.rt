ghost use Rattle.std.specs.Prelude.{◌≡◌, ◌<◌, ◌≤◌, ◌^◌, ◌+◌, IfOk, OnOk, OnErr, None, false};
ghost use Rattle.std.specs.Option.{option_copied};
ghost use Rattle.pk_model.specs.Books.{answer, answer_begin, answer_end, answer_expire, answer_give_up, answer_load};
ghost use Rattle.pk_model.specs.Books.{change, change_begin, change_end, change_expire, change_give_up, change_load};
ghost use Rattle.pk_model.specs.Books.{greatest_number, is_full, open_answer, open_change, plan_at, version};
ghost use Rattle.pk_model.specs.Books.{GivesWay, MayReply, TakesMemory};

use crate::answers::{open, stat};
use crate::books::{Book, Plan};
use crate::calls::{Call, Load, Reply};
use crate::copies::without_first;
use crate::publishing::{more_rowsets, publish};
use pk_values::{Items, Schema};
use std::alloc::{AllocError, Global};
use std::mem;

/// Does a call at a place of a history, as a tablet with no device would: the reply is the answer of the book, and the
/// book after it is the definition's. It is plain and slow, for trials of what is fast.
///
/// # Errors
/// Want of memory, which leaves the book as it was. It comes of a load or a `Begin` alone, and only of one that the
/// book does not refuse.
pub fn step(
    alloc: Global,
    schema: &Schema,
    book: &mut Book,
    place: u64,
    call: &Call,
) -> Result<Reply, AllocError>
    requires { greatest_number book.old < 2 ^ 62 }
    ensures answers { IfOk result (λ reply. reply ≡ answer book.old call.now) }
    ensures changes { OnOk result (book.new ≡ change schema.now book.old place call.now) }
    ensures err { OnErr result (book.new ≡ book.old) }
    ensures takes { OnErr result (TakesMemory call.now) }
    ensures may_want { OnErr result (MayReply book.old call.now Reply.Memory) }
    ensures grows { greatest_number book.new ≤ greatest_number book.old + 1 }
{
    match book.closed {
        Some(closed) => Ok(Reply::Closed(closed)),
        None => open_step(alloc, schema, book, place, call),
    }
}

// Does a call on an open book.
fn open_step(
    alloc: Global,
    schema: &Schema,
    book: &mut Book,
    place: u64,
    call: &Call,
) -> Result<Reply, AllocError>
    requires { greatest_number book.old < 2 ^ 62 }
    ensures answers { IfOk result (λ reply. reply ≡ open_answer book.old call.now) }
    ensures changes { OnOk result (book.new ≡ open_change schema.now book.old place call.now) }
    ensures err { OnErr result (book.new ≡ book.old) }
    ensures takes { OnErr result (TakesMemory call.now) }
    ensures gives_way { OnErr result (GivesWay (open_answer book.old call.now) Reply.Memory) }
{
    match call {
        Call::Load(load) => publish_copy(alloc, schema, book, load),
        Call::Open(want) => Ok(open(book, *want)),
        Call::Begin => begin(alloc, book, place),
        Call::End(begun) => Ok(end(book, *begun)),
        Call::GiveUp(begun) => Ok(give_up(book, *begun)),
        Call::Expire(floor) => Ok(expire(alloc, book, *floor)),
        Call::Stat => Ok(stat(book)),
    }
}

// Does a load of an open book, which is copied only where the book takes it.
fn publish_copy(
    alloc: Global,
    schema: &Schema,
    book: &mut Book,
    load: &Load,
) -> Result<Reply, AllocError>
    requires { greatest_number book.old < 2 ^ 62 }
    ensures answers { IfOk result (λ reply. reply ≡ answer_load book.old) }
    ensures changes { OnOk result (book.new ≡ change_load schema.now book.old load.now) }
    ensures err { OnErr result (book.new ≡ book.old) }
    ensures room { OnErr result (is_full book.old ≡ false) }
{
    if book.is_full() {
        return Ok(Reply::ManyVersions);
    }
    publish(alloc, schema, book, load.copy(alloc)?)
}

fn begin(alloc: Global, book: &mut Book, place: u64) -> Result<Reply, AllocError>
    requires { version book.old < 2 ^ 62 }
    ensures answers { IfOk result (λ reply. reply ≡ answer_begin book.old book.old.plan) }
    ensures changes { OnOk result (book.new ≡ change_begin book.old place book.old.plan) }
    ensures err { OnErr result (book.new ≡ book.old) }
    ensures free { OnErr result (book.old.plan ≡ None) }
{
    if let Some(plan) = &book.plan {
        return Ok(Reply::Busy(plan.version));
    }
    let version = book.version();
    let plan = Plan {
        place,
        version,
        rowsets: book.rowsets,
        rows: book.current.copy(alloc)?,
        touched: Items::new(alloc),
    };
    book.plan = Some(plan);
    Ok(Reply::Begun(version))
}

fn end(book: &mut Book, begun: u64) -> Reply
    requires { book.old.rowsets < 2 ^ 62 }
    ensures answers { result ≡ answer_end book.old (plan_at book.old.plan begun) }
    ensures changes { book.new ≡ change_end book.old (plan_at book.old.plan begun) }
{
    let Some(plan) = plan_at(&book.plan, begun) else {
        return Reply::NoPlan;
    };
    let before = book.rowsets;
    let left = before.saturating_sub(plan.rowsets);
    let rows = plan.rows.len() as u64;
    let after = more_rowsets(left, rows != 0);
    let late = plan.late();
    book.rowsets = after;
    book.plan = None;
    Reply::Compacted {
        before,
        after,
        rows,
        late,
    }
}

fn give_up(book: &mut Book, begun: u64) -> Reply
    ensures answers { result ≡ answer_give_up (plan_at book.old.plan begun) }
    ensures changes { book.new ≡ change_give_up book.old (plan_at book.old.plan begun) }
{
    if plan_at(&book.plan, begun).is_none() {
        return Reply::NoPlan;
    }
    book.plan = None;
    Reply::GaveUp
}

// The plan, where it was begun at this place.
fn plan_at(plan: &Option<Plan>, begun: u64) -> Option<&Plan>
    ensures { option_copied result ≡ plan_at plan.now begun }
{
    match plan {
        Some(plan) => {
            if plan.place == begun {
                Some(plan)
            } else {
                None
            }
        }
        None => None,
    }
}

fn expire(alloc: Global, book: &mut Book, floor: u64) -> Reply
    requires { version book.old < 2 ^ 62 }
    ensures answers { result ≡ answer_expire book.old floor }
    ensures changes { book.new ≡ change_expire book.old floor }
{
    let version = book.version();
    if version < floor {
        return Reply::NotYet(version);
    }
    let count = floor.saturating_sub(book.floor) as usize;
    let older = mem::replace(&mut book.older, Items::new(alloc));
    book.older = without_first(older, count);
    book.floor = book.floor.max(floor);
    Reply::Floor(book.floor)
}
