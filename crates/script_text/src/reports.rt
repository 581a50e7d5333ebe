ghost use Rattle.std.specs.Prelude.{◌≡◌, ◌++◌, IfOk, OnOk, flat_map};
ghost use Rattle.pk_model.specs.declared.calls.Reply.TheVariants.{Compacted, Stat};
ghost use Rattle.script_text.specs.Texts.{item_text, jobs_text, outcome_text, part_mark, reply_text, report};

use crate::damages::{put_damaged, put_load, put_outside};
use crate::outcomes::{Item, ItemPart, Outcome};
use crate::pieces::{put_bytes, put_counted, put_number};
use pk_model::Reply;
use pk_values::Octets;
use std::alloc::{AllocError, Global};

fn put_mark(out: &mut Vec<u8>, part: ItemPart) -> Result<(), AllocError>
    ensures { OnOk result (out.new.items ≡ out.old.items ++ part_mark part) }
{
    match part {
        ItemPart::Whole => Ok(()),
        ItemPart::First => put_bytes(out, b"b"),
        ItemPart::Last => put_bytes(out, b"e"),
        ItemPart::GaveUp => put_bytes(out, b"g"),
    }
}

fn put_items(out: &mut Vec<u8>, order: &[Item]) -> Result<(), AllocError>
    ensures { OnOk result (out.new.items ≡ out.old.items ++ flat_map item_text order.now) }
{
    for item in order {
        put_bytes(out, b" ")?;
        put_number(out, u64::from(item.job))?;
        put_mark(out, item.part)?;
    }
    Ok(())
}

fn put_compacted(
    out: &mut Vec<u8>,
    before: u64,
    after: u64,
    rows: u64,
    late: u64,
) -> Result<(), AllocError>
    ensures { OnOk result (out.new.items ≡ out.old.items ++ reply_text (Compacted before after rows late)) }
{
    put_counted(out, b"compacted ", before)?;
    put_counted(out, b" ", after)?;
    put_counted(out, b" rows ", rows)?;
    put_counted(out, b" late ", late)
}

fn put_stat(
    out: &mut Vec<u8>,
    floor: u64,
    version: u64,
    rows: u64,
    rowsets: u64,
) -> Result<(), AllocError>
    ensures { OnOk result (out.new.items ≡ out.old.items ++ reply_text (Stat floor version rows rowsets)) }
{
    put_counted(out, b"stat floor ", floor)?;
    put_counted(out, b" version ", version)?;
    put_counted(out, b" rows ", rows)?;
    put_counted(out, b" rowsets ", rowsets)
}

fn put_reply(out: &mut Vec<u8>, reply: Reply) -> Result<(), AllocError>
    ensures { OnOk result (out.new.items ≡ out.old.items ++ reply_text reply) }
{
    match reply {
        Reply::Published(version) => put_counted(out, b"published ", version),
        Reply::Opened(version) => put_counted(out, b"opened ", version),
        Reply::Begun(version) => put_counted(out, b"begun ", version),
        Reply::Compacted {
            before,
            after,
            rows,
            late,
        } => put_compacted(out, before, after, rows, late),
        Reply::Floor(version) => put_counted(out, b"floor ", version),
        Reply::Stat {
            floor,
            version,
            rows,
            rowsets,
        } => put_stat(out, floor, version, rows, rowsets),
        Reply::GaveUp => put_bytes(out, b"gave-up"),
        Reply::Expired(floor) => put_counted(out, b"expired ", floor),
        Reply::NotYet(version) => put_counted(out, b"not-yet ", version),
        Reply::Busy(version) => put_counted(out, b"busy ", version),
        Reply::ManyVersions => put_bytes(out, b"many-versions"),
        Reply::Closed(place) => put_counted(out, b"closed ", place),
        Reply::StoreFault(_) => put_bytes(out, b"store-fault"),
        Reply::Damaged(damaged) => put_damaged(out, damaged),
        Reply::Memory => put_bytes(out, b"memory"),
        Reply::NoPlan => put_bytes(out, b"no-plan"),
        Reply::Worn(number) => put_counted(out, b"worn ", number),
    }
}

// Appends the line of a job behind its number, and a scan's rows.
fn put_outcome(out: &mut Vec<u8>, outcome: &Outcome) -> Result<(), AllocError>
    ensures { OnOk result (out.new.items ≡ out.old.items ++ outcome_text outcome.now) }
{
    match outcome {
        Outcome::Turn(reply) => {
            put_reply(out, *reply)?;
            put_bytes(out, b"\n")
        }
        Outcome::Rows {
            version,
            count,
            text,
        } => {
            put_bytes(out, b"opened ")?;
            put_number(out, *version)?;
            put_bytes(out, b" rows ")?;
            put_number(out, *count)?;
            put_bytes(out, b"\n")?;
            put_bytes(out, text.as_slice())
        }
        Outcome::Load(fault) => {
            put_load(out, *fault)?;
            put_bytes(out, b"\n")
        }
        Outcome::Outside(fault) => {
            put_outside(out, *fault)?;
            put_bytes(out, b"\n")
        }
        Outcome::NotRun => put_bytes(out, b"not-run\n"),
    }
}

fn put_jobs(out: &mut Vec<u8>, outcomes: &[Outcome]) -> Result<(), AllocError>
    ensures { OnOk result (out.new.items ≡ out.old.items ++ jobs_text 1 outcomes.now) }
{
    let mut number = 1u64;
    for outcome in outcomes {
        put_bytes(out, b"job ")?;
        put_number(out, number)?;
        put_bytes(out, b" ")?;
        put_outcome(out, outcome)?;
        number += 1;
    }
    Ok(())
}

/// The text of a report: the line `order` with the turns in their order, and a line for what became of each job, numbered from 1, a scan's rows behind it.
///
/// # Errors
/// `AllocError` where memory ran out.
pub fn write_report(
    alloc: Global,
    order: &[Item],
    outcomes: &[Outcome],
) -> Result<Octets, AllocError>
    ensures { IfOk result (λ text. text ≡ report order.now outcomes.now) }
{
    let mut out = Vec::new(alloc);
    put_bytes(&mut out, b"order")?;
    put_items(&mut out, order)?;
    put_bytes(&mut out, b"\n")?;
    put_jobs(&mut out, outcomes)?;
    Octets::from_vec(alloc, out)
}
