ghost use Rattle.std.specs.Prelude.{IfOk};
ghost use Rattle.script_text.specs.Texts.{IsWritableRow};

use case_texts::text_of;
use dev_traits::{Damaged, Digest, OutsideFault, Part, Shown};
use load_csv::LoadFault;
use pk_model::Reply;
use pk_values::{Octets, Row, Value};
use script_text::{Item, ItemPart, Outcome, put_rows, write_report};
use std::alloc::{AllocError, Global};

// One item of each part.
const ORDER: [Item; 5] = [
    Item {
        job: 1,
        part: ItemPart::Whole,
    },
    Item {
        job: 12,
        part: ItemPart::First,
    },
    Item {
        job: 3,
        part: ItemPart::First,
    },
    Item {
        job: 12,
        part: ItemPart::Last,
    },
    Item {
        job: 3,
        part: ItemPart::GaveUp,
    },
];

const REPLIES: [Reply; 18] = [
    Reply::Published(1),
    Reply::Opened(2),
    Reply::Begun(3),
    Reply::Compacted {
        before: 3,
        after: 1,
        rows: 7,
        late: 0,
    },
    Reply::Floor(2),
    Reply::Stat {
        floor: 0,
        version: 1,
        rows: 2,
        rowsets: 4,
    },
    Reply::GaveUp,
    Reply::Expired(4),
    Reply::NotYet(9),
    Reply::Busy(3),
    Reply::ManyVersions,
    Reply::Closed(2),
    Reply::StoreFault(6),
    Reply::Damaged(Damaged {
        file: 7,
        part: Part::Block(3),
        shown: Shown::Digests {
            kept: Digest { bytes: [0x0f; 32] },
            found: Digest { bytes: [0xa9; 32] },
        },
    }),
    Reply::Damaged(Damaged {
        file: 7,
        part: Part::Footer,
        shown: Shown::Absent,
    }),
    Reply::Memory,
    Reply::NoPlan,
    Reply::Worn(18446744073709551615),
];

const LOAD_FAULTS: [LoadFault; 10] = [
    LoadFault::NoHeader,
    LoadFault::UnknownName(2),
    LoadFault::NameTwice(3),
    LoadFault::Missing(1),
    LoadFault::ManyRows,
    LoadFault::Width(5),
    LoadFault::BadOp(6),
    LoadFault::BadCell(1, 2),
    LoadFault::KeyTooLong(9, 129),
    LoadFault::Memory,
];

const OUTSIDE_FAULTS: [OutsideFault; 4] = [
    OutsideFault::Fault,
    OutsideFault::Damaged(Damaged {
        file: 2,
        part: Part::Bucket(12),
        shown: Shown::Form,
    }),
    OutsideFault::Damaged(Damaged {
        file: 0,
        part: Part::Area(1),
        shown: Shown::Form,
    }),
    OutsideFault::Memory,
];

// A row with a value of each kind.
fn every_kind(alloc: Global) -> Result<Row, AllocError>
    ensures { IfOk result (λ row. IsWritableRow row) }
{
    let mut cells = Vec::new(alloc);
    cells.push(Value::Null)?;
    cells.push(Value::Bool(true))?;
    cells.push(Value::Bool(false))?;
    cells.push(Value::Num(-12))?;
    cells.push(Value::Day(739_310))?;
    cells.push(Value::Text(Octets::from_slice(alloc, b"a,\"b")?))?;
    cells.push(Value::Text(Octets::from_slice(alloc, b"")?))?;
    cells.push(Value::Text(Octets::from_slice(alloc, b"b c")?))?;
    Ok(Row { cells })
}

fn report(alloc: Global, order: &[Item], outcomes: &[Outcome]) -> Result<String, AllocError> {
    let text = write_report(alloc, order, outcomes)?;
    text_of(alloc, text.as_slice())
}

/// What a report of this reply alone says after the order.
pub fn reply_text(alloc: Global, reply: Reply) -> Result<String, AllocError> {
    let outcomes = [Outcome::Turn(reply)];
    let report = report(alloc, &[], &outcomes)?;
    match report.as_str().strip_prefix("order\\njob 1 ") {
        Some(text) => text.trim_end_matches("\\n").to_string(alloc),
        None => Ok(report),
    }
}

// An outcome of each reply.
fn replies(alloc: Global) -> Result<String, AllocError> {
    let mut outcomes = Vec::new(alloc);
    for reply in REPLIES {
        outcomes.push(Outcome::Turn(reply))?;
    }
    report(alloc, &ORDER, &outcomes)
}

// An outcome of each fault of a load.
fn load_faults(alloc: Global) -> Result<String, AllocError> {
    let mut outcomes = Vec::new(alloc);
    for fault in LOAD_FAULTS {
        outcomes.push(Outcome::Load(fault))?;
    }
    report(alloc, &[], &outcomes)
}

// Faults outside a turn, a job that was not run, and rows.
fn others(alloc: Global) -> Result<String, AllocError> {
    let mut outcomes = Vec::new(alloc);
    for fault in OUTSIDE_FAULTS {
        outcomes.push(Outcome::Outside(fault))?;
    }
    outcomes.push(Outcome::NotRun)?;
    outcomes.push(Outcome::Rows {
        version: 1,
        count: 2,
        text: Octets::from_slice(alloc, b"1,a\n2,b\n")?,
    })?;
    report(alloc, &[], &outcomes)
}

// Two rows of every kind, behind what stands before them.
fn rows(alloc: Global) -> Result<String, AllocError> {
    let rows = [every_kind(alloc)?, every_kind(alloc)?];
    let mut text = Vec::new(alloc);
    text.push(b'-')?;
    put_rows(&mut text, &rows)?;
    text_of(alloc, &text)
}

/// `report PART`: a report of what this file lists.
pub fn listed(alloc: Global, words: &str) -> Result<String, AllocError> {
    match words {
        "replies" => replies(alloc),
        "load-faults" => load_faults(alloc),
        "others" => others(alloc),
        "rows" => rows(alloc),
        _ => report(alloc, &[], &[]),
    }
}
