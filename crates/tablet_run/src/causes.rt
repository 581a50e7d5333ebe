ghost use Rattle.std.specs.Prelude.{◌≡◌};
ghost use Rattle.tablet_run.specs.Statuses.{cause_of, cause_status};

use dev_traits::Damaged;
use pk_values::{Octets, Schema};
use reports::Ending;
use schema_json::TableFault;
use script_text::ScriptFault;
use std::fmt::{Debug, Formatter, Write};
use thiserror::Error;

// A name as text.
fn shown(name: &Octets) -> &str {
    match std::str::from_utf8(name.as_slice()) {
        Ok(text) => text,
        Err(_) => "?",
    }
}

// What is accepted where a table's text is not.
fn accepted_table(fault: &TableFault) -> &'static str {
    match fault {
        TableFault::Bad(_) =>
            "a table has 1 to 64 columns of different names, of which the first 1 to 8 are the key and take neither NULL nor a default",
        TableFault::Column(_, _) =>
            "a column is {\"name\": TEXT, \"type\": TYPE}, with \"nullable\": true or false and \"default\": TEXT or null where they are wanted",
        _ =>
            "a table is {\"columns\": [COLUMN, ..], \"keys\": NUMBER}, and a COLUMN {\"name\": TEXT, \"type\": TYPE}, with \"nullable\": true or false and \"default\": TEXT or null where they are wanted",
    }
}

/// The table of a store.
#[derive(Drop)]
pub struct StoredTable {
    /// Its columns and key columns.
    pub schema: Schema,
}

impl Debug for StoredTable {
    fn fmt<W: Write>(&self, f: &mut Formatter<W>) -> std::fmt::Result {
        f.write_str("StoredTable")
    }
}

/// Why a run ended as it did.
#[derive(Debug, Drop, Error)]
pub enum Cause {
    /// Each job did what it was asked to.
    #[error("each job was done")]
    None,
    /// The words are not `run TABLE SCRIPT`.
    #[error("the words must be `run TABLE SCRIPT`: the names of a table's file and of a script, neither empty nor beginning with `-`")]
    Words,
    /// No input has this name.
    #[error("there is no file `{}`", shown(.0))]
    Missing(Octets),
    /// An ask for an input, or a read of one, failed: this one, by its name.
    #[error("the file `{}` could not be read: it must be a file, not a folder, that may be read", shown(.0))]
    InputFault(Octets),
    /// With the input of this name a limit is passed: its own, or that of all load files together. The number is the limit that it passes first, and one more.
    #[error("with the file `{}` a limit is passed: {bytes} bytes or more, where a table and a script may have 1,048,576 each, a load file 67,108,864 and all load files of a script 268,435,456", shown(.name))]
    TooLarge { name: Octets, bytes: u64 },
    /// The table's text describes no table.
    #[error("{}; {}", .0, accepted_table(.0))]
    Table(TableFault),
    /// A line of the script is wrong.
    #[error("{0}")]
    Script(ScriptFault),
    /// The job of this number, counted from 1, is not built yet: it is a `compact`, or not in lane 1.
    #[error("job {0} is not built yet: `load`, `partial`, `scan`, `expire` and `stat` are, in lane 1")]
    Unbuilt(u64),
    /// The store's table is not the one that the words name, but this one.
    #[error("the store holds another table than the one of the table's file")]
    OtherSchema(StoredTable),
    /// The store failed under a job, or was closed by such a fault.
    #[error("the store failed")]
    Store,
    /// A job met this damage in the store.
    #[error("the store is damaged")]
    Damaged(Damaged),
    /// A put failed.
    #[error("the report could not be written")]
    Sink,
    /// Memory was wanting.
    #[error("there was not enough memory")]
    Memory,
    /// Some job was refused, as the report tells.
    #[error("a job was refused, as the report tells")]
    Refused,
}

impl Cause {
    /// The status of a cause.
    pub fn status(&self) -> u8
        ensures { result ≡ cause_status self.now }
    {
        match self {
            Cause::None => 0,
            Cause::Refused => 1,
            Cause::Words | Cause::Table(_) | Cause::Script(_) => 2,
            Cause::Unbuilt(_) | Cause::OtherSchema(_) => 2,
            Cause::Missing(_) | Cause::InputFault(_) | Cause::TooLarge { .. } => 3,
            Cause::Store => 4,
            Cause::Damaged(_) => 5,
            Cause::Sink => 6,
            Cause::Memory => 7,
        }
    }
}

/// The cause of a run whose jobs ended so.
pub fn cause_of(ending: Ending) -> Cause
    ensures { result ≡ cause_of ending }
{
    match ending {
        Ending::Well => Cause::None,
        Ending::Refused => Cause::Refused,
        Ending::Memory => Cause::Memory,
        Ending::Store => Cause::Store,
        Ending::Damaged(damaged) => Cause::Damaged(damaged),
    }
}

/// How a run ended, and the store that it left.
#[derive(Drop)]
pub struct Ended<S: Drop> {
    /// The exit status that the cause has: 0 where each job was done, 1 where one was refused, 2 for words, a table or a script that are not of
    /// their form or not built yet and for a store of another table, 3 for an input, 4 for a fault of the store, 5 for damage, 6 for the sink,
    /// 7 for memory.
    pub status: u8,
    /// Why it ended so.
    pub cause: Cause,
    /// The store that was handed in, as the run left it.
    pub store: S,
}
