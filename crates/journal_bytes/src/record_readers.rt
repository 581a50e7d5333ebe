ghost use Rattle.std.specs.Prelude.{◌≡◌, ◌∷◌, IfErr, IfOk};
ghost use Rattle.value_bytes.specs.declared.reads.Unread.TheVariants.{NotOne};
ghost use Rattle.journal_bytes.specs.ReadRecords.{IsBodyOf, IsNoBody};

use crate::part_fields::{DeadRowsField, LevelListField, ListedFileField, NewFileField};
use crate::schema_readers::SchemaReader;
use journal_form::Record;
use std::alloc::Global;
use value_bytes::{Both, LongList, LongText, Optional, U8, U64, Unread, read_whole};

/// A record, with its edit.
#[derive(Drop)]
pub struct ReadRecord {
    pub edit: u64,
    pub told: Record,
}

type CreateReader = Both<U64, Both<U8, SchemaReader>>;

type PublishReader = Both<U64, Both<U64, Both<LongList<NewFileField>, LongList<DeadRowsField>>>>;

type Changes = Both<
    LongList<NewFileField>,
    Both<LongList<DeadRowsField>, Optional<LevelListField>>,
>;

type CompactReader = Both<U64, Both<U64, Both<U64, Changes>>>;

type FloorReader = Both<U64, U64>;

type LevelsReader = Both<U64, Optional<LevelListField>>;

type Kept = Both<
    LongList<LongList<ListedFileField>>,
    Both<LongList<LongText>, Optional<LevelListField>>,
>;

type CheckpointReader = Both<
    U64,
    Both<U64, Both<U8, Both<SchemaReader, Both<U64, Both<U64, Kept>>>>>,
>;

// The record of a body with the tag 1, of which this is the rest.
fn read_create(alloc: Global, rest: &[u8]) -> Result<ReadRecord, Unread>
    ensures one { IfOk result (λ r. IsBodyOf r.edit r.told (1 ∷ rest.now)) }
    ensures none { IfErr result (λ fault. fault ≡ NotOne → IsNoBody (1 ∷ rest.now)) }
{
    match read_whole::<CreateReader>(alloc, rest) {
        Ok((edit, (form, schema))) => Ok(ReadRecord {
            edit,
            told: Record::Create { form, schema },
        }),
        Err(fault) => Err(fault),
    }
}

// The record of a body with the tag 2, of which this is the rest.
fn read_publish(alloc: Global, rest: &[u8]) -> Result<ReadRecord, Unread>
    ensures one { IfOk result (λ r. IsBodyOf r.edit r.told (2 ∷ rest.now)) }
    ensures none { IfErr result (λ fault. fault ≡ NotOne → IsNoBody (2 ∷ rest.now)) }
{
    match read_whole::<PublishReader>(alloc, rest) {
        Ok((edit, (version, (files, changed)))) => Ok(ReadRecord {
            edit,
            told: Record::Publish {
                version,
                files,
                changed,
            },
        }),
        Err(fault) => Err(fault),
    }
}

// The record of a body with the tag 3, of which this is the rest.
fn read_compact(alloc: Global, rest: &[u8]) -> Result<ReadRecord, Unread>
    ensures one { IfOk result (λ r. IsBodyOf r.edit r.told (3 ∷ rest.now)) }
    ensures none { IfErr result (λ fault. fault ≡ NotOne → IsNoBody (3 ∷ rest.now)) }
{
    match read_whole::<CompactReader>(alloc, rest) {
        Ok((edit, (version, (replaced, (files, (changed, levels)))))) => Ok(ReadRecord {
            edit,
            told: Record::Compact {
                version,
                replaced,
                files,
                changed,
                levels,
            },
        }),
        Err(fault) => Err(fault),
    }
}

// The record of a body with the tag 4, of which this is the rest.
fn read_floor(alloc: Global, rest: &[u8]) -> Result<ReadRecord, Unread>
    ensures one { IfOk result (λ r. IsBodyOf r.edit r.told (4 ∷ rest.now)) }
    ensures none { IfErr result (λ fault. fault ≡ NotOne → IsNoBody (4 ∷ rest.now)) }
{
    match read_whole::<FloorReader>(alloc, rest) {
        Ok((edit, floor)) => Ok(ReadRecord {
            edit,
            told: Record::Floor { floor },
        }),
        Err(fault) => Err(fault),
    }
}

// The record of a body with the tag 5, of which this is the rest.
fn read_levels(alloc: Global, rest: &[u8]) -> Result<ReadRecord, Unread>
    ensures one { IfOk result (λ r. IsBodyOf r.edit r.told (5 ∷ rest.now)) }
    ensures none { IfErr result (λ fault. fault ≡ NotOne → IsNoBody (5 ∷ rest.now)) }
{
    match read_whole::<LevelsReader>(alloc, rest) {
        Ok((edit, levels)) => Ok(ReadRecord {
            edit,
            told: Record::Levels { levels },
        }),
        Err(fault) => Err(fault),
    }
}

// The record of a body with the tag 6, of which this is the rest.
fn read_checkpoint(alloc: Global, rest: &[u8]) -> Result<ReadRecord, Unread>
    ensures one { IfOk result (λ r. IsBodyOf r.edit r.told (6 ∷ rest.now)) }
    ensures none { IfErr result (λ fault. fault ≡ NotOne → IsNoBody (6 ∷ rest.now)) }
{
    match read_whole::<CheckpointReader>(alloc, rest) {
        Ok((edit, (epoch, (form, (schema, (next_file, (floor, (rowsets, (kept, levels))))))))) =>
            Ok(ReadRecord {
                edit,
                told: Record::Checkpoint {
                    epoch,
                    form,
                    schema,
                    next_file,
                    floor,
                    rowsets,
                    kept,
                    levels,
                },
            }),
        Err(fault) => Err(fault),
    }
}

/// The record of a body.
///
/// # Errors
/// `NotOne` where no record has this body, and `Memory`.
pub fn read_record(alloc: Global, body: &[u8]) -> Result<ReadRecord, Unread>
    ensures one { IfOk result (λ r. IsBodyOf r.edit r.told body.now) }
    ensures none { IfErr result (λ fault. fault ≡ NotOne → IsNoBody body.now) }
{
    match body {
        [1, rest @ ..] => read_create(alloc, rest),
        [2, rest @ ..] => read_publish(alloc, rest),
        [3, rest @ ..] => read_compact(alloc, rest),
        [4, rest @ ..] => read_floor(alloc, rest),
        [5, rest @ ..] => read_levels(alloc, rest),
        [6, rest @ ..] => read_checkpoint(alloc, rest),
        _ => Err(Unread::NotOne),
    }
}
