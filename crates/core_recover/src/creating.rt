ghost use Rattle.std.specs.Prelude.{◌≡◌, ◌⊎◌, ◌+◌, ◌-◌, ◌^◌, min, ◌<◌, ◌≤◌, ℕ, [], None, Some, IsTrue, IfOk, IfErr, OnOk, length, is_some};
ghost use Rattle.dev_traits.specs.Causes.{HasCause, HasCauseOf, RoseBy};
ghost use Rattle.dev_traits.specs.Image.{file};
ghost use Rattle.dev_traits.specs.View.{EachImage, Leaves, LeavesOnly, Spends, Told};
ghost use Rattle.pk_values.specs.Schemas.{schema_fault};
ghost use Rattle.journal_form.specs.Meaning.{Standing};
ghost use Rattle.pk_model.specs.Books.{new_book};
ghost use Rattle.version_journal.specs.Commits.{IsDue};
ghost use Rattle.version_journal.specs.Images.{HasNoRecord, IsSaid};
ghost use Rattle.version_journal.specs.Journals.{ReadsAs};
ghost use Rattle.tablet_state.specs.State.{Has, faults_of, reader_faults};
ghost use Rattle.tablet_state.specs.Stands.{Stands};
ghost use Rattle.core_recover.specs.Areas.{IsEmptyOrBlank};
ghost use Rattle.core_recover.specs.Creating.{BlanksBoth, Clears, HasBegun, HasNoFile, IsBlank, IsClean, IsStart, KeepsRest, first_standing, new_contents};
ghost use Rattle.core_recover.specs.Keeping.{CountsAs, IsNewStore, CountsNone};
ghost use Rattle.core_recover.specs.Opening.{IsWant, store_left};
ghost use Rattle.core_recover.specs.declared.faults.OpenFault.TheVariants as fault;

use crate::OpenFault;
use crate::areas::blank_written;
use dev_traits::{Failed, FileMaker, Memory, Store};
use gated_log::Log;
use journal_form::Record;
use kept_versions::{KeptVersion, KeyIndex};
use pk_values::{Schema, schema_columns};
use std::alloc::Global;
use tablet_state::{State, StateParts};
use version_journal::{Draft, Journal, commit, draft};

// Forgets every file, and blanks area 2 where it isn't empty.
fn drop_rest<S: Store>(store: &mut S) -> Result<(), Failed>
    requires calls { 2 ≤ (S.view store.old).spare_calls }
    ensures none { OnOk result (Told (S.view store.new) HasNoFile) }
    ensures index { OnOk result (Told (S.view store.new) (IsEmptyOrBlank 2)) }
    ensures each_index { OnOk result (IsTrue (S.view store.old).is_honest → EachImage (S.view store.new) (IsEmptyOrBlank 2)) }
    ensures moments { Leaves Clears (S.view store.old) (S.view store.new) }
    ensures spends { Spends 2 0 (S.view store.old) (S.view store.new) }
    ensures cause { HasCause (S.view store.old).faults (S.view store.new).faults result }
{
    store.forget_others(&[])?;
    blank_written(store, 2)
}

// Blanks areas 0 and 1.
fn blank_both<S: Store>(store: &mut S) -> Result<(), Failed>
    requires calls { 2 ≤ (S.view store.old).spare_calls }
    ensures read { OnOk result (Told (S.view store.new) IsBlank) }
    ensures blank { OnOk result (EachImage (S.view store.new) IsBlank) }
    ensures elsewhere { Told (S.view store.old) (λ before. Told (S.view store.new) (KeepsRest before)) }
    ensures moments { Leaves BlanksBoth (S.view store.old) (S.view store.new) }
    ensures spends { Spends 2 0 (S.view store.old) (S.view store.new) }
    ensures cause { HasCause (S.view store.old).faults (S.view store.new).faults result }
{
    store.blank(0)?;
    store.blank(1)
}

// Forgets every file, and blanks the areas: area 2 where it isn't empty.
fn clear<S: Store>(store: &mut S) -> Result<(), Failed>
    requires calls { 4 ≤ (S.view store.old).spare_calls }
    ensures clean { OnOk result (Told (S.view store.new) IsClean) }
    ensures index { OnOk result (Told (S.view store.new) (IsEmptyOrBlank 2)) }
    ensures blank { OnOk result (EachImage (S.view store.new) IsBlank) }
    ensures each_index { OnOk result (IsTrue (S.view store.old).is_honest → EachImage (S.view store.new) (IsEmptyOrBlank 2)) }
    ensures moments { Leaves Clears (S.view store.old) (S.view store.new) }
    ensures spends { Spends 4 0 (S.view store.old) (S.view store.new) }
    ensures cause { HasCause (S.view store.old).faults (S.view store.new).faults result }
{
    drop_rest(store)?;
    blank_both(store)
}

// Clears a store, and writes its first record.
fn write_first<S: Store>(
    store: &mut S,
    journal: &mut Journal,
    first: &Draft,
) -> Result<(), OpenFault>
    requires calls { 8 ≤ (S.view store.old).spare_calls }
    requires bytes { length first.now.body + 10 ≤ (S.view store.old).spare_bytes }
    requires start { IsStart journal.old }
    requires due { first.now.edit ≡ 0 }
    ensures begun { OnOk result ((t : Standing) → IsDue first.now.body None t → IsTrue (S.view store.old).is_honest → HasBegun journal.new t (S.view store.new)) }
    ensures reads { OnOk result ((t : Standing) → IsDue first.now.body None t → Told (S.view store.new) (ReadsAs journal.new (Some t))) }
    ensures none { OnOk result (Told (S.view store.new) (λ image. (number : ℕ) → file image number ≡ None)) }
    ensures index { OnOk result (Told (S.view store.new) (IsEmptyOrBlank 2)) }
    ensures each_index { OnOk result ((t : Standing) → IsDue first.now.body None t → IsTrue (S.view store.old).is_honest → EachImage (S.view store.new) (IsEmptyOrBlank 2)) }
    ensures any_moment { (t : Standing) → IsDue first.now.body None t → IsTrue (S.view store.old).is_honest → EachImage (S.view store.old) HasNoRecord
        → LeavesOnly (λ left. HasNoRecord left ⊎ IsSaid left t) (S.view store.old) (S.view store.new) }
    ensures area { journal.new.log.area ≡ 0 }
    ensures spends { Spends 8 (length first.now.body + 10) (S.view store.old) (S.view store.new) }
    ensures only { IfErr result (λ e. e ≡ fault.StoreFault) }
    ensures cause { HasCause (S.view store.old).faults (S.view store.new).faults result }
{
    clear(store)?;
    match commit(store, journal, first) {
        Ok(()) => Ok(()),
        Err(_) => Err(OpenFault::StoreFault),
    }
}

// The body of a first record, and the columns that it tells.
#[derive(Drop)]
struct First {
    journal: Journal,
    draft: Draft,
    schema: Schema,
}

// The first record of a new store.
fn first_of(alloc: Global, schema: Schema) -> Result<First, Memory>
    ensures schema { IfOk result (λ first. first.schema ≡ schema) }
    ensures start { IfOk result (λ first. IsStart first.journal) }
    ensures due { IfOk result (λ first. IsDue first.draft.body None (first_standing schema)) }
    ensures edit { IfOk result (λ first. first.draft.edit ≡ 0) }
    ensures good { OnOk result (schema_fault schema.columns schema.keys ≡ None) }
{
    schema_columns();
    let _keys = schema.keys();
    let journal = Journal::new(Log { area: 0, end: 0 });
    let told = Record::Create {
        form: 1,
        schema: schema.copy(alloc)?,
    };
    let draft = draft(alloc, &journal, &told)?;
    Ok(First {
        journal,
        draft,
        schema,
    })
}

// What a new state is made of, beside its store.
#[derive(Drop)]
struct Begun<S: Store> {
    maker: S::Maker,
    journal: Journal,
    schema: Schema,
}

// Makes a store that has no record a tablet's.
fn begin<S: Store>(alloc: Global, store: &mut S, schema: Schema) -> Result<Begun<S>, OpenFault>
    ensures begun { IfOk result (λ begun. IsTrue (S.view store.old).is_honest → HasBegun begun.journal (first_standing schema) (S.view store.new)) }
    ensures reads { IfOk result (λ begun. Told (S.view store.new) (ReadsAs begun.journal (Some (first_standing schema)))) }
    ensures none { OnOk result (Told (S.view store.new) (λ image. (number : ℕ) → file image number ≡ None)) }
    ensures index { OnOk result (Told (S.view store.new) (IsEmptyOrBlank 2)) }
    ensures each_index { OnOk result (IsTrue (S.view store.old).is_honest → EachImage (S.view store.new) (IsEmptyOrBlank 2)) }
    ensures tells { is_some (S.view store.new).seen ≡ is_some (S.view store.old).seen }
    ensures schema { IfOk result (λ begun. begun.schema ≡ schema) }
    ensures good { OnOk result (schema_fault schema.columns schema.keys ≡ None) }
    ensures maker { IfOk result (λ begun. (S.Maker.view begun.maker).faults ≡ 0) }
    ensures any_moment { IsTrue (S.view store.old).is_honest → EachImage (S.view store.old) HasNoRecord
        → LeavesOnly (λ left. HasNoRecord left ⊎ IsSaid left (first_standing schema)) (S.view store.old) (S.view store.new) }
    ensures honest { (S.view store.new).is_honest ≡ (S.view store.old).is_honest }
    ensures only { IfErr result IsWant }
    ensures cause { HasCauseOf fault.StoreFault (S.view store.old).faults (S.view store.new).faults result }
{
    let First {
        mut journal,
        draft,
        schema,
    } = first_of(alloc, schema)?;
    store.room(8, draft.room())?;
    let maker = store.maker()?;
    match write_first(store, &mut journal, &draft) {
        Ok(()) => Ok(Begun {
            maker,
            journal,
            schema,
        }),
        Err(fault) => {
            store.give_back(maker);
            Err(fault)
        }
    }
}

/// Makes a store without a record the tablet of a table: version 0, without a row. It forgets every file, and blanks
/// area 2 where that isn't empty.
///
/// # Errors
/// `StoreFault`, which the store counted, and `Memory`, with the store. A crash may then leave the new tablet, or a
/// store without a record.
pub fn create<S: Store>(alloc: Global, store: S, schema: Schema) -> Result<State<S>, (S, OpenFault)>
    requires { IsTrue (S.view store).is_honest → EachImage (S.view store) HasNoRecord }
    ensures book { IsTrue (S.view store).is_honest → IfOk result (λ state. Has S.view state new_book) }
    ensures schema { IfOk result (λ state. state.contents.schema ≡ schema) }
    ensures open { IfOk result (λ state. state.closed ≡ None) }

    // At every moment an image has no record, or stands for the new tablet.
    ensures any_moment { IsTrue (S.view store).is_honest
        → LeavesOnly (λ left. HasNoRecord left ⊎ Stands schema new_book left) (S.view store) (S.view (store_left result)) }
    ensures only { IfErr result (λ e. IsWant e.1) }

    // Honest or not: the store has the creation as its one record, no file, and an area 2 that is empty or blank, in
    // each image of an honest store. The state holds what this record means.
    ensures made { IfOk result (λ state. Told (S.view state.store) (IsNewStore schema)) }
    ensures index { IfOk result (λ state. IsTrue (S.view store).is_honest → EachImage (S.view state.store) (IsEmptyOrBlank 2)) }
    ensures contents { IfOk result (λ state. state.contents ≡ new_contents schema) }

    // What an honest store that was refused reads as is empty or the new tablet's.
    ensures still { IsTrue (S.view store).is_honest → Told (S.view (store_left result)) (λ image. HasNoRecord image ⊎ Stands schema new_book image) }
    ensures tells { is_some (S.view (store_left result)).seen ≡ is_some (S.view store).seen }

    // The count of faults: one more exactly where the store failed, and none more else.
    ensures counted { IfErr result (λ e. CountsAs e.1 (S.view store).faults (S.view e.0).faults) }
    ensures uncounted { IfOk result (λ state. CountsNone S.view (S.view store).faults state) }
    ensures cause { IfErr result (λ e. e.1 ≡ OpenFault.StoreFault → RoseBy 1 (S.view store).faults (S.view e.0).faults) }
    ensures counts_ok { IfOk result (λ state. RoseBy 0 (S.view store).faults (faults_of S.view state)) }
    ensures counts_err { IfErr result (λ e. RoseBy 0 (S.view store).faults (S.view e.0).faults) }
    ensures honest { (S.view (store_left result)).is_honest ≡ (S.view store).is_honest }
{
    let mut store = store;
    match begin(alloc, &mut store, schema) {
        Ok(begun) => Ok(new_state(alloc, store, begun)),
        Err(fault) => Err((store, fault)),
    }
}

// The state of a store whose first record was written.
fn new_state<S: Store>(alloc: Global, store: S, begun: Begun<S>) -> State<S>
    requires good { schema_fault begun.schema.columns begun.schema.keys ≡ None }
    requires reads { Told (S.view store) (ReadsAs begun.journal (Some (first_standing begun.schema))) }
    requires none { Told (S.view store) (λ image. (number : ℕ) → file image number ≡ None) }
    requires begun { IsTrue (S.view store).is_honest → HasBegun begun.journal (first_standing begun.schema) (S.view store) }
    ensures book { IsTrue (S.view store).is_honest → Has S.view result new_book }
    ensures schema { result.contents.schema ≡ begun.schema }
    ensures store { result.store ≡ store }
    ensures contents { result.contents ≡ new_contents begun.schema }
    ensures faults { (S.Maker.view begun.maker).faults ≡ 0 → faults_of S.view result ≡ min (S.view store).faults (2 ^ 64 - 1) }
    ensures uncounted { (S.Maker.view begun.maker).faults ≡ 0 → (result.maker_faults ≡ 0) × (reader_faults result.segments ≡ 0) }
    ensures open { result.closed ≡ None }
{
    let Begun {
        maker,
        journal,
        schema,
    } = begun;
    let older = Vec::new(alloc);
    let current = KeptVersion::empty(alloc);
    let segments = Vec::new(alloc);
    let index = KeyIndex::new(alloc);
    State::of(StateParts {
        store,
        maker,
        log: journal.log,
        schema,
        form: 1,
        epoch: 0,
        edit: 0,
        next_file: 1,
        floor: 0,
        older,
        current,
        segments,
        index,
    })
}
