ghost use Rattle.std.specs.Prelude.{◌≡◌, ◌≤◌, length, false};

use crate::told::{load_text, outside_text, read_text, reply_text};
use core_compact::expire;
use core_partial::{Found, PreparedPartial, locate, prepare_partial, publish_partial, settle};
use dev_traits::Store;
use load_csv::read_load;
use pk_model::Load;
use std::alloc::{AllocError, Global};
use tablet_state::State;

/// What happens between the look-up of a partial load and its publishing.
#[derive(Drop)]
pub enum Between {
    /// A load of these bytes, which may leave columns out, too.
    Load(Vec<u8>),
    Expire(u64),
}

// Makes the rows of the keys that moved again, so often, and tells how many each time.
fn settled<S: Store>(
    alloc: Global,
    state: &mut State<S>,
    prepared: &mut PreparedPartial<S::Maker>,
) -> Result<String, AllocError>
    requires unspent { prepared.old.spent ≡ false }
    requires schema { prepared.old.schema ≡ state.old.contents.schema }
    ensures kept { prepared.new.spent ≡ false }
    ensures schema { prepared.new.schema ≡ prepared.old.schema }
    ensures contents { state.new.contents ≡ state.old.contents }
{
    if state.closed_at().is_some() {
        return "closed".to_string(alloc);
    }
    match settle(alloc, state, prepared) {
        Ok(moved) => format!(in alloc; "moved {moved}"),
        Err(fault) => read_text(alloc, &fault),
    }
}

// Prepares a load whose keys were found, and publishes it in the turn at a place.
fn publish_found<S: Store>(
    alloc: Global,
    state: &mut State<S>,
    maker: &mut S::Maker,
    found: &mut Found<S::Reader>,
    load: Load,
    settles: bool,
    place: u64,
) -> Result<String, AllocError>
    requires load { found.old.load ≡ load }
    requires schema { found.old.snapshot.schema ≡ state.old.contents.schema }
    ensures schema { state.new.contents.schema ≡ state.old.contents.schema }
{
    let mut prepared = match prepare_partial(alloc, maker, found, load) {
        Ok(prepared) => prepared,
        Err(fault) => return outside_text(alloc, &fault),
    };
    let moved = if settles {
        let moved = settled(alloc, state, &mut prepared)?;
        format!(in alloc; "{moved}; ")?
    } else {
        String::new(alloc)
    };
    let reply = publish_partial(alloc, state, &mut prepared, place);
    let reply = reply_text(alloc, &reply)?;
    format!(in alloc; "{moved}{reply}")
}

/// Loads bytes that may leave columns out, with nothing between the look-up and the publishing.
pub fn publish_load<S: Store>(
    alloc: Global,
    state: &mut State<S>,
    maker: &mut S::Maker,
    bytes: &[u8],
    place: u64,
) -> Result<String, AllocError>
    requires within { length bytes.now ≤ 67108864 }
    ensures schema { state.new.contents.schema ≡ state.old.contents.schema }
{
    let load = match read_load(alloc, state.schema(), bytes, true) {
        Ok(load) => load,
        Err(fault) => return load_text(alloc, &fault),
    };
    let (reply, found) = locate(alloc, state, &load);
    let Some(mut found) = found else {
        return reply_text(alloc, &reply);
    };
    let told = publish_found(alloc, state, maker, &mut found, load, false, place);
    state.give_back_snapshot(found.into_snapshot());
    told
}

// What happens between.
fn happen<S: Store>(
    alloc: Global,
    state: &mut State<S>,
    maker: &mut S::Maker,
    step: &Between,
    place: u64,
) -> Result<String, AllocError>
    ensures schema { state.new.contents.schema ≡ state.old.contents.schema }
{
    match step {
        Between::Load(bytes) => {
            if bytes.len() > 67_108_864 {
                return "too long".to_string(alloc);
            }
            publish_load(alloc, state, maker, bytes, place)
        }
        Between::Expire(v) => {
            let reply = expire(alloc, state, *v, place);
            reply_text(alloc, &reply)
        }
    }
}

// One step after the other, each in a turn of its own from a place on.
fn happen_all<S: Store>(
    alloc: Global,
    state: &mut State<S>,
    maker: &mut S::Maker,
    between: &[Between],
    place: u64,
) -> Result<String, AllocError>
    ensures schema { state.new.contents.schema ≡ state.old.contents.schema }
{
    let mut text = String::new(alloc);
    let mut place = place;
    for step in between {
        let told = happen(alloc, state, maker, step, place)?;
        text.push_str(told.as_str())?;
        text.push_str("; ")?;
        place = place.saturating_add(1);
    }
    Ok(text)
}

/// Loads bytes that may leave columns out: looks their keys up in the turn at a place, lets some steps happen in the turns
/// behind it, prepares the load, makes the rows of moved keys again where that is asked, and publishes it.
pub fn publish_behind<S: Store>(
    alloc: Global,
    state: &mut State<S>,
    maker: &mut S::Maker,
    bytes: &[u8],
    between: &[Between],
    settles: bool,
    place: u64,
) -> Result<String, AllocError>
    requires within { length bytes.now ≤ 67108864 }
{
    let load = match read_load(alloc, state.schema(), bytes, true) {
        Ok(load) => load,
        Err(fault) => return load_text(alloc, &fault),
    };
    let (reply, found) = locate(alloc, state, &load);
    let first = reply_text(alloc, &reply)?;
    let Some(mut found) = found else {
        return Ok(first);
    };
    let happened = happen_all(alloc, state, maker, between, place.saturating_add(1))?;
    let last = place.saturating_add(1).saturating_add(between.len() as u64);
    let told = publish_found(alloc, state, maker, &mut found, load, settles, last)?;
    state.give_back_snapshot(found.into_snapshot());
    format!(in alloc; "{first}; {happened}{told}")
}
