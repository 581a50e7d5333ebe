ghost use Rattle.std.specs.Prelude.{◌≡◌, ◌<◌, ◌≤◌, length};
ghost use Rattle.dev_memory.specs.Images.{IsShort};

use crate::stores::failing;
use case_texts::{bytes_of, text_of};
use dev_memory::{Faults, Image, MemStore};
use dev_traits::Store;
use gated_log::{LogFault, append, bodies, find, frame, reset};
use pk_values::Octets;
use std::alloc::{AllocError, Global};

// The bodies that are added where a store stops or fails, in their order.
fn body(number: usize) -> &'static [u8]
    ensures { 1 ≤ length result.now }
{
    match number {
        0 => b"A",
        1 => b"BC",
        _ => b"DEFGHIJ",
    }
}

// Adds a body to the log of an area, which is synced and found first.
fn add<S: Store>(alloc: Global, store: &mut S, area: u32, body: &[u8]) -> Result<(), LogFault>
    requires there { area < 3 }
    requires some { 1 ≤ length body.now }
{
    let framed = frame(alloc, body)?;
    store.room(6, framed.room())?;
    store.sync(area)?;
    let mut log = find(store, area)?;
    append(store, &mut log, &framed)
}

fn told<T: Drop>(alloc: Global, done: Result<T, LogFault>) -> Result<String, AllocError> {
    match done {
        Ok(_) => "ok".to_string(alloc),
        Err(LogFault::Memory) => Err(AllocError),
        Err(fault) => format!(in alloc; "{fault:?}"),
    }
}

fn bodies_text(alloc: Global, found: Result<Vec<Octets>, LogFault>) -> Result<String, AllocError> {
    let found = match found {
        Ok(found) => found,
        Err(fault) => return told::<Vec<Octets>>(alloc, Err(fault)),
    };
    let mut text = format!(in alloc; "{} bodies", found.len())?;
    for body in &found {
        let body = text_of(alloc, body.as_slice())?;
        text.push_str(format!(in alloc; "; {body}")?.as_str())?;
    }
    Ok(text)
}

/// `find`: finds the log of area 0.
pub fn found(alloc: Global, store: &mut MemStore) -> Result<String, AllocError> {
    told(alloc, find(store, 0))
}

/// `add BYTES`: adds a body to the log of area 0.
pub fn added(alloc: Global, store: &mut MemStore, words: &str) -> Result<String, AllocError> {
    let body = bytes_of(alloc, words)?;
    if body.is_empty() {
        return "no byte".to_string(alloc);
    }
    told(alloc, add(alloc, store, 0, &body))
}

/// `bodies`: the bodies of the log of area 0.
pub fn bodies_now(alloc: Global, store: &mut MemStore) -> Result<String, AllocError> {
    bodies_text(alloc, bodies(alloc, store, 0))
}

/// `reset`: empties the log of area 0.
pub fn emptied(alloc: Global, store: &mut MemStore) -> Result<String, AllocError> {
    store.room(1, 0)?;
    told(alloc, reset(store, 0))
}

// The bodies of the log of area 0 after a crash left this image.
fn found_after(alloc: Global, image: Image) -> Result<Vec<Octets>, LogFault>
    requires three { length image.areas.items ≡ 3 }
    requires short { IsShort image }
{
    let mut store = MemStore::of_image(alloc, image, Faults::none(alloc))?;
    bodies(alloc, &mut store, 0)
}

fn left_by(alloc: Global, store: &MemStore, pick: u64) -> Result<Vec<Octets>, LogFault> {
    let image = store.image(alloc, pick)?;
    found_after(alloc, image)
}

/// `crashed NUMBER`: the bodies after a crash now, in the image of a number.
pub fn crashed(alloc: Global, store: &MemStore, words: &str) -> Result<String, AllocError> {
    bodies_text(
        alloc,
        left_by(alloc, store, words.parse::<u64>().unwrap_or(0)),
    )
}

// Adds the bodies up to the first fault, and tells how many were added.
fn add_all(alloc: Global, store: &mut MemStore) -> Result<usize, AllocError> {
    for number in 0..3 {
        match add(alloc, store, 0, body(number)) {
            Ok(()) => {}
            Err(LogFault::Memory) => return Err(AllocError),
            Err(_) => return Ok(number),
        }
    }
    Ok(3)
}

// Whether these are the first of the bodies, so many.
fn are_first(found: &[Octets], count: usize) -> bool {
    if found.len() != count {
        return false;
    }
    for i in 0..found.len() {
        if found[i].as_slice() != body(i) {
            return false;
        }
    }
    true
}

fn are_first_or_one_more(found: &[Octets], count: usize) -> bool {
    are_first(found, count) || are_first(found, count.saturating_add(1))
}

// Whether each image of the numbers below 40 has so many bodies, or one more.
fn crashes_well(alloc: Global, store: &MemStore, added: usize) -> Result<bool, LogFault> {
    for pick in 0..40 {
        let found = left_by(alloc, store, pick)?;
        if !are_first_or_one_more(&found, added) {
            return Ok(false);
        }
    }
    Ok(true)
}

/// `stopped CALL`: whether each crash leaves the bodies that were added or one more, where a store stops at a call.
pub fn stopped(alloc: Global, words: &str) -> Result<String, AllocError> {
    let faults = failing(alloc, Vec::new(alloc), words.parse::<u64>().ok());
    let mut store = MemStore::new(alloc, faults)?;
    let added = add_all(alloc, &mut store)?;
    match crashes_well(alloc, &store, added) {
        Ok(well) => format!(in alloc; "{well}"),
        Err(fault) => told::<()>(alloc, Err(fault)),
    }
}

// Whether the bodies that were added or one more are there, and another can be added.
fn goes_on(alloc: Global, store: &mut MemStore, added: usize) -> Result<bool, LogFault> {
    let found = bodies(alloc, store, 0)?;
    add(alloc, store, 0, body(0))?;
    Ok(are_first_or_one_more(&found, added))
}

/// `listed CALL`: where a call of a store fails, how many faults it counted, whether fewer than three bodies
/// were added, whether each crash leaves these or one more, and whether the log has these or one more and
/// goes on.
pub fn listed(alloc: Global, words: &str) -> Result<String, AllocError> {
    let mut fails = Vec::new(alloc);
    fails.push(words.parse::<u64>().unwrap_or(0))?;
    let mut store = MemStore::new(alloc, failing(alloc, fails, None))?;
    let added = add_all(alloc, &mut store)?;
    let faults = store.faults();
    let well = crashes_well(alloc, &store, added) == Ok(true);
    let on = goes_on(alloc, &mut store, added) == Ok(true);
    format!(in alloc; "{faults} {} {well} {on}", added < 3)
}
