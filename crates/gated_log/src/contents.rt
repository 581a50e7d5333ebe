ghost use Rattle.std.specs.Prelude.{◌≡◌, ◌+◌, ◌*◌, ◌-◌, ◌^◌, ◌<◌, ◌≤◌, [], ◌∷◌, ℕ, List, length, take, drop, IfOk};
ghost use Rattle.std.specs.Prelude.{IfSome, IsErrOf, IsTrue, MatchOption};
ghost use Rattle.dev_traits.specs.Image.{area_of, Blanked};
ghost use Rattle.dev_traits.specs.View.{Told, Calm, Leaves, ReadsElsewhere, Spends};
ghost use Rattle.gated_log.specs.Faults.{HasLogCause};
ghost use Rattle.gated_log.specs.Log.{IsLog, IsNoLog, HasNone, BeginsWith, HasScanned, EndsAt, IsSettled, IsReady};
ghost use Rattle.gated_log.specs.Log.{IsSynced};
ghost use Rattle.gated_log.specs.declared.fault.LogFault.TheVariants.{NotALog};

use crate::log::reset;
use crate::reading::next;
use crate::{Log, LogFault};
use dev_traits::Store;
use pk_values::Octets;
use std::alloc::Global;

// The body behind the open gate at a place, with the next gate behind it.
fn body<S: Store>(
    alloc: Global,
    store: &mut S,
    area: u32,
    at: u64,
    gate: u64,
) -> Result<Octets, LogFault>
    requires there { area < 3 }
    requires order { at + 9 ≤ gate }
    requires short { gate ≤ 2 ^ 44 }
    requires inside { Told (S.view store.old) (λ image. gate ≤ length (area_of image area)) }
    ensures body { IfOk result (λ body. Told (S.view store.old) (λ image. body ≡ take (gate - at - 9) (drop (at + 9)
        (area_of image area)))) }
    ensures calm { Calm (S.view store.old) (S.view store.new) }
    ensures cause { HasLogCause (S.view store.old).faults (S.view store.new).faults result }
    ensures a_log { IsErrOf result NotALog → ⊥ }
{
    let mut bytes = vec![in alloc; 0u8; (gate - at - 9) as usize]?;
    store.read(area, at + 9, &mut bytes)?;
    Ok(Octets::from_vec(alloc, bytes)?)
}

// The bodies of a log, and the place of its closed gate.
#[derive(Drop)]
struct Scanned {
    bodies: Vec<Octets>,
    end: u64,
}

// Reads the log of an area that isn't empty.
fn scan<S: Store>(alloc: Global, store: &mut S, area: u32, end: u64) -> Result<Scanned, LogFault>
    requires there { area < 3 }
    requires some { 1 ≤ end }
    requires short { end ≤ 2 ^ 44 }
    requires whole { Told (S.view store.old) (λ image. end ≡ length (area_of image area)) }
    ensures scanned { IfOk result (λ found. Told (S.view store.old)
        (λ image. HasScanned found.bodies.items found.end (area_of image area))) }
    ensures inside { IfOk result (λ found. (10 * length found.bodies.items ≤ found.end) × (found.end < end)) }
    ensures not_a_log { IsErrOf result NotALog → Told (S.view store.old) (λ image. IsNoLog (area_of image area)) }
    ensures calm { Calm (S.view store.old) (S.view store.new) }
    ensures cause { HasLogCause (S.view store.old).faults (S.view store.new).faults result }
{
    let mut bodies = Vec::new(alloc);
    let mut at = 0;
    loop {
        match next(store, area, at, end)? {
            Some(gate) => {
                let found = body(alloc, store, area, at, gate)?;
                bodies.push(found)?;
                at = gate;
            }
            None => return Ok(Scanned { bodies, end: at }),
        }
    }
}

/// The bodies of an area's log, in their order. It writes nothing. Each takes at least 10 bytes of the area, also
/// where the store tells nothing.
///
/// # Errors
/// `NotALog` where the area isn't of the log's grammar, `StoreFault`, and `Memory` for the bodies.
pub fn bodies<S: Store>(alloc: Global, store: &mut S, area: u32) -> Result<Vec<Octets>, LogFault>
    requires { area < 3 }
    ensures bodies { IfOk result (λ bodies. Told (S.view store.old) (λ image. IsLog bodies.items
        (area_of image area))) }
    ensures few { IfOk result (λ bodies. 10 * length bodies.items < 2 ^ 44) }
    ensures not_a_log { IsErrOf result NotALog → Told (S.view store.old) (λ image. IsNoLog (area_of image area)) }
    ensures calm { Calm (S.view store.old) (S.view store.new) }
    ensures cause { HasLogCause (S.view store.old).faults (S.view store.new).faults result }
{
    let length = store.length(area)?;
    if length == 0 {
        return Ok(Vec::new(alloc));
    }
    let found = scan(alloc, store, area, length)?;
    Ok(found.bodies)
}

/// The first body of an area's log, or none where the log has none. It is read alone: what stands behind it isn't
/// looked at. It writes nothing.
///
/// # Errors
/// `NotALog` where the area doesn't begin as a log does, `StoreFault`, and `Memory` for the body.
pub fn first_body<S: Store>(
    alloc: Global,
    store: &mut S,
    area: u32,
) -> Result<Option<Octets>, LogFault>
    requires { area < 3 }
    ensures first { IfOk result (λ found. Told (S.view store.old) (λ image.
        MatchOption found (HasNone (area_of image area)) (λ body. BeginsWith body (area_of image area)))) }
    // Of a log it is the first one.
    ensures of_log { IfOk result (λ found. Told (S.view store.old) (λ image. (bodies : List (List ℕ))
        → IsLog bodies (area_of image area)
        → MatchOption found (bodies ≡ []) (λ body. (rest : List (List ℕ)) × (bodies ≡ body ∷ rest)))) }
    ensures not_a_log { IsErrOf result NotALog → Told (S.view store.old) (λ image. IsNoLog (area_of image area)) }
    ensures calm { Calm (S.view store.old) (S.view store.new) }
    ensures cause { HasLogCause (S.view store.old).faults (S.view store.new).faults result }
{
    let length = store.length(area)?;
    if length == 0 {
        return Ok(None);
    }
    match next(store, area, 0, length)? {
        Some(gate) => Ok(Some(body(alloc, store, area, 0, gate)?)),
        None => Ok(None),
    }
}

/// A log and its bodies, in their order.
#[derive(Drop)]
pub struct Contents {
    pub log: Log,
    pub bodies: Vec<Octets>,
}

/// Finds the log of an area and reads its bodies, in one pass. It does to the area what `find` does: an empty area is
/// blanked first, for which the call itself takes the store's room.
///
/// # Errors
/// `NotALog` where the area isn't of the log's grammar, `StoreFault`, and `Memory` for the bodies or the room of the
/// blanking. Nothing is written at `NotALog` and `Memory`; at `StoreFault` an empty area may be blank.
pub fn read_log<S: Store>(alloc: Global, store: &mut S, area: u32) -> Result<Contents, LogFault>
    requires { area < 3 }
    ensures area { IfOk result (λ found. found.log.area ≡ area) }
    ensures bodies { IfOk result (λ found. Told (S.view store.old) (λ image. IsLog found.bodies.items
        (area_of image area))) }
    ensures found { IfOk result (λ found. Told (S.view store.new) (λ image. EndsAt found.bodies.items found.log.end
        (area_of image area))) }
    ensures few { IfOk result (λ found. 10 * length found.bodies.items ≤ found.log.end) }
    ensures not_a_log { IsErrOf result NotALog → Told (S.view store.old) (λ image. IsNoLog (area_of image area)) }

    // A log that is settled stays so, and an empty area becomes a settled log without a body.
    ensures settled { (bodies : List (List ℕ)) (end : ℕ) → IsSettled area bodies end (S.view store.old)
        → IfOk result (λ found. (found.log.end ≡ end) × (found.bodies.items ≡ bodies)
        × IsSettled area bodies end (S.view store.new)) }
    ensures begun { IsTrue (S.view store.old).is_honest → Told (S.view store.old) (λ image. area_of image area ≡ []
        → IfOk result (λ found. (found.log.end ≡ 0) × IsSettled area [] 0 (S.view store.new))) }

    // Where a crash leaves what is read, the log can be appended to.
    ensures ready { IsSynced area (S.view store.old) → IfOk result (λ found. IsReady found.log.area found.log.end
        (S.view store.new)) }

    ensures unwritten { Told (S.view store.old) (λ image. 1 ≤ length (area_of image area)
        → Calm (S.view store.old) (S.view store.new)) }
    ensures elsewhere { ReadsElsewhere area (S.view store.old) (S.view store.new) }
    ensures spends { Spends 1 0 (S.view store.old) (S.view store.new) }
    ensures any_moment { Leaves (Blanked area) (S.view store.old) (S.view store.new) }
    ensures cause { HasLogCause (S.view store.old).faults (S.view store.new).faults result }
    ensures refused { IsErrOf result NotALog → Calm (S.view store.old) (S.view store.new) }
    ensures short_of_memory { IsErrOf result LogFault.Memory → Calm (S.view store.old) (S.view store.new) }
{
    let length = store.length(area)?;
    if length == 0 {
        store.room(1, 0)?;
        let log = reset(store, area)?;
        let bodies = Vec::new(alloc);
        return Ok(Contents { log, bodies });
    }
    let Scanned { bodies, end } = scan(alloc, store, area, length)?;
    let log = Log { area, end };
    Ok(Contents { log, bodies })
}

/// The log of an area and its bodies, in their order and in one pass, or none where the area is empty. It writes
/// nothing.
///
/// # Errors
/// `NotALog` where the area isn't of the log's grammar, `StoreFault`, and `Memory` for the bodies.
pub fn log_in<S: Store>(
    alloc: Global,
    store: &mut S,
    area: u32,
) -> Result<Option<Contents>, LogFault>
    requires { area < 3 }
    ensures area { IfOk result (λ found. IfSome found (λ contents. contents.log.area ≡ area)) }
    ensures found { IfOk result (λ found. Told (S.view store.old) (λ image.
        MatchOption found (area_of image area ≡ []) (λ contents. EndsAt contents.bodies.items contents.log.end
        (area_of image area)))) }
    ensures few { IfOk result (λ found. IfSome found (λ contents. 10 * length contents.bodies.items
        ≤ contents.log.end)) }
    ensures not_a_log { IsErrOf result NotALog → Told (S.view store.old) (λ image. IsNoLog (area_of image area)) }
    ensures calm { Calm (S.view store.old) (S.view store.new) }
    ensures cause { HasLogCause (S.view store.old).faults (S.view store.new).faults result }
{
    let length = store.length(area)?;
    if length == 0 {
        return Ok(None);
    }
    let Scanned { bodies, end } = scan(alloc, store, area, length)?;
    let log = Log { area, end };
    Ok(Some(Contents { log, bodies }))
}
