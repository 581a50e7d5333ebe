ghost use Rattle.std.specs.Prelude.{◌≡◌, ◌+◌, ◌^◌, ◌<◌, ◌≤◌, ◌∷◌, [], ℕ, List, length, drop, OnOk, IfOk, IfErr};
ghost use Rattle.std.specs.Prelude.{IfSome, IsErrOf, IsTrue, MatchOption};
ghost use Rattle.std.specs.Int.{w64, to_be_bytes};
ghost use Rattle.dev_traits.specs.Causes.{HasCause};
ghost use Rattle.dev_traits.specs.Image.{area_of, Blanked};
ghost use Rattle.dev_traits.specs.View.{Told, EachImage, Leaves, Calm, Spends, ReadsElsewhere};
ghost use Rattle.gated_log.specs.Faults.{HasLogCause};
ghost use Rattle.gated_log.specs.Log.{IsLog, IsNoLog, EndsAt, HasNone, IsBlock, IsScanned, IsSettled, IsReady};
ghost use Rattle.gated_log.specs.Log.{IsSynced};
ghost use Rattle.gated_log.specs.declared.fault.LogFault.TheVariants.{StoreFault, NotALog};

use crate::log::{OPEN, reset};
use crate::{Log, LogFault};
use dev_traits::Store;

// The length that a header tells.
fn size_in(header: &[u8; 8]) -> u64
    ensures { to_be_bytes w64 result ≡ header.now }
{
    u64::from_be_bytes(*header)
}

// The place of the gate behind the block at a place, or none where the gate there is closed.
pub(crate) fn next<S: Store>(
    store: &mut S,
    area: u32,
    at: u64,
    end: u64,
) -> Result<Option<u64>, LogFault>
    requires there { area < 3 }
    requires inside { at < end }
    requires short { end ≤ 2 ^ 44 }
    requires whole { Told (S.view store.old) (λ image. end ≡ length (area_of image area)) }
    ensures block { IfOk result (λ found. Told (S.view store.old) (λ image.
        MatchOption found (HasNone (drop at (area_of image area))) (λ gate. IsBlock at gate (area_of image area)))) }
    ensures inside { IfOk result (λ found. IfSome found (λ gate. (at + 9 < gate) × (gate < end))) }
    ensures not_a_log { IsErrOf result NotALog → Told (S.view store.old) (λ image. IsNoLog (drop at
        (area_of image area))) }
    ensures calm { Calm (S.view store.old) (S.view store.new) }
    ensures cause { HasLogCause (S.view store.old).faults (S.view store.new).faults result }
    ensures memory { IsErrOf result LogFault.Memory → ⊥ }
{
    let mut gate = [0u8; 1];
    store.read(area, at, &mut gate)?;
    if gate[0] != OPEN {
        return Ok(None);
    }
    if end - at < 9 {
        return Err(LogFault::NotALog);
    }
    let mut header = [0u8; 8];
    store.read(area, at + 1, &mut header)?;
    let size = size_in(&header);
    if size == 0 || size >= end - at - 9 {
        return Err(LogFault::NotALog);
    }
    Ok(Some(at + 9 + size))
}

// The place of the closed gate.
fn closed_gate<S: Store>(store: &mut S, area: u32, end: u64) -> Result<u64, LogFault>
    requires there { area < 3 }
    requires some { 1 ≤ end }
    requires short { end ≤ 2 ^ 44 }
    requires whole { Told (S.view store.old) (λ image. end ≡ length (area_of image area)) }
    ensures found { IfOk result (λ gate. Told (S.view store.old) (λ image. IsScanned gate (area_of image area)
        × HasNone (drop gate (area_of image area)))) }
    ensures inside { IfOk result (λ gate. gate < end) }
    ensures not_a_log { IsErrOf result NotALog → Told (S.view store.old) (λ image. IsNoLog (area_of image area)) }
    ensures calm { Calm (S.view store.old) (S.view store.new) }
    ensures cause { HasLogCause (S.view store.old).faults (S.view store.new).faults result }
    ensures memory { IsErrOf result LogFault.Memory → ⊥ }
{
    let mut at = 0;
    loop {
        match next(store, area, at, end)? {
            Some(gate) => at = gate,
            None => return Ok(at),
        }
    }
}

/// Finds the log of an area. An empty area is blanked first, for which the call itself takes the store's room. An
/// area is a log, with its bodies in their order, or it is `NotALog`. It doesn't sync: where some image may have
/// another gate open, sync the area first, and the log that is found is ready for an append.
///
/// # Errors
/// `NotALog` where the area isn't of the log's grammar, `StoreFault`, and `Memory` for the room of the blanking.
/// Nothing is written at `NotALog` and `Memory`; at `StoreFault` an empty area may be blank.
pub fn find<S: Store>(store: &mut S, area: u32) -> Result<Log, LogFault>
    requires { area < 3 }
    ensures area { IfOk result (λ log. log.area ≡ area) }
    ensures found { IfOk result (λ log. Told (S.view store.old) (λ before. Told (S.view store.new) (λ after.
        (bodies : List (List ℕ)) → IsLog bodies (area_of before area) → EndsAt bodies log.end (area_of after area)))) }
    ensures a_log { OnOk result (Told (S.view store.old) (λ image. (bodies : List (List ℕ))
        × IsLog bodies (area_of image area))) }
    ensures not_a_log { IsErrOf result NotALog → Told (S.view store.old) (λ image. IsNoLog (area_of image area)) }

    // A log that is settled stays so, and an empty area becomes a settled log without a body.
    ensures settled { (bodies : List (List ℕ)) (end : ℕ) → IsSettled area bodies end (S.view store.old)
        → IfOk result (λ log. (log.end ≡ end) × IsSettled area bodies end (S.view store.new)) }
    ensures begun { IsTrue (S.view store.old).is_honest → Told (S.view store.old) (λ image. area_of image area ≡ []
        → IfOk result (λ log. (log.end ≡ 0) × IsSettled area [] 0 (S.view store.new))) }

    // Where a crash leaves what is read, the log can be appended to.
    ensures ready { IsSynced area (S.view store.old) → IfOk result (λ log. IsReady log.area log.end
        (S.view store.new)) }

    ensures unwritten { Told (S.view store.old) (λ image. 1 ≤ length (area_of image area)
        → Calm (S.view store.old) (S.view store.new)) }
    ensures elsewhere { ReadsElsewhere area (S.view store.old) (S.view store.new) }
    ensures spends { Spends 1 0 (S.view store.old) (S.view store.new) }
    ensures any_moment { Leaves (Blanked area) (S.view store.old) (S.view store.new) }
    ensures cause { HasLogCause (S.view store.old).faults (S.view store.new).faults result }
    ensures refused { IsErrOf result NotALog → Calm (S.view store.old) (S.view store.new) }
    ensures short_of_memory { IsErrOf result LogFault.Memory → Calm (S.view store.old) (S.view store.new) }
    ensures memory { IsErrOf result LogFault.Memory → (S.view store.old).spare_calls < 1 }
{
    let length = store.length(area)?;
    if length == 0 {
        store.room(1, 0)?;
        return reset(store, area);
    }
    let end = closed_gate(store, area, length)?;
    Ok(Log { area, end })
}
