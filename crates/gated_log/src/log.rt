ghost use Rattle.std.specs.Prelude.{◌≡◌, ◌+◌, ◌^◌, ◌<◌, ◌≤◌, ◌∷◌, [], ◌++◌, ℕ, List, length, OnOk, IfOk, IfErr, OnErr};
ghost use Rattle.dev_traits.specs.Causes.{HasCause};
ghost use Rattle.dev_traits.specs.Image.{area_of, overwritten, Blanked};
ghost use Rattle.dev_traits.specs.View.{Told, EachImage, Leaves, Spends, ReadsElsewhere};
ghost use Rattle.gated_log.specs.Log.{frame, EndsAt, IsSettled, IsReady, Appends};

use crate::{Framed, LogFault};
use dev_traits::Store;

/// An open gate. Every other byte is a closed one.
pub(crate) const OPEN: u8 = 0xa5;

/// The log of an area, with the place of its closed gate.
#[derive(Drop)]
pub struct Log {
    /// The area, from 0 to 2.
    pub area: u32,
    /// The place of the closed gate, in bytes from the area's begin.
    pub end: u64,
    ghost in_range: { area < 3 },
    ghost no_longer: { end ≤ 2 ^ 44 },
}

/// Adds a body, by four device calls: the length, the body and a closed gate are written behind the log's closed gate
/// and synced; then the gate is opened and synced. The store has room for them and for `Framed::room` bytes. At `Ok`
/// each crash from then on leaves the body.
///
/// # Errors
/// `StoreFault`. A crash may then leave the area with the body or without, and so may a read, so the log isn't ready
/// for another append before its area was synced and it was found again: over a gate that is open in some image
/// alone, an append could leave bytes that are no log.
pub fn append<S: Store>(store: &mut S, log: &mut Log, piece: &Framed) -> Result<(), LogFault>
    requires calls { 4 ≤ (S.view store.old).spare_calls }
    requires bytes { length piece.now + 10 ≤ (S.view store.old).spare_bytes }
    requires log { Told (S.view store.old) (λ image. (bodies : List (List ℕ))
        × EndsAt bodies log.old.end (area_of image log.old.area)) }

    requires ready { IsReady log.old.area log.old.end (S.view store.old) }

    ensures appended { OnOk result (Told (S.view store.old) (λ before. Told (S.view store.new) (λ after.
        (bodies : List (List ℕ)) → EndsAt bodies log.old.end (area_of before log.old.area)
        → EndsAt (bodies ++ piece.now ∷ []) log.new.end (area_of after log.new.area)))) }

    // The gate, the length, the body and a closed gate stand over what was there, and all else is as it was.
    ensures written { OnOk result (Told (S.view store.old) (λ before. Told (S.view store.new) (λ after.
        area_of after log.old.area ≡ overwritten (area_of before log.old.area) log.old.end
        (165 ∷ frame piece.now ++ 0 ∷ [])))) }

    // A crash at any moment of the call leaves the bodies from before it, with the new one or without.
    ensures any_moment { (bodies : List (List ℕ)) → IsSettled log.old.area bodies log.old.end (S.view store.old)
        → Leaves (Appends log.old.area bodies piece.now) (S.view store.old) (S.view store.new) }

    ensures acknowledged { OnOk result ((bodies : List (List ℕ))
        → IsSettled log.old.area bodies log.old.end (S.view store.old)
        → IsSettled log.new.area (bodies ++ piece.now ∷ []) log.new.end (S.view store.new)) }

    // A crash then leaves what is read.
    ensures durable { OnOk result (Told (S.view store.new) (λ after. EachImage (S.view store.new)
        (λ left. area_of left log.new.area ≡ area_of after log.new.area))) }

    ensures elsewhere { ReadsElsewhere log.old.area (S.view store.old) (S.view store.new) }
    ensures end { OnOk result (log.new.end ≡ log.old.end + 9 + length piece.now) }
    ensures unmoved { OnErr result (log.new.end ≡ log.old.end) }
    ensures spends { Spends 4 (length piece.now + 10) (S.view store.old) (S.view store.new) }
    ensures area { log.new.area ≡ log.old.area }
    ensures only { IfErr result (λ e. e ≡ LogFault.StoreFault) }
    ensures cause { HasCause (S.view store.old).faults (S.view store.new).faults result }
{
    let area = log.area;
    let gate = log.end;
    let bytes = piece.bytes();
    store.write_at(area, gate + 1, bytes)?;
    store.sync(area)?;
    store.write_at(area, gate, &[OPEN])?;
    store.sync(area)?;
    log.end = gate + bytes.len() as u64;
    Ok(())
}

/// Empties the log of an area, by one device call, `blank`, for which the store has room.
///
/// # Errors
/// `StoreFault`. A crash then leaves what it might have left before, or the empty log.
pub fn reset<S: Store>(store: &mut S, area: u32) -> Result<Log, LogFault>
    requires there { area < 3 }
    requires calls { 1 ≤ (S.view store.old).spare_calls }
    ensures log { IfOk result (λ log. (log.area ≡ area) × (log.end ≡ 0)) }
    ensures none { OnOk result (Told (S.view store.new) (λ image. EndsAt [] 0 (area_of image area))) }
    ensures durable { OnOk result (EachImage (S.view store.new) (λ left. EndsAt [] 0 (area_of left area))) }
    ensures elsewhere { ReadsElsewhere area (S.view store.old) (S.view store.new) }
    ensures spends { Spends 1 0 (S.view store.old) (S.view store.new) }
    ensures any_moment { Leaves (Blanked area) (S.view store.old) (S.view store.new) }
    ensures only { IfErr result (λ e. e ≡ LogFault.StoreFault) }
    ensures cause { HasCause (S.view store.old).faults (S.view store.new).faults result }
{
    store.blank(area)?;
    Ok(Log { area, end: 0 })
}
