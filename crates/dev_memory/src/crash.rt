ghost use Rattle.std.specs.Prelude.{◌≡◌, ◌+◌, ◌*◌, ◌^◌, ◌<◌, ◌≤◌, ℕ, List, [], ◌∷◌, ◌⊎◌, true, false, length, take};
ghost use Rattle.std.specs.Prelude.{IfOk, OnOk, IsTrue};
ghost use Rattle.dev_traits.specs.Image.{Torn};
ghost use Rattle.dev_memory.specs.Disk.{AreaDisk, at_rest, can_write, wrote, deeds, written};
ghost use Rattle.dev_memory.specs.Crash.{size_of, deed_of, is_on, on_area, one_after, one_replay, settles, IsAtRest};
ghost use Rattle.dev_memory.specs.Crash.{IsLeft, Remains, Left};

use crate::area::{Area, is_within};
use crate::call::Call;
use dev_traits::Memory;
use pk_values::Octets;
use std::alloc::Global;

/// What a crash leaves of a write, or of a blanking that failed.
#[derive(Clone, Copy, PartialEq, Eq)]
pub enum Trace {
    /// What is read: all of what is done, and nothing of what failed.
    Read,
    /// Nothing.
    Lost,
    /// The old bytes, and zeros past the old end.
    Longer,
    /// The first half of the write.
    Front,
    /// The second half of the write, and before it as `Longer`.
    Back,
    /// All of it, also where it failed.
    Whole,
    /// The write with each bit turned.
    Turned,
    /// The bits of the old bytes turned, and zeros past the old end.
    Spoilt,
}

// A pick below 8 does the same everywhere; another has a digit for each call in turn.
fn digit(pick: u64, area: u32, number: usize) -> u64
    requires { area < 3 }
    ensures { pick ≡ 1 → result ≡ 1 }
{
    if pick < 8 {
        return pick;
    }
    let place = (number % 21 + area as usize) % 21;
    (pick >> (3 * place)) % 8
}

fn trace_of(pick: u64, area: u32, number: usize) -> Trace
    requires { area < 3 }
    ensures { pick ≡ 1 → result ≡ Trace.Lost }
{
    match digit(pick, area, number) {
        0 => Trace::Read,
        1 => Trace::Lost,
        2 => Trace::Longer,
        3 => Trace::Front,
        4 => Trace::Back,
        5 => Trace::Whole,
        6 => Trace::Turned,
        _ => Trace::Spoilt,
    }
}

// So many of the old bytes, with zeros past their end.
fn padded(alloc: Global, old: &[u8], size: usize) -> Result<Vec<u8>, Memory>
    ensures { IfOk result (λ bytes. length bytes.items ≡ size) }
{
    let mut bytes = Vec::from_slice(alloc, &old[..size.min(old.len())])?;
    bytes.resize(size, 0)?;
    Ok(bytes)
}

fn turned(alloc: Global, bytes: &[u8]) -> Result<Vec<u8>, Memory>
    ensures { IfOk result (λ all. length all.items ≡ length bytes.now) }
{
    bytes.iter().map(|byte| 255 - *byte).collect(alloc)
}

// The second half of a piece, and the old bytes before it.
fn back(alloc: Global, old: &[u8], piece: &[u8]) -> Result<Vec<u8>, Memory>
    ensures { IfOk result (λ bytes. length bytes.items ≡ length piece.now) }
{
    let half = piece.len() / 2;
    let mut bytes = padded(alloc, old, half)?;
    bytes.extend_from_slice(&piece[half..])?;
    Ok(bytes)
}

// The bytes that a crash leaves of a piece over old bytes: no more than the piece has.
fn torn(
    alloc: Global,
    old: &[u8],
    piece: &[u8],
    done: bool,
    trace: Trace,
) -> Result<Vec<u8>, Memory>
    ensures { IfOk result (λ bytes. length bytes.items ≤ length piece.now) }
{
    let size = piece.len();
    match trace {
        Trace::Read if done => Vec::from_slice(alloc, piece),
        Trace::Read | Trace::Lost => Ok(Vec::new(alloc)),
        Trace::Longer => padded(alloc, old, size),
        Trace::Front => Vec::from_slice(alloc, &piece[..size / 2]),
        Trace::Back => back(alloc, old, piece),
        Trace::Whole => Vec::from_slice(alloc, piece),
        Trace::Turned => turned(alloc, piece),
        Trace::Spoilt => turned(alloc, &padded(alloc, old, size)?),
    }
}

// Leaves of a write what a trace says. Where what is left ends before it, nothing of it can be there.
fn tear(
    alloc: Global,
    left: &mut Area,
    at: u64,
    piece: &[u8],
    done: bool,
    trace: Trace,
) -> Result<(), Memory>
    requires { at + length piece.now ≤ 2 ^ 44 }
    ensures torn { OnOk result (Torn at (length piece.now) left.old.bytes left.new.bytes) }
    ensures lost { trace ≡ Trace.Lost → left.new.bytes ≡ left.old.bytes }
{
    if trace == Trace::Lost || at > left.as_slice().len() as u64 {
        return Ok(());
    }
    let start = at as usize;
    let bytes = torn(alloc, &left.as_slice()[start..], piece, done, trace)?;
    left.overwrite(start, &bytes)
}

fn may_write(at: u64, piece: &[u8], bytes: &[u8]) -> bool
    ensures can { result ≡ can_write at (length piece.now) bytes.now }
    ensures inside { IsTrue result → at ≤ length bytes.now }
    ensures short { IsTrue result → at + length piece.now ≤ 2 ^ 44 }
{
    1 <= bytes.len() && at <= bytes.len() as u64 && is_within(at, piece)
}

// A write, as it reads after it.
fn read_write(bytes: &mut Area, at: u64, piece: &[u8], done: bool) -> Result<(), Memory>
    ensures { OnOk result ((d : AreaDisk) → d.bytes ≡ bytes.old.bytes
        → (wrote at piece.now done d).bytes ≡ bytes.new.bytes) }
{
    if !done || !may_write(at, piece, bytes.as_slice()) {
        return Ok(());
    }
    bytes.overwrite(at as usize, piece)
}

// A call on the area, as it reads after it.
fn read_own(bytes: &mut Area, call: &Call, piece: &[u8]) -> Result<(), Memory>
    ensures { OnOk result ((d : AreaDisk) → d.bytes ≡ bytes.old.bytes
        → (on_area (deed_of piece.now call.now) d).bytes ≡ bytes.new.bytes) }
{
    match *call {
        Call::Write(_, at, _, done) => read_write(bytes, at, piece, done),
        Call::Blank(_, true) => {
            bytes.blank();
            Ok(())
        }
        _ => Ok(()),
    }
}

fn is_own(call: &Call, area: u32) -> bool
    ensures { (piece : List ℕ) → result ≡ is_on area (deed_of piece call.now) }
{
    match *call {
        Call::Write(on, _, _, _) => on == area,
        Call::Sync(on) => on == area,
        Call::Blank(on, _) => on == area,
        Call::OnFiles => false,
    }
}

// A call, of whatever area, as an area reads after it.
fn read_on(bytes: &mut Area, call: &Call, area: u32, piece: &[u8]) -> Result<(), Memory>
    ensures { OnOk result ((d : AreaDisk) → d.bytes ≡ bytes.old.bytes
        → (one_after area (deed_of piece.now call.now) d).bytes ≡ bytes.new.bytes) }
{
    if !is_own(call, area) {
        return Ok(());
    }
    read_own(bytes, call, piece)
}

// A write, as a crash leaves it.
fn leave_write(
    alloc: Global,
    left: &mut Area,
    bytes: &Area,
    at: u64,
    piece: &[u8],
    done: bool,
    trace: Trace,
) -> Result<(), Memory>
    ensures torn { OnOk result (can_write at (length piece.now) bytes.now.bytes ≡ true
        → Torn at (length piece.now) left.old.bytes left.new.bytes) }
    ensures same { can_write at (length piece.now) bytes.now.bytes ≡ false → left.new.bytes ≡ left.old.bytes }
    ensures lost { trace ≡ Trace.Lost → left.new.bytes ≡ left.old.bytes }
{
    if !may_write(at, piece, bytes.as_slice()) {
        return Ok(());
    }
    tear(alloc, left, at, piece, done, trace)
}

// A blanking that failed, as a crash leaves it.
fn leave_blank(left: &mut Area, trace: Trace)
    ensures either { (left.new.bytes ≡ left.old.bytes) ⊎ (left.new.bytes ≡ 0 ∷ []) }
    ensures lost { trace ≡ Trace.Lost → left.new.bytes ≡ left.old.bytes }
{
    if trace == Trace::Whole || trace == Trace::Turned {
        left.blank();
    }
}

// A call on the area, as a crash leaves it.
fn leave_own(
    alloc: Global,
    left: &mut Area,
    bytes: &Area,
    call: &Call,
    piece: &[u8],
    trace: Trace,
) -> Result<(), Memory>
    ensures reaches { OnOk result ((d : AreaDisk) → d.bytes ≡ bytes.now.bytes → IsLeft d left.old.bytes
        → IsLeft (on_area (deed_of piece.now call.now) d) left.new.bytes) }
    ensures lost { OnOk result ((d : AreaDisk) → d.bytes ≡ bytes.now.bytes → trace ≡ Trace.Lost
        → left.old.bytes ≡ d.base → left.new.bytes ≡ (on_area (deed_of piece.now call.now) d).base) }
{
    match *call {
        Call::Write(_, at, _, done) => leave_write(alloc, left, bytes, at, piece, done, trace),
        Call::Sync(_) => {
            *left = Area::from_slice(alloc, bytes.as_slice())?;
            Ok(())
        }
        Call::Blank(_, true) => {
            left.blank();
            Ok(())
        }
        Call::Blank(_, false) => {
            leave_blank(left, trace);
            Ok(())
        }
        Call::OnFiles => Ok(()),
    }
}

// A call, of whatever area, as an area reads after it and as a crash leaves it.
fn leave_on(
    alloc: Global,
    left: &mut Area,
    bytes: &mut Area,
    call: &Call,
    area: u32,
    piece: &[u8],
    pick: u64,
    number: usize,
) -> Result<(), Memory>
    requires { area < 3 }
    ensures { OnOk result ((d : AreaDisk) → Remains pick d bytes.old.bytes left.old.bytes
        → Remains pick (one_after area (deed_of piece.now call.now) d) bytes.new.bytes left.new.bytes) }
{
    if !is_own(call, area) {
        return Ok(());
    }
    let trace = trace_of(pick, area, number);
    leave_own(alloc, left, bytes, call, piece, trace)?;
    read_own(bytes, call, piece)
}

// The bytes of a call, of those of the calls from it on.
fn piece_of<'a>(call: &Call, pieces: &'a [u8]) -> &'a [u8]
    requires { size_of call.now ≤ length pieces.now }
    ensures { result.now ≡ take (size_of call.now) pieces.now }
{
    match *call {
        Call::Write(_, _, size, _) => &pieces[..size],
        _ => &pieces[..0],
    }
}

fn does_settle(call: &Call, area: u32) -> bool
    ensures { result ≡ settles area call.now }
{
    match *call {
        Call::Sync(on) => on == area,
        Call::Blank(on, done) => done && on == area,
        _ => false,
    }
}

// How many calls there are up to the last one after which the area was at rest.
fn last_rest(calls: &[Call], area: u32) -> usize
    ensures within { result ≤ length calls.now }
    ensures rests { (pieces : List ℕ) (d : AreaDisk) → IsAtRest d
        → IsAtRest (one_replay area (deeds pieces (take result calls.now)) d) }
{
    let mut count = 0;
    for i in 0..calls.len() {
        let call = &calls[i];
        if does_settle(call, area) {
            count = i + 1;
        }
    }
    count
}

// Some calls, as an area reads after them. It tells how many bytes they wrote.
fn replay(bytes: &mut Area, calls: &[Call], pieces: &[u8], area: u32) -> Result<usize, Memory>
    requires { written calls.now ≤ length pieces.now }
    ensures size { IfOk result (λ size. size ≡ written calls.now) }
    ensures reads { OnOk result ((d : AreaDisk) → d.bytes ≡ bytes.old.bytes
        → (one_replay area (deeds pieces.now calls.now) d).bytes ≡ bytes.new.bytes) }
{
    let mut at = 0;
    for i in 0..calls.len() {
        let call = &calls[i];
        let piece = piece_of(call, &pieces[at..]);
        read_on(bytes, call, area, piece)?;
        at += piece.len();
    }
    Ok(at)
}

// Some calls, as an area reads after them and as a crash leaves it.
fn leave_all(
    alloc: Global,
    left: &mut Area,
    bytes: &mut Area,
    calls: &[Call],
    pieces: &[u8],
    area: u32,
    pick: u64,
) -> Result<(), Memory>
    requires fits { written calls.now ≤ length pieces.now }
    requires there { area < 3 }
    ensures { OnOk result ((d : AreaDisk) → Remains pick d bytes.old.bytes left.old.bytes
        → Remains pick (one_replay area (deeds pieces.now calls.now) d) bytes.new.bytes left.new.bytes) }
{
    let mut at = 0;
    for i in 0..calls.len() {
        let call = &calls[i];
        let piece = piece_of(call, &pieces[at..]);
        leave_on(alloc, left, bytes, call, area, piece, pick, i)?;
        at += piece.len();
    }
    Ok(())
}

/// What a crash may leave of an area, by number.
pub fn area_left(
    alloc: Global,
    start: &[u8],
    calls: &[Call],
    pieces: &[u8],
    area: u32,
    pick: u64,
) -> Result<Octets, Memory>
    requires fits { written calls.now ≤ length pieces.now }
    requires there { area < 3 }
    requires crash { 1 ≤ pick }
    requires short { length start.now ≤ 2 ^ 44 }
    ensures left { IfOk result (λ left. Left pick (one_replay area (deeds pieces.now calls.now)
        (at_rest start.now)) left) }
    ensures short { IfOk result (λ left. length left ≤ 2 ^ 44) }
{
    let (early, late) = calls.split_at(last_rest(calls, area));
    let mut bytes = Area::from_slice(alloc, start)?;
    let at = replay(&mut bytes, early, pieces, area)?;
    let mut left = Area::from_slice(alloc, bytes.as_slice())?;
    leave_all(
        alloc,
        &mut left,
        &mut bytes,
        late,
        &pieces[at..],
        area,
        pick,
    )?;
    Octets::from_vec(alloc, left.into_vec())
}
