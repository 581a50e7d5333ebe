ghost use Rattle.std.specs.Prelude.{◌≡◌, ◌++◌, ◌<◌, ◌^◌, IfOk, IfErr, OnOk, OnErr, vec_len};
ghost use Rattle.tablet_run.specs.Streams.{HeldAfter, FailsAfter, ReadCause, ReadsAll, StopsReading, Holds, StopsInput};
ghost use Rattle.dev_traits.specs.Causes.{HasCause};

use dev_traits::{Asked, Failed, Inputs, Put, Sink, Source, Taken};
use std::alloc::Global;

/// Why an input was not read.
#[derive(Clone, Copy)]
pub enum InputStop {
    /// There is no input of that name.
    Missing,
    /// An ask or a read failed, and counted it.
    Fault,
    /// It has more bytes than it may have: so many, and maybe more.
    TooLarge { bytes: u64 },
    /// Memory was wanting.
    Memory,
}

// How many bytes are asked for at once.
const PIECE: usize = 65_536;

// Room for the bytes of one read.
fn make_piece(alloc: Global) -> Result<Vec<u8>, InputStop>
    ensures room { IfOk result (λ piece. 0 < vec_len piece) }
    ensures memory { IfErr result (λ stop. stop ≡ InputStop.Memory) }
{
    match vec![in alloc; 0u8; PIECE] {
        Ok(piece) => Ok(piece),
        Err(_) => Err(InputStop::Memory),
    }
}

// Appends a piece.
fn append(bytes: &mut Vec<u8>, piece: &[u8]) -> Result<(), InputStop>
    ensures added { OnOk result (bytes.new.items ≡ bytes.old.items ++ piece.now) }
    ensures memory { IfErr result (λ stop. stop ≡ InputStop.Memory) }
{
    match bytes.extend_from_slice(piece) {
        Ok(()) => Ok(()),
        Err(_) => Err(InputStop::Memory),
    }
}

// Reads a source to its end, where it has at most so many bytes.
fn read_source<S: Source>(alloc: Global, src: &mut S, most: usize) -> Result<Vec<u8>, InputStop>
    requires { most < 2 ^ 32 }
    ensures read { IfOk result (λ bytes. ReadsAll most (S.left src.old) bytes.items) }
    ensures stopped { IfErr result (StopsReading most (S.left src.old)) }
    ensures cause { ReadCause (S.faults src.old) (S.faults src.new) result }
{
    let mut piece = make_piece(alloc)?;
    let mut bytes = Vec::new(alloc);
    while bytes.len() <= most {
        match src.take(&mut piece) {
            Taken::Bytes(count) => append(&mut bytes, &piece[..count])?,
            Taken::End => return Ok(bytes),
            Taken::Failed => return Err(InputStop::Fault),
        }
    }
    Err(InputStop::TooLarge {
        bytes: most as u64 + 1,
    })
}

/// Reads an input whole, where it has at most so many bytes. Its source is given back whatever came.
pub fn read_input<I: Inputs>(
    alloc: Global,
    inputs: &mut I,
    name: &str,
    most: usize,
) -> Result<Vec<u8>, InputStop>
    requires { most < 2 ^ 32 }
    ensures same { I.files inputs.new ≡ I.files inputs.old }
    ensures read { IfOk result (λ bytes. Holds (I.files inputs.old) name.now most bytes.items) }
    ensures stopped { IfErr result (StopsInput (I.files inputs.old) name.now most) }
    ensures cause { ReadCause (I.faults inputs.old) (I.faults inputs.new) result }
{
    match inputs.ask(alloc, name) {
        Asked::Got(mut src) => {
            let read = read_source(alloc, &mut src, most);
            inputs.give_back(src);
            read
        }
        Asked::Absent => Err(InputStop::Missing),
        Asked::Failed => Err(InputStop::Fault),
        Asked::Memory => Err(InputStop::Memory),
    }
}

/// Puts a text into a sink. Where that fails, a part of the text from its front stands there.
pub fn put_whole<O: Sink>(out: &mut O, text: &[u8]) -> Result<(), Failed>
    ensures put { OnOk result (HeldAfter (O.held out.old) (O.held out.new) text.now) }
    ensures part { OnErr result (FailsAfter (O.held out.old) (O.held out.new) text.now) }
    ensures cause { HasCause (O.faults out.old) (O.faults out.new) result }
{
    let mut at = 0;
    while at < text.len() {
        match out.put(&text[at..]) {
            Put::Took(count) => at += count,
            Put::Failed => return Err(Failed),
        }
    }
    Ok(())
}
