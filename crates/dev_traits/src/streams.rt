ghost use Rattle.std.specs.Prelude.{◌≡◌, ◌<◌, ◌≤◌, ℕ, List, Option, length};
ghost use Rattle.dev_traits.specs.Streams.{Files, Asks, Takes, TakeWithin, TakeCause, AskCause, Puts, PutWithin};
ghost use Rattle.dev_traits.specs.Streams.{PutCause};
ghost use Rattle.dev_traits.specs.Causes.{Counts};
ghost use Rattle.dev_traits.specs.declared.streams.Taken.TheVariants as taken;
ghost use Rattle.dev_traits.specs.declared.streams.Put.TheVariants as put_;
ghost use Rattle.dev_traits.specs.declared.streams.Asked.TheVariants as asked;

use std::alloc::Global;

/// What asking for an input by name gives.
#[derive(Drop)]
pub enum Asked<X> {
    /// A source at the first byte of the input.
    Got(X),
    /// There is no input of that name.
    Absent,
    /// The inputs failed, and counted it.
    Failed,
    /// Out of memory.
    Memory,
}

/// What a read gives.
#[derive(Clone, Copy)]
pub enum Taken {
    /// So many bytes stand at the front of the buffer, at least one.
    Bytes(usize),
    /// No byte is left.
    End,
    /// The source failed, and counted it. No byte was taken.
    Failed,
}

/// What a write gives.
#[derive(Clone, Copy)]
pub enum Put {
    /// So many bytes from the front of the piece were taken, at least one.
    Took(usize),
    /// The sink failed, and counted it. No byte was taken.
    Failed,
}

/// A stream of bytes that is read to its end. It isn't `Drop`: whoever asked for a source gives it back on every
/// path, so that its faults are counted.
pub trait Source {
    /// The bytes that are left, where the source tells them.
    ghost left: { Self → Option (List ℕ) };

    /// How many reads failed.
    ghost faults: { Self → ℕ };

    /// Reads some of the bytes that are left into the front of a buffer that isn't empty.
    fn take(&mut self, into: &mut [u8]) -> Taken
        requires { 0 < length into.old }
        ensures within { TakeWithin (length into.old) result }
        ensures bytes { Takes (left self.old) (left self.new) into.new result }
        ensures cause { TakeCause (faults self.old) (faults self.new) result };
}

/// Inputs by name.
pub trait Inputs {
    type Src: Source;

    /// The inputs that are held, where this tells them.
    ghost files: { Self → Option Files };

    /// How many asks and reads failed.
    ghost faults: { Self → ℕ };

    /// A source of the input under a name.
    fn ask(&mut self, alloc: Global, name: &str) -> Asked<Self::Src>
        ensures same { files self.new ≡ files self.old }
        ensures found { Asks Self.Src.left Self.Src.faults (files self.old) name.now result }
        ensures cause { AskCause (faults self.old) (faults self.new) result };

    /// Takes back a source that is done with, and counts its faults.
    fn give_back(&mut self, src: Self::Src)
        ensures same { files self.new ≡ files self.old }
        ensures counts { Counts (Self.Src.faults src) (faults self.old) (faults self.new) };
}

/// A stream of bytes that is written.
pub trait Sink {
    /// The bytes that were put, where the sink tells them.
    ghost held: { Self → Option (List ℕ) };

    /// How many writes failed.
    ghost faults: { Self → ℕ };

    /// Writes some bytes from the front of a piece that isn't empty.
    fn put(&mut self, piece: &[u8]) -> Put
        requires { 0 < length piece.now }
        ensures within { PutWithin (length piece.now) result }
        ensures bytes { Puts (held self.old) (held self.new) piece.now result }
        ensures cause { PutCause (faults self.old) (faults self.new) result };
}
