ghost use Rattle.std.specs.Prelude.{◌+◌, ◌<◌, ◌^◌};

/// The files of a rowset, which have consecutive numbers.
#[derive(Clone, Copy, Debug, Drop)]
pub struct Span {
    /// The number of the first file.
    pub first: u64,
    /// How many files there are.
    pub count: u64,
    ghost short: { first + count < 2 ^ 63 },
}
