use pk_values::Items;

/// Where a bucket stands in its file.
#[derive(Clone, Copy, Debug)]
pub struct BucketMark {
    /// The place of its first byte, counted from 0.
    pub(crate) place: u64,
    /// How many bytes it has, but for the 32 of its digest.
    pub(crate) length: u64,
}

/// The footer of an index file: how many entries it has, and where each bucket stands.
#[derive(Drop)]
pub struct IndexFooter {
    pub(crate) entries: u64,
    pub(crate) buckets: Items<BucketMark>,
}

impl IndexFooter {
    ghost use Rattle.std.specs.Prelude.{◌≡◌, ◌<◌, Some, length, slice_get};

    /// Where bucket `b` stands, counted from 0.
    pub(crate) fn mark(&self, b: usize) -> BucketMark
        requires { b < length self.now.buckets }
        ensures { slice_get self.now.buckets b ≡ Some result }
    {
        self.buckets.as_slice()[b]
    }
}
