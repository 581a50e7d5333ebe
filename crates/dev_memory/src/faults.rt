ghost use Rattle.std.specs.Prelude.{◌≡◌, ◌≤◌, ◌+◌, ◌-◌, ◌^◌, ℕ, [], min, Option, Some, None, IsTrue, IsFalse};
ghost use Rattle.dev_traits.specs.Causes.{Counts};
ghost use Rattle.dev_memory.specs.Strikes.{IsStruck};

use std::alloc::Global;
use std::sync::Arc;

/// Which calls fail, by their numbers from 1, in any order. A call that can't answer a fault has no number.
#[derive(Drop)]
pub struct Faults {
    /// Calls of the store.
    pub store: Vec<u64>,
    /// Calls of each maker.
    pub maker: Vec<u64>,
    /// Calls of each reader.
    pub reader: Vec<u64>,
    /// The number of the store's call from which on each fails.
    pub stop: Option<u64>,
}

impl Faults {
    /// No call fails.
    pub fn none(alloc: Global) -> Faults
        ensures store { result.store.items ≡ [] }
        ensures maker { result.maker.items ≡ [] }
        ensures reader { result.reader.items ≡ [] }
        ensures stop { result.stop ≡ None }
    {
        Faults {
            store: Vec::new(alloc),
            maker: Vec::new(alloc),
            reader: Vec::new(alloc),
            stop: None,
        }
    }
}

/// A list of calls that fail, with several owners.
pub(crate) type Listed = Arc<Vec<u64>, Global>;

// The number from which every call fails was reached.
fn is_past(stop: Option<u64>, number: u64) -> bool
    ensures past { (first : ℕ) → stop ≡ Some first → first ≤ number → IsTrue result }
    ensures only { IsTrue result → (first : ℕ) × (stop ≡ Some first) × (first ≤ number) }
{
    match stop {
        Some(first) => first <= number,
        None => false,
    }
}

/// Counts a call, and tells whether it is to fail. Its fault is then counted.
pub(crate) fn strikes(fails: &[u64], stop: Option<u64>, count: &mut u64, faults: &mut u64) -> bool
    ensures counted { count.new ≡ min (count.old + 1) (2 ^ 64 - 1) }
    ensures only { IsTrue result → IsStruck fails.now stop count.new }
    ensures all { IsStruck fails.now stop count.new → IsTrue result }
    ensures counts { IsTrue result → Counts 1 faults.old faults.new }
    ensures same { IsFalse result → faults.new ≡ faults.old }
{
    *count = count.saturating_add(1);
    let strikes = fails.contains(count) || is_past(stop, *count);
    if strikes {
        *faults = faults.saturating_add(1);
    }
    strikes
}
