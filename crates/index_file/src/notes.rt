ghost use Rattle.std.specs.Prelude.{◌≡◌, [], false, get_or};
ghost use Rattle.index_file.specs.Wholes.{AddsNote};

use std::alloc::Global;
use std::marker::Model;

/// Which buckets of a file were found whole, counted from 0. Contracts see a flag for each. The first note takes memory for all
/// of them; while there is none, nothing is noted.
#[derive(Drop)]
pub struct Notes {
    flags: Option<Vec<bool>>,
}

impl Model for Notes {
    ghost use Rattle.std.specs.Prelude.{Bool, List};
    ghost use Rattle.std.specs.Coded.{coded_bool, coded_list};
    ghost use Rattle.std.specs.Option.{option_map};
    ghost use Rattle.index_file.specs.Wholes.{flags_of};

    ghost Value = { List Bool };

    ghost coded = { coded_list coded_bool };

    ghost view = { λ n. flags_of (option_map (λ flags. flags.items) n.flags) };
}

impl Notes {
    /// No note. It takes no memory.
    pub(crate) fn none() -> Notes
        ensures { result ≡ [] }
    {
        Notes { flags: None }
    }

    /// Whether bucket `b` has a note.
    pub(crate) fn has(&self, b: usize) -> bool
        ensures { result ≡ get_or self.now b false }
    {
        match &self.flags {
            Some(flags) => flags.get(b).copied().unwrap_or(false),
            None => false,
        }
    }

    /// Notes bucket `b` of so many, unless memory is wanted.
    pub(crate) fn add(&mut self, alloc: Global, b: usize, buckets: usize)
        ensures { AddsNote b self.old self.new }
    {
        if self.flags.is_none() {
            self.flags = vec![in alloc; false; buckets].ok();
        }
        if let Some(flags) = &mut self.flags {
            if b < flags.len() {
                flags[b] = true;
            }
        }
    }
}
