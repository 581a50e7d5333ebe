use crate::entries::Pair;
use crate::files::FileLevel;
use dev_traits::{ReadFault, SealedReader};
use index_file::IndexFile;
use index_level0::Place;
use std::alloc::Global;

impl<R: SealedReader> FileLevel for IndexFile<R> {
    ghost use Rattle.index_file.specs.Damages.{IsDamageAt, IsFileDamage};
    ghost use Rattle.index_file.specs.Entries.{HasLevel};
    ghost use Rattle.index_file.specs.Listing.{HasEntry, ReadsAs};

    ghost has_level = { λ f level. HasLevel f.base f.footer (R.view f.reader) level };

    ghost has_entry = { λ f key entry. HasEntry f.base f.footer (R.view f.reader) key entry };

    ghost reads_as = { λ f level. ReadsAs f.base f.footer (R.view f.reader) level };

    ghost damaged_at = { λ f key shown. IsDamageAt f.base f.footer f.number (R.view f.reader) key shown };

    ghost damaged = { λ f shown. IsFileDamage f.base f.footer f.number (R.view f.reader) shown };

    ghost reads = { λ f. (R.view f.reader).reads };

    ghost faults = { λ f. (R.view f.reader).faults };

    ghost named = { λ f. (f.number, f.base) };

    fn number(&self) -> u64 {
        self.number()
    }

    fn base(&self) -> u64 {
        self.base()
    }

    fn faults(&self) -> u64 {
        self.faults()
    }

    fn probe(&mut self, alloc: Global, key: &[u8]) -> Result<Option<Option<Place>>, ReadFault> {
        index_file::probe(alloc, self, key)
    }

    fn entries(&mut self, alloc: Global) -> Result<Vec<Pair>, ReadFault> {
        index_file::entries(alloc, self)
    }
}
