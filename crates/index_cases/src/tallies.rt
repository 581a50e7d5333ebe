use crate::texts::{fault_text, pairs_text};
use dev_traits::{Part, ReadFault, Shown};
use pk_index::Pair;
use std::alloc::{AllocError, Global};

/// How often what was read of a file was damage, by its part and how it showed, the same as before, or something else.
#[derive(Drop)]
pub struct Tally {
    before: String,
    footer_digests: u64,
    footer_form: u64,
    bucket_digests: u64,
    bucket_form: u64,
    same: u64,
    other: u64,
}

fn text_of(alloc: Global, read: &Result<Vec<Pair>, ReadFault>) -> Result<String, AllocError> {
    match read {
        Ok(entries) => pairs_text(alloc, entries),
        Err(fault) => fault_text(alloc, fault),
    }
}

impl Tally {
    /// A tally of what is the same as this.
    pub fn new(alloc: Global, before: Result<Vec<Pair>, ReadFault>) -> Result<Tally, AllocError> {
        Ok(Tally {
            before: text_of(alloc, &before)?,
            footer_digests: 0,
            footer_form: 0,
            bucket_digests: 0,
            bucket_form: 0,
            same: 0,
            other: 0,
        })
    }

    // The count that this belongs to.
    fn place(&mut self, is_same: bool, read: &Result<Vec<Pair>, ReadFault>) -> &mut u64 {
        match read {
            Err(ReadFault::Damaged(damaged)) => match (damaged.part, damaged.shown) {
                (Part::Footer, Shown::Digests { .. }) => &mut self.footer_digests,
                (Part::Footer, Shown::Form) => &mut self.footer_form,
                (Part::Bucket(_), Shown::Digests { .. }) => &mut self.bucket_digests,
                (Part::Bucket(_), Shown::Form) => &mut self.bucket_form,
                _ => &mut self.other,
            },
            Ok(_) if is_same => &mut self.same,
            _ => &mut self.other,
        }
    }

    pub fn count(
        &mut self,
        alloc: Global,
        read: Result<Vec<Pair>, ReadFault>,
    ) -> Result<(), AllocError> {
        let is_same = text_of(alloc, &read)?.as_str() == self.before.as_str();
        let count = self.place(is_same, &read);
        *count = count.saturating_add(1);
        Ok(())
    }

    pub fn told(&self, alloc: Global) -> Result<String, AllocError> {
        format!(in alloc;
            "footer: {} digests, {} form; bucket: {} digests, {} form; {} the same, {} other",
            self.footer_digests,
            self.footer_form,
            self.bucket_digests,
            self.bucket_form,
            self.same,
            self.other
        )
    }
}
