use case_texts::bytes_of_hex;
use dev_memory::{Faults, Image, MemStore};
use pk_values::Octets;
use std::alloc::{AllocError, Global};

/// An image of a store that lines give: the bytes of its journal, which is area 0, and its files.
#[derive(Drop)]
pub struct GivenImage {
    journal: Vec<u8>,
    files: Vec<(u64, Octets)>,
}

impl GivenImage {
    /// An image with nothing in it.
    pub fn new(alloc: Global) -> GivenImage {
        GivenImage {
            journal: Vec::new(alloc),
            files: Vec::new(alloc),
        }
    }

    /// `journal DIGITS`: an image whose area 0 has the bytes of these hexadecimal digits, and no file.
    pub fn journal(&mut self, alloc: Global, words: &str) -> Result<String, AllocError> {
        self.journal = bytes_of_hex(alloc, words)?;
        self.files = Vec::new(alloc);
        format!(in alloc; "{}", self.journal.len())
    }

    /// `adopted NUMBER DIGITS`: the image also has this file.
    pub fn adopted(&mut self, alloc: Global, words: &str) -> Result<String, AllocError> {
        let (number, digits) = words.split_once(' ').unwrap_or(("0", ""));
        let bytes = bytes_of_hex(alloc, digits)?;
        let told = format!(in alloc; "{}", bytes.len())?;
        let file = Octets::from_slice(alloc, &bytes)?;
        self.files.push((number.parse::<u64>().unwrap_or(0), file))?;
        Ok(told)
    }

    /// A store that a crash left so. The files are in it from then on.
    pub fn take_store(&mut self, alloc: Global, faults: Faults) -> Result<MemStore, AllocError> {
        let mut areas = Vec::new(alloc);
        areas.push(Octets::from_slice(alloc, &self.journal)?)?;
        areas.push(Octets::from_slice(alloc, b"")?)?;
        areas.push(Octets::from_slice(alloc, b"")?)?;
        let files = std::mem::replace(&mut self.files, Vec::new(alloc));
        let image = Image { areas, files };
        if !image.is_short() {
            return Err(AllocError);
        }
        MemStore::of_image(alloc, image, faults)
    }
}
