use crate::devices::{Counter, Keeper, Turn};
use crate::tallies::Tally;
use crate::texts::{entry_text, fault_text, number, pairs_of, pairs_text};
use case_texts::{bytes_of_hex, hex_of};
use dev_traits::{FileMaker, MakeFault, ReadFault, SealedReader};
use index_file::{IndexFile, MadeIndex, attach_index, entries, keys_rise, probe, write_index};
use pk_index::Pair;
use sha2::{Digest, Sha256};
use std::alloc::{AllocError, Global};

/// The bytes of a file in hand, at which call the next maker or reader fails, or 0, and what the next reader turns.
#[derive(Drop)]
pub struct Files {
    pub bytes: Vec<u8>,
    fails_at: u64,
    turn: Option<Turn>,
}

// What reading told of a file, with its reads and faults.
fn with_reads(alloc: Global, told: String, file: IndexFile<Counter>) -> Result<String, AllocError> {
    let faults = file.faults();
    let reads = file.into_reader().reads();
    format!(in alloc; "{told} ({reads} reads, {faults} faults)")
}

fn probed(alloc: Global, mut file: IndexFile<Counter>, key: &[u8]) -> Result<String, AllocError> {
    let told = match probe(alloc, &mut file, key) {
        Ok(entry) => entry_text(alloc, entry)?,
        Err(fault) => fault_text(alloc, &fault)?,
    };
    with_reads(alloc, told, file)
}

fn listed(alloc: Global, mut file: IndexFile<Counter>) -> Result<String, AllocError> {
    let told = match entries(alloc, &mut file) {
        Ok(entries) => pairs_text(alloc, &entries)?,
        Err(fault) => fault_text(alloc, &fault)?,
    };
    with_reads(alloc, told, file)
}

fn refused(alloc: Global, reader: &Counter, fault: &ReadFault) -> Result<String, AllocError> {
    let told = fault_text(alloc, fault)?;
    format!(in alloc;
        "{told} ({} reads, {} faults)",
        reader.reads(),
        reader.faults()
    )
}

// The entries of file 2 of these bytes.
fn entries_in(alloc: Global, base: u64, bytes: Vec<u8>) -> Result<Vec<Pair>, ReadFault> {
    match attach_index(alloc, 2, base, Counter::new(alloc, bytes, 0)) {
        Ok(mut file) => entries(alloc, &mut file),
        Err((_, fault)) => Err(fault),
    }
}

impl Files {
    pub fn new(alloc: Global) -> Files {
        Files {
            bytes: Vec::new(alloc),
            fails_at: 0,
            turn: None,
        }
    }

    /// `failing CALL`: the next maker or reader fails at its call of this number, from 1.
    pub fn failing(&mut self, alloc: Global, words: &str) -> Result<String, AllocError> {
        self.fails_at = number(words);
        "ok".to_string(alloc)
    }

    /// `turn PLACE HEX READ`: a byte of the next reader is another one from this read on, from 1.
    pub fn turn(&mut self, alloc: Global, words: &str) -> Result<String, AllocError> {
        let (place, rest) = words.split_once(' ').unwrap_or((words, ""));
        let (digits, read) = rest.split_once(' ').unwrap_or((rest, ""));
        self.turn = Some(Turn {
            place: place.parse::<usize>().unwrap_or(0),
            value: bytes_of_hex(alloc, digits)?.first().copied().unwrap_or(0),
            read: number(read),
        });
        "ok".to_string(alloc)
    }

    /// A maker that fails as was told.
    pub fn maker(&mut self, alloc: Global) -> Keeper {
        let fails_at = self.fails_at;
        self.fails_at = 0;
        Keeper::new(alloc, fails_at)
    }

    /// A reader of the file, which fails as was told.
    pub fn reader(&mut self, alloc: Global) -> Result<Counter, AllocError> {
        let fails_at = self.fails_at;
        self.fails_at = 0;
        let turn = self.turn.take();
        Ok(Counter::new(alloc, self.bytes.clone()?, fails_at).turning(turn))
    }

    /// `write ENTRIES`: the index file of these entries, and how many bytes it has.
    pub fn write(&mut self, alloc: Global, words: &str) -> Result<String, AllocError> {
        let entries = pairs_of(alloc, words)?;
        if !keys_rise(&entries) {
            return "no rising keys".to_string(alloc);
        }
        let mut maker = self.maker(alloc);
        match write_index(alloc, &mut maker, &entries) {
            Ok(MadeIndex { sealed, footer: _ }) => {
                self.bytes = sealed;
                format!(in alloc; "{} bytes", self.bytes.len())
            }
            Err(MakeFault::StoreFault) => format!(in alloc; "failed, {} faults", maker.faults()),
            Err(MakeFault::Memory) => Err(AllocError),
        }
    }

    /// `made`: the bytes of the file.
    pub fn made(&self, alloc: Global) -> Result<String, AllocError> {
        hex_of(alloc, &self.bytes)
    }

    /// `digest`: the SHA-256 digest of the file.
    pub fn digest(&self, alloc: Global) -> Result<String, AllocError> {
        let digest: [u8; 32] = Sha256::digest(self.bytes.as_slice());
        hex_of(alloc, &digest)
    }

    /// `bytes HEX`: a file of these bytes.
    pub fn bytes(&mut self, alloc: Global, words: &str) -> Result<String, AllocError> {
        self.bytes = bytes_of_hex(alloc, words)?;
        format!(in alloc; "{} bytes", self.bytes.len())
    }

    /// `set PLACE HEX`: gives a byte of the file another value.
    pub fn set(&mut self, alloc: Global, words: &str) -> Result<String, AllocError> {
        let (place, digits) = words.split_once(' ').unwrap_or((words, ""));
        let value = bytes_of_hex(alloc, digits)?.first().copied().unwrap_or(0);
        match self.bytes.get_mut(place.parse::<usize>().unwrap_or(0)) {
            Some(byte) => {
                *byte = value;
                "ok".to_string(alloc)
            }
            None => "no byte".to_string(alloc),
        }
    }

    /// `probe BASE KEY`: what the file, attached as file 2 with a base, has at a key, and how often it was read.
    pub fn probe(&mut self, alloc: Global, words: &str) -> Result<String, AllocError> {
        let (base, digits) = words.split_once(' ').unwrap_or((words, ""));
        let key = bytes_of_hex(alloc, digits)?;
        let reader = self.reader(alloc)?;
        match attach_index(alloc, 2, number(base), reader) {
            Ok(file) => probed(alloc, file, &key),
            Err((reader, fault)) => refused(alloc, &reader, &fault),
        }
    }

    /// `list BASE`: all entries of the file, attached as file 2 with a base, and how often it was read.
    pub fn list(&mut self, alloc: Global, words: &str) -> Result<String, AllocError> {
        let reader = self.reader(alloc)?;
        match attach_index(alloc, 2, number(words), reader) {
            Ok(file) => listed(alloc, file),
            Err((reader, fault)) => refused(alloc, &reader, &fault),
        }
    }

    // The file with another byte at a place.
    fn with_byte(&self, place: usize, value: u8) -> Result<Vec<u8>, AllocError> {
        let mut bytes = self.bytes.clone()?;
        if let Some(byte) = bytes.get_mut(place) {
            *byte = value;
        }
        Ok(bytes)
    }

    /// `changed BASE`: what attaching and listing tell for each byte of the file and each other value of it.
    pub fn changed(&self, alloc: Global, words: &str) -> Result<String, AllocError> {
        let base = number(words);
        let mut tally = Tally::new(alloc, entries_in(alloc, base, self.bytes.clone()?))?;
        for place in 0..self.bytes.len() {
            for value in 0..=255 {
                if self.bytes[place] != value {
                    let bytes = self.with_byte(place, value)?;
                    tally.count(alloc, entries_in(alloc, base, bytes))?;
                }
            }
        }
        tally.told(alloc)
    }

    /// `prefixes BASE`: what attaching and listing tell for each prefix of the file that is shorter.
    pub fn prefixes(&self, alloc: Global, words: &str) -> Result<String, AllocError> {
        let base = number(words);
        let mut tally = Tally::new(alloc, entries_in(alloc, base, self.bytes.clone()?))?;
        for len in 0..self.bytes.len() {
            let bytes = Vec::from_slice(alloc, &self.bytes[..len])?;
            tally.count(alloc, entries_in(alloc, base, bytes))?;
        }
        tally.told(alloc)
    }
}
