ghost use Rattle.std.specs.Prelude.{◌<◌, IfSome};

use crate::streams::numbers;
use case_texts::{bytes_of, text_of};
use dev_memory::{Faults, Image, MemReader, MemStore};
use dev_traits::{DevError, Failed, FileMaker, SealedReader, Store};
use pk_values::Octets;
use std::alloc::{AllocError, Global};

/// A store, and a reader of one of its files.
#[derive(Drop)]
pub struct Stores {
    pub store: MemStore,
    reader: Option<MemReader>,
}

/// The listed calls of a store fail, and each from the number of `stop` on.
pub fn failing(alloc: Global, store: Vec<u64>, stop: Option<u64>) -> Faults {
    Faults {
        store,
        maker: Vec::new(alloc),
        reader: Vec::new(alloc),
        stop,
    }
}

// A store whose area 0 has these bytes, with these files.
fn holding(
    alloc: Global,
    area: Octets,
    files: Vec<(u64, Octets)>,
    faults: Faults,
) -> Result<MemStore, AllocError> {
    let mut areas = Vec::new(alloc);
    areas.push(area)?;
    areas.push(Octets::from_slice(alloc, b"")?)?;
    areas.push(Octets::from_slice(alloc, b"")?)?;
    let image = Image { areas, files };
    if !image.is_short() {
        return Err(AllocError);
    }
    MemStore::of_image(alloc, image, faults)
}

// A store with one file.
fn with_file(alloc: Global, number: u64, bytes: Octets) -> Result<MemStore, AllocError> {
    let mut files = Vec::new(alloc);
    files.push((number, bytes))?;
    holding(
        alloc,
        Octets::from_slice(alloc, b"")?,
        files,
        Faults::none(alloc),
    )
}

/// A reader of the file 2 of these bytes, which fails at the listed reads.
pub fn reader_of(alloc: Global, bytes: &[u8], fails: Vec<u64>) -> Result<MemReader, AllocError> {
    let mut files = Vec::new(alloc);
    files.push((2, Octets::from_slice(alloc, bytes)?))?;
    let mut faults = Faults::none(alloc);
    faults.reader = fails;
    let mut store = holding(alloc, Octets::from_slice(alloc, b"")?, files, faults)?;
    match store.reader(2) {
        Ok(reader) => Ok(reader),
        Err(_) => Err(AllocError),
    }
}

fn area_of(word: &str) -> Option<u32>
    ensures { IfSome result (λ area. area < 3) }
{
    match word {
        "0" => Some(0),
        "1" => Some(1),
        "2" => Some(2),
        _ => None,
    }
}

fn number(word: &str) -> u64 {
    word.parse::<u64>().unwrap_or(0)
}

fn told(alloc: Global, done: Result<(), Failed>) -> Result<String, AllocError> {
    match done {
        Ok(()) => "ok".to_string(alloc),
        Err(_) => "failed".to_string(alloc),
    }
}

// A file of two pieces.
fn made<M: FileMaker>(maker: &mut M, first: &[u8], second: &[u8]) -> Result<M::Sealed, DevError> {
    maker.start()?;
    maker.add(first)?;
    maker.add(second)?;
    maker.seal()
}

// Takes a file of two pieces in where the store has none of its number.
fn adopt_new<S: Store>(
    store: &mut S,
    number: u64,
    first: &[u8],
    second: &[u8],
) -> Option<S::Reader> {
    let mut maker = store.maker().ok()?;
    let sealed = made(&mut maker, first, second).ok()?;
    store.give_back(maker);
    if store.room(1, 0).is_err() {
        return None;
    }
    match store.reader(number) {
        Err(DevError::Absent) => store.adopt(number, sealed).ok(),
        _ => None,
    }
}

// Writes over an area that is long enough.
fn write_inside<S: Store>(store: &mut S, area: u32, at: u64, piece: &[u8]) -> bool
    requires { area < 3 }
{
    if store.room(1, piece.len() as u64).is_err() {
        return false;
    }
    match store.length(area) {
        Ok(length) => 1 <= length && at <= length && store.write_at(area, at, piece).is_ok(),
        Err(_) => false,
    }
}

// So many bytes from a place on.
fn read_from<R: SealedReader>(
    alloc: Global,
    reader: &mut R,
    at: u64,
    len: u64,
) -> Result<String, AllocError> {
    let length = reader.length();
    if at > length || len > length - at || len > 1000 {
        return "past the end".to_string(alloc);
    }
    let mut bytes = vec![in alloc; 0u8; len as usize]?;
    match reader.read_at(at, &mut bytes) {
        Ok(()) => text_of(alloc, &bytes),
        Err(_) => "failed".to_string(alloc),
    }
}

impl Stores {
    pub fn new(alloc: Global) -> Result<Stores, AllocError> {
        Ok(Stores {
            store: MemStore::new(alloc, Faults::none(alloc))?,
            reader: None,
        })
    }

    /// `store FAILS STOP`: a new store whose listed calls fail, and each from a number on.
    pub fn store(&mut self, alloc: Global, words: &str) -> Result<String, AllocError> {
        let (fails, stop) = words.split_once(' ').unwrap_or((words, ""));
        let faults = failing(alloc, numbers(alloc, fails)?, stop.parse::<u64>().ok());
        self.reader = None;
        self.store = MemStore::new(alloc, faults)?;
        "new".to_string(alloc)
    }

    /// `area BYTES`: a store whose area 0 has these bytes.
    pub fn area(&mut self, alloc: Global, words: &str) -> Result<String, AllocError> {
        let area = Octets::from_vec(alloc, bytes_of(alloc, words)?)?;
        self.reader = None;
        self.store = holding(alloc, area, Vec::new(alloc), Faults::none(alloc))?;
        "new".to_string(alloc)
    }

    /// `file NUMBER BYTES`: a store with this file.
    pub fn file(&mut self, alloc: Global, words: &str) -> Result<String, AllocError> {
        let (name, text) = words.split_once(' ').unwrap_or((words, ""));
        let bytes = Octets::from_vec(alloc, bytes_of(alloc, text)?)?;
        self.reader = None;
        self.store = with_file(alloc, number(name), bytes)?;
        "new".to_string(alloc)
    }

    /// `length AREA`.
    pub fn length(&mut self, alloc: Global, words: &str) -> Result<String, AllocError> {
        match area_of(words) {
            Some(area) => match self.store.length(area) {
                Ok(length) => format!(in alloc; "{length}"),
                Err(_) => "failed".to_string(alloc),
            },
            None => "no area".to_string(alloc),
        }
    }

    /// `blank AREA`.
    pub fn blank(&mut self, alloc: Global, words: &str) -> Result<String, AllocError> {
        self.store.room(1, 0)?;
        match area_of(words) {
            Some(area) => told(alloc, self.store.blank(area)),
            None => "no area".to_string(alloc),
        }
    }

    /// `sync AREA`.
    pub fn sync(&mut self, alloc: Global, words: &str) -> Result<String, AllocError> {
        self.store.room(1, 0)?;
        match area_of(words) {
            Some(area) => told(alloc, self.store.sync(area)),
            None => "no area".to_string(alloc),
        }
    }

    /// `write PLACE BYTES`: into area 0, which has a byte there or ends there.
    pub fn write(&mut self, alloc: Global, words: &str) -> Result<String, AllocError> {
        let (at, text) = words.split_once(' ').unwrap_or((words, ""));
        let piece = bytes_of(alloc, text)?;
        if write_inside(&mut self.store, 0, number(at), &piece) {
            "ok".to_string(alloc)
        } else {
            "failed".to_string(alloc)
        }
    }

    // Keeps a reader in place of the one before.
    fn hold(&mut self, reader: MemReader) {
        if let Some(before) = self.reader.take() {
            self.store.give_back_reader(before);
        }
        self.reader = Some(reader);
    }

    /// `adopt NUMBER BYTES, BYTES`: takes a file of two pieces in, and tells how long it is.
    pub fn adopt(&mut self, alloc: Global, words: &str) -> Result<String, AllocError> {
        let (name, text) = words.split_once(' ').unwrap_or((words, ""));
        let (first, second) = text.split_once(", ").unwrap_or((text, ""));
        let first = bytes_of(alloc, first)?;
        let second = bytes_of(alloc, second)?;
        match adopt_new(&mut self.store, number(name), &first, &second) {
            Some(reader) => {
                let length = reader.length();
                self.hold(reader);
                format!(in alloc; "{length}")
            }
            None => "failed".to_string(alloc),
        }
    }

    /// `forget NUMBER` and `forget`: all files but this one, or all.
    pub fn forget(&mut self, alloc: Global, words: &str) -> Result<String, AllocError> {
        self.store.room(1, 0)?;
        match words.parse::<u64>() {
            Ok(number) => told(alloc, self.store.forget_others(&[number])),
            Err(_) => told(alloc, self.store.forget_others(&[])),
        }
    }

    /// `reader NUMBER`: a reader of a file.
    pub fn reader(&mut self, alloc: Global, words: &str) -> Result<String, AllocError> {
        match self.store.reader(number(words)) {
            Ok(reader) => {
                self.hold(reader);
                "ok".to_string(alloc)
            }
            Err(DevError::Absent) => "absent".to_string(alloc),
            Err(DevError::Failed) => "failed".to_string(alloc),
            Err(DevError::Memory) => Err(AllocError),
        }
    }

    /// `read PLACE COUNT`: so many bytes of the file of the reader in hand.
    pub fn read(&mut self, alloc: Global, words: &str) -> Result<String, AllocError> {
        let (at, len) = words.split_once(' ').unwrap_or((words, ""));
        match &mut self.reader {
            Some(reader) => read_from(alloc, reader, number(at), number(len)),
            None => "no reader".to_string(alloc),
        }
    }

    /// `spoil NUMBER PLACE BYTE`: whether a byte of a file was changed.
    pub fn spoil(&mut self, alloc: Global, words: &str) -> Result<String, AllocError> {
        let (name, rest) = words.split_once(' ').unwrap_or((words, ""));
        let (at, text) = rest.split_once(' ').unwrap_or((rest, ""));
        let byte = bytes_of(alloc, text)?.first().copied().unwrap_or(0);
        let spoilt = self.store.spoil(number(name), number(at), byte)?;
        format!(in alloc; "{spoilt}")
    }

    /// `left NUMBER`: area 0 and the files in the image of a number, which is what the store reads as for 0.
    pub fn left(&mut self, alloc: Global, words: &str) -> Result<String, AllocError> {
        let image = self.store.image(alloc, number(words))?;
        let mut text = String::new(alloc);
        if let Some(area) = image.areas.first() {
            text.push_str(text_of(alloc, area.as_slice())?.as_str())?;
        }
        for (number, file) in &image.files {
            let bytes = text_of(alloc, file.as_slice())?;
            text.push_str(format!(in alloc; "; file {number} {bytes}")?.as_str())?;
        }
        Ok(text)
    }

    /// `counted`: how many faults the store counted.
    pub fn counted(&self, alloc: Global) -> Result<String, AllocError> {
        format!(in alloc; "{}", self.store.faults())
    }
}
