use crate::images::GivenImage;
use case_texts::text_of;
use command_line::{WordsFault, read_words, text_for};
use dev_memory::{Faults, Image, MemInputs, MemSink, MemStore};
use pk_values::Octets;
use std::alloc::{AllocError, Global};
use tablet_run::run;

/// What the inputs `t`, `s`, `a` and `p` hold, which takes, puts and calls of the store fail, an image that lines gave, why
/// the last run ended, and its store.
#[derive(Drop)]
pub struct Runs {
    table: Vec<u8>,
    script: Vec<u8>,
    file: Option<Vec<u8>>,
    partial: Option<Vec<u8>>,
    input_fails: Vec<u64>,
    put_fails: Vec<u64>,
    faults: Faults,
    pub image: GivenImage,
    cause: String,
    store: Option<MemStore>,
}

fn entry(alloc: Global, name: &str, bytes: &[u8]) -> Result<(Octets, Octets), AllocError> {
    let name = Octets::from_slice(alloc, name.as_bytes())?;
    let bytes = Octets::from_slice(alloc, bytes)?;
    Ok((name, bytes))
}

impl Runs {
    pub fn new(alloc: Global) -> Runs {
        Runs {
            table: Vec::new(alloc),
            script: Vec::new(alloc),
            file: None,
            partial: None,
            input_fails: Vec::new(alloc),
            put_fails: Vec::new(alloc),
            faults: Faults::none(alloc),
            image: GivenImage::new(alloc),
            cause: String::new(alloc),
            store: None,
        }
    }

    /// `t BYTES`, `s BYTES`, `a BYTES` and `p BYTES`: what an input holds.
    pub fn file(
        &mut self,
        alloc: Global,
        name: &str,
        bytes: Vec<u8>,
    ) -> Result<String, AllocError> {
        let told = format!(in alloc; "{}", bytes.len())?;
        match name {
            "t" => self.table = bytes,
            "s" => self.script = bytes,
            "p" => self.partial = Some(bytes),
            _ => self.file = Some(bytes),
        }
        Ok(told)
    }

    /// `no-a`: there is no input `a`.
    pub fn forget(&mut self, alloc: Global) -> Result<String, AllocError> {
        self.file = None;
        "gone".to_string(alloc)
    }

    /// `fails take NUMBER`, `fails put NUMBER`, `fails store NUMBER`, `fails maker NUMBER`, `fails reader NUMBER`, `fails
    /// stop NUMBER` and `fails none`: which call fails, or from which call of the store on each does.
    pub fn fails(&mut self, alloc: Global, words: &str) -> Result<String, AllocError> {
        let (call, number) = words.split_once(' ').unwrap_or((words, ""));
        match (call, number.parse::<u64>()) {
            ("take", Ok(number)) => self.input_fails.push(number)?,
            ("put", Ok(number)) => self.put_fails.push(number)?,
            ("store", Ok(number)) => self.faults.store.push(number)?,
            ("maker", Ok(number)) => self.faults.maker.push(number)?,
            ("reader", Ok(number)) => self.faults.reader.push(number)?,
            ("stop", Ok(number)) => self.faults.stop = Some(number),
            _ => {
                self.input_fails.clear();
                self.put_fails.clear();
                self.faults = Faults::none(alloc);
            }
        }
        words.to_string(alloc)
    }

    fn inputs(&self, alloc: Global) -> Result<MemInputs, AllocError> {
        let mut files = Vec::new(alloc);
        files.push(entry(alloc, "t", &self.table)?)?;
        files.push(entry(alloc, "s", &self.script)?)?;
        if let Some(file) = &self.file {
            files.push(entry(alloc, "a", file)?)?;
        }
        if let Some(file) = &self.partial {
            files.push(entry(alloc, "p", file)?)?;
        }
        let fails = Vec::from_slice(alloc, &self.input_fails)?;
        MemInputs::new(alloc, files, fails)
    }

    // Which calls of a store are to fail.
    fn faults(&self, alloc: Global) -> Result<Faults, AllocError> {
        Ok(Faults {
            store: Vec::from_slice(alloc, &self.faults.store)?,
            maker: Vec::from_slice(alloc, &self.faults.maker)?,
            reader: Vec::from_slice(alloc, &self.faults.reader)?,
            stop: self.faults.stop,
        })
    }

    // Runs words over a store, with a sink that takes four bytes a put.
    fn run_over(
        &mut self,
        alloc: Global,
        words: &str,
        store: MemStore,
    ) -> Result<String, AllocError> {
        let words: Vec<&str> = words.split(' ').collect(alloc)?;
        let mut inputs = self.inputs(alloc)?;
        let mut out = MemSink::new(alloc, 4, Vec::from_slice(alloc, &self.put_fails)?);
        let ended = run(alloc, &words, &mut inputs, &mut out, store);
        self.cause = format!(in alloc; "{}", ended.cause)?;
        self.store = Some(ended.store);
        let put = text_of(alloc, out.written())?;
        format!(in alloc; "{} {put}", ended.status)
    }

    /// `run WORDS`: the status of a run of these words over the inputs and a new store, and what was put.
    pub fn run(&mut self, alloc: Global, words: &str) -> Result<String, AllocError> {
        let store = MemStore::new(alloc, self.faults(alloc)?)?;
        self.run_over(alloc, words, store)
    }

    /// `over WORDS`: the same over a store that was left as the image that lines gave.
    pub fn over(&mut self, alloc: Global, words: &str) -> Result<String, AllocError> {
        let faults = self.faults(alloc)?;
        let store = self.image.take_store(alloc, faults)?;
        self.run_over(alloc, words, store)
    }

    // The image of this number that a crash may leave of the last run's store, with the faults that are listed now.
    fn left(&self, alloc: Global, pick: u64) -> Result<MemStore, AllocError> {
        match &self.store {
            Some(store) => MemStore::of_image(
                alloc,
                store.image(alloc, pick)?,
                self.faults(alloc)?,
            ),
            None => MemStore::new(alloc, self.faults(alloc)?),
        }
    }

    /// `again PICK WORDS`: the same over an image that a crash may leave of the last run's store, by its number.
    pub fn again(&mut self, alloc: Global, words: &str) -> Result<String, AllocError> {
        let (pick, words) = words.split_once(' ').unwrap_or(("0", words));
        let store = self.left(alloc, pick.parse::<u64>().unwrap_or(0))?;
        self.run_over(alloc, words, store)
    }

    /// `spoil FILE AT BYTE`: changes a byte of a file of the last run's store.
    pub fn spoil(&mut self, alloc: Global, words: &str) -> Result<String, AllocError> {
        let numbers: Vec<u64> = words
            .split(' ')
            .map(|word| word.parse::<u64>().unwrap_or(0))
            .collect(alloc)?;
        match (&mut self.store, numbers.as_slice()) {
            (Some(store), [file, at, byte]) => format!(in alloc;
                "{}",
                store.spoil(*file, *at, (*byte % 256) as u8)?
            ),
            _ => "no store".to_string(alloc),
        }
    }

    /// `cause TEXT`: whether the cause of the last run begins so.
    pub fn cause(&self, alloc: Global, words: &str) -> Result<String, AllocError> {
        if self.cause.as_str().starts_with(words) {
            "yes".to_string(alloc)
        } else {
            format!(in alloc; "{}", self.cause)
        }
    }
}

/// `words WORDS`: the table and the script that words name.
pub fn words(alloc: Global, words: &str) -> Result<String, AllocError> {
    let words: Vec<&str> = words.split(' ').collect(alloc)?;
    match read_words(alloc, &words) {
        Ok(files) => format!(in alloc; "table {} script {}", files.table, files.script),
        Err(WordsFault::Words) => "refused".to_string(alloc),
        Err(WordsFault::Memory) => Err(AllocError),
    }
}

/// `help WORD PART`: whether a part stands in the text that a word asks for.
pub fn help(alloc: Global, words: &str) -> Result<String, AllocError> {
    let (word, part) = words.split_once(' ').unwrap_or((words, ""));
    match text_for(alloc, word)? {
        Some(text) => format!(in alloc; "{}", text.as_str().contains(part)),
        None => "asks for nothing".to_string(alloc),
    }
}

/// `version WORD`: the text that a word asks for.
pub fn version(alloc: Global, words: &str) -> Result<String, AllocError> {
    match text_for(alloc, words)? {
        Some(text) => text_of(alloc, text.as_bytes()),
        None => "asks for nothing".to_string(alloc),
    }
}
