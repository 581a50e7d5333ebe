use case_texts::{bytes_of, text_of};
use dev_memory::{MemInputs, MemSink};
use dev_traits::{Asked, Inputs, Put, Sink, Source, Taken};
use pk_values::Octets;
use std::alloc::{AllocError, Global};

/// A sink, and the files of the inputs to be asked.
#[derive(Drop)]
pub struct Streams {
    sink: MemSink,
    files: Vec<(Octets, Octets)>,
}

/// The numbers in a word, with commas between; `-` has none.
pub fn numbers(alloc: Global, word: &str) -> Result<Vec<u64>, AllocError> {
    let mut numbers = Vec::new(alloc);
    for digits in word.split(',') {
        if let Ok(number) = digits.parse::<u64>() {
            numbers.push(number)?;
        }
    }
    Ok(numbers)
}

// What a take of two bytes gives.
fn taken<S: Source>(alloc: Global, src: &mut S) -> Result<String, AllocError> {
    let mut piece = [0u8; 2];
    match src.take(&mut piece) {
        Taken::Bytes(count) => text_of(alloc, &piece[..count]),
        Taken::End => "end".to_string(alloc),
        Taken::Failed => "failed".to_string(alloc),
    }
}

// What four takes of two bytes give.
fn four<S: Source>(alloc: Global, src: &mut S) -> Result<String, AllocError> {
    let first = taken(alloc, src)?;
    let second = taken(alloc, src)?;
    let third = taken(alloc, src)?;
    let fourth = taken(alloc, src)?;
    format!(in alloc; "{first} {second} {third} {fourth}")
}

fn asked<I: Inputs>(alloc: Global, inputs: &mut I, name: &str) -> Result<String, AllocError> {
    match inputs.ask(alloc, name) {
        Asked::Got(mut src) => {
            let told = four(alloc, &mut src);
            inputs.give_back(src);
            told
        }
        Asked::Absent => "absent".to_string(alloc),
        Asked::Failed => "failed".to_string(alloc),
        Asked::Memory => Err(AllocError),
    }
}

impl Streams {
    pub fn new(alloc: Global) -> Streams {
        Streams {
            sink: MemSink::new(alloc, 1, Vec::new(alloc)),
            files: Vec::new(alloc),
        }
    }

    /// `sink MOST FAILS`: a sink that takes so many bytes a put, and whose listed puts fail.
    pub fn sink(&mut self, alloc: Global, words: &str) -> Result<String, AllocError> {
        let (most, fails) = words.split_once(' ').unwrap_or((words, ""));
        let most = most.parse::<usize>().unwrap_or(1);
        if most == 0 {
            return "takes none".to_string(alloc);
        }
        self.sink = MemSink::new(alloc, most, numbers(alloc, fails)?);
        "new".to_string(alloc)
    }

    /// `put BYTES`: how many of the bytes are taken, and what the sink has.
    pub fn put(&mut self, alloc: Global, words: &str) -> Result<String, AllocError> {
        let piece = bytes_of(alloc, words)?;
        if piece.is_empty() {
            return "no byte".to_string(alloc);
        }
        let put = self.sink.put(&piece);
        let written = text_of(alloc, self.sink.written())?;
        match put {
            Put::Took(count) => format!(in alloc; "took {count}: {written}"),
            Put::Failed => format!(in alloc; "failed: {written}"),
        }
    }

    /// `input NAME BYTES`: one file more.
    pub fn input(&mut self, alloc: Global, words: &str) -> Result<String, AllocError> {
        let (name, text) = words.split_once(' ').unwrap_or((words, ""));
        let name = Octets::from_slice(alloc, name.as_bytes())?;
        self.files
            .push((name, Octets::from_vec(alloc, bytes_of(alloc, text)?)?))?;
        format!(in alloc; "{}", self.files.len())
    }

    /// `ask FAILS NAME`: what four takes of two bytes of an input give, the listed ones of which fail.
    pub fn ask(&mut self, alloc: Global, words: &str) -> Result<String, AllocError> {
        let (fails, name) = words.split_once(' ').unwrap_or((words, ""));
        let mut files = Vec::new(alloc);
        for (name, bytes) in &self.files {
            files.push((name.copy(alloc)?, bytes.copy(alloc)?))?;
        }
        let mut inputs = MemInputs::new(alloc, files, numbers(alloc, fails)?)?;
        asked(alloc, &mut inputs, name)
    }
}
