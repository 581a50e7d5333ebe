//! Cases of what this repository's crates read, write, mean and run: each line of the input is a call with its
//! input, and the output has the line again with the answer behind it.
#![tactic(auto)]

mod books;
mod cells;
mod images;
mod keys;
mod loads;
mod report_texts;
mod runs;
mod schemas;
mod scripts;

use books::Course;
use case_texts::bytes_of;
use runs::Runs;
use schemas::Schemas;
use std::alloc::{AllocError, Global};
use std::io;

// What earlier lines left for later ones.
#[derive(Drop)]
struct Desk {
    // Bytes that stand before those of the next call.
    front: Vec<u8>,
    schemas: Schemas,
    course: Course,
    runs: Runs,
}

impl Desk {
    fn new(alloc: Global) -> Desk {
        Desk {
            front: Vec::new(alloc),
            schemas: Schemas::new(alloc),
            course: Course::new(alloc),
            runs: Runs::new(alloc),
        }
    }

    // The bytes of a call, behind those that earlier lines put before it.
    fn bytes(&mut self, alloc: Global, words: &str) -> Result<Vec<u8>, AllocError> {
        let mut bytes = Vec::new(alloc);
        bytes.append(&mut self.front)?;
        bytes.extend_from_slice(&bytes_of(alloc, words)?)?;
        Ok(bytes)
    }

    // `times COUNT BYTES`: puts the bytes so often before those of the next call.
    fn times(&mut self, alloc: Global, words: &str) -> Result<String, AllocError> {
        let (count, text) = words.split_once(' ').unwrap_or(("0", ""));
        let piece = bytes_of(alloc, text)?;
        for _ in 0..count.parse::<u32>().unwrap_or(0) {
            self.front.extend_from_slice(&piece)?;
        }
        format!(in alloc; "{}", self.front.len())
    }

    // Calls with bytes.
    fn read(&mut self, alloc: Global, call: &str, words: &str) -> Result<String, AllocError> {
        let bytes = self.bytes(alloc, words)?;
        match call {
            "table" => self.schemas.table(alloc, &bytes),
            "mend" => schemas::mend(alloc, &bytes),
            "load" => loads::load(alloc, &self.schemas, &bytes, false),
            "partial" => loads::load(alloc, &self.schemas, &bytes, true),
            "script" => scripts::script(alloc, &bytes),
            "t" | "s" | "a" | "p" => self.runs.file(alloc, call, bytes),
            _ => "no call".to_string(alloc),
        }
    }

    // Calls that change what is left for later lines.
    fn change(&mut self, alloc: Global, call: &str, words: &str) -> Result<String, AllocError> {
        match call {
            "times" => self.times(alloc, words),
            "column" => self.schemas.column(alloc, words, false),
            "nullable" => self.schemas.column(alloc, words, true),
            "columns" => self.schemas.columns(alloc, words),
            "default" => self.schemas.default(alloc, words),
            "schema" => self.schemas.schema(alloc, words),
            "book" => {
                self.course = Course::new(alloc);
                "new".to_string(alloc)
            }
            "turn" => self.course.turn(alloc, &self.schemas, words),
            "turns" => self.course.turns(alloc, &self.schemas, words),
            "no-a" => self.runs.forget(alloc),
            "fails" => self.runs.fails(alloc, words),
            "run" => self.runs.run(alloc, words),
            "journal" => self.runs.image.journal(alloc, words),
            "adopted" => self.runs.image.adopted(alloc, words),
            "over" => self.runs.over(alloc, words),
            "again" => self.runs.again(alloc, words),
            "spoil" => self.runs.spoil(alloc, words),
            _ => self.read(alloc, call, words),
        }
    }

    fn answer(&mut self, alloc: Global, line: &str) -> Result<String, AllocError> {
        let (call, words) = line.split_once(' ').unwrap_or((line, ""));
        match call {
            "cell" => cells::cell(alloc, words),
            "shown" => cells::shown(alloc, words),
            "code" => keys::code(alloc, words),
            "held" => keys::held(alloc, words),
            "held-order" => keys::held_order(alloc, words),
            "key" => keys::key(alloc, &self.schemas, words),
            "fits" => self.schemas.fits(alloc, words),
            "last-default" => self.schemas.last_default(alloc),
            "order" => self.schemas.order(alloc, words),
            "items" => schemas::items(alloc, words),
            "rows" => self.course.rows(alloc, words),
            "full" => self.course.full(alloc),
            "report" => report_texts::listed(alloc, words),
            "cause" => self.runs.cause(alloc, words),
            "words" => runs::words(alloc, words),
            "help" => runs::help(alloc, words),
            "version" => runs::version(alloc, words),
            _ => self.change(alloc, call, words),
        }
    }
}

fn main(rt: HostRuntime) -> io::Result<()> {
    let mut desk = Desk::new(rt.alloc());
    for line in rt.lines(rt.alloc()) {
        let line = line?;
        if line.is_empty() || line.starts_with('#') {
            println!(rt; "{line}")?;
        } else {
            let told = desk.answer(rt.alloc(), line.as_str())?;
            println!(rt; "{line} -> {told}")?;
        }
    }
    Ok(())
}
