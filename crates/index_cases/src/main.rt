//! Cases of the primary index: of its level in memory, its files and its levels. Each line of the input is a call
//! with its input, and the output has the line again with the answer behind it.
#![tactic(auto)]

mod devices;
mod files;
mod indexes;
mod levels;
mod tallies;
mod texts;

use files::Files;
use index_level0::Level0;
use indexes::Indexes;
use std::alloc::{AllocError, Global};
use std::io;

// What earlier lines left for later ones.
#[derive(Drop)]
struct Desk {
    level: Level0,
    files: Files,
    indexes: Indexes,
}

impl Desk {
    fn new(alloc: Global) -> Result<Desk, AllocError> {
        Ok(Desk {
            level: Level0::new(alloc),
            files: Files::new(alloc),
            indexes: Indexes::new(alloc)?,
        })
    }

    // Calls of level 0 and of bytes alone.
    fn level(&mut self, alloc: Global, call: &str, words: &str) -> Result<String, AllocError> {
        match call {
            "hash" => levels::hash_of(alloc, words),
            "bucket" => levels::bucket(alloc, words),
            "body" => levels::body(alloc, words),
            "put" => levels::put(alloc, &mut self.level, words),
            "get" => levels::get(alloc, &self.level, words),
            "len" => format!(in alloc; "{}", self.level.len()),
            "entries" => levels::entries(alloc, &self.level),
            "clear" => levels::clear(alloc, &mut self.level),
            _ => "no call".to_string(alloc),
        }
    }

    // Calls of an index.
    fn index(&mut self, alloc: Global, call: &str, words: &str) -> Result<String, AllocError> {
        match call {
            "stack" => self.indexes.stack(alloc, &mut self.files, words),
            "index" => self.indexes.index(alloc),
            "change" => self.indexes.change(alloc, words),
            "room" => self.indexes.room(alloc, words),
            "at" => self.indexes.at(alloc, words),
            "newer" => self.indexes.newer(alloc, words),
            "flush" => self.indexes.flush(alloc, &mut self.files, words),
            "replace" => self.indexes.replace(alloc, &mut self.files, words),
            "reads" => self.indexes.reads(alloc),
            _ => self.level(alloc, call, words),
        }
    }

    fn answer(&mut self, alloc: Global, line: &str) -> Result<String, AllocError> {
        let (call, words) = line.split_once(' ').unwrap_or((line, ""));
        match call {
            "failing" => self.files.failing(alloc, words),
            "turn" => self.files.turn(alloc, words),
            "write" => self.files.write(alloc, words),
            "made" => self.files.made(alloc),
            "digest" => self.files.digest(alloc),
            "bytes" => self.files.bytes(alloc, words),
            "set" => self.files.set(alloc, words),
            "probe" => self.files.probe(alloc, words),
            "list" => self.files.list(alloc, words),
            "changed" => self.files.changed(alloc, words),
            "prefixes" => self.files.prefixes(alloc, words),
            _ => self.index(alloc, call, words),
        }
    }
}

fn main(rt: HostRuntime) -> io::Result<()> {
    let mut desk = Desk::new(rt.alloc())?;
    for line in rt.lines(rt.alloc()) {
        let line = line?;
        if line.is_empty() || line.starts_with('#') {
            println!(rt; "{line}")?;
        } else {
            let told = desk.answer(rt.alloc(), line.as_str())?;
            println!(rt; "{line} -> {told}")?;
        }
    }
    Ok(())
}
