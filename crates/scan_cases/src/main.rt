//! Cases of dead rows and of scans of snapshots: each line of the input is a call with its input, and the output has the
//! line again with the answer behind it.
#![tactic(auto)]

mod dead_rows;
mod files;
mod parts;
mod scans;
mod tables;

use del_vector::DelVector;
use files::Files;
use scans::Scans;
use std::alloc::{AllocError, Global};
use std::io;

// What earlier lines left for later ones.
#[derive(Drop)]
struct Desk {
    dead: DelVector,
    files: Files,
    scans: Scans,
}

impl Desk {
    fn new(alloc: Global) -> Result<Desk, AllocError> {
        Ok(Desk {
            dead: DelVector::empty(),
            files: Files::new(alloc)?,
            scans: Scans::new(alloc)?,
        })
    }

    fn answer(&mut self, alloc: Global, line: &str) -> Result<String, AllocError> {
        let (call, words) = line.split_once(' ').unwrap_or((line, ""));
        match call {
            "dead" => dead_rows::dead(alloc, &mut self.dead, words),
            "is_dead" => dead_rows::is_dead(alloc, &self.dead, words),
            "store" => self.files.store(alloc, words),
            "file" => self.files.file(alloc, words),
            "spoil" => self.files.spoil(alloc, words),
            "part" => self.scans.part(alloc, &mut self.files, &self.dead, words),
            "scan" => self.scans.scan(alloc, &mut self.files, words),
            _ => "no call".to_string(alloc),
        }
    }
}

fn main(rt: HostRuntime) -> io::Result<()> {
    let mut desk = Desk::new(rt.alloc())?;
    for line in rt.lines(rt.alloc()) {
        let line = line?;
        if line.is_empty() || line.starts_with('#') {
            println!(rt; "{line}")?;
        } else {
            let told = desk.answer(rt.alloc(), line.as_str())?;
            println!(rt; "{line} -> {told}")?;
        }
    }
    Ok(())
}
