ghost use Rattle.std.specs.Prelude.{◌≡◌, ◌^◌, ◌≤◌, ◌<◌, ◌+◌, None, Ok, length, IfOk};
ghost use Rattle.dev_traits.specs.Causes.{HasCause};
ghost use Rattle.dev_host.specs.Silent.{silent_view};

use crate::disk::{
    adopted_path, length_of, make_folder, new_blank, path_in, read_from, settle, sync_area,
    write_to,
};
use crate::{HostMaker, HostReader, HostSealed};
use dev_traits::{DevError, Failed, FileMaker, LONGEST, Memory, SealedReader, Store};
use std::alloc::Global;
use std::fmt::Write;
use std::io::ErrorKind;
use std::rt::Files;
use std::{fs, io};

/// A store in a folder: area A in the file `areaA`, the adopted file of number N in `fN`. Nothing is told of the bytes.
///
/// Nothing is written before the first call that writes. What is forgotten is noted, and removed by `sweep`. A
/// maker's file lies in the folder as `mK-N` until it is adopted.
#[derive(Drop)]
pub struct HostStore<R: Files> {
    alloc: Global,
    host: R,
    folder: String,
    areas: Vec<String>,
    // Of each area the file that writes it, from its first write or sync on.
    writers: Vec<Option<R::File>>,
    blank_path: String,
    makers: u64,
    noted: Vec<u64>,
    faults: u64,
    ghost three: { length areas.items ≡ 3 },
    ghost three_writers: { length writers.items ≡ 3 },
}

fn number_in(digits: &str) -> Option<u64> {
    digits.parse().ok()
}

// The number of an adopted file's name.
fn adopted_number(name: &str) -> Option<u64> {
    match name.strip_prefix('f') {
        Some(digits) => number_in(digits),
        None => None,
    }
}

// Whether two numbers are joined by a dash.
fn is_pair(numbers: &str) -> bool {
    match numbers.split_once('-') {
        Some((first, second)) => number_in(first).is_some() && number_in(second).is_some(),
        None => false,
    }
}

// Whether it is the name of a maker's file.
fn is_made(name: &str) -> bool {
    match name.strip_prefix('m') {
        Some(numbers) => is_pair(numbers),
        None => false,
    }
}

impl<R: Files + AllocGlobal + Clone + Drop> HostStore<R> {
    /// The store in a folder, which is made once something is written.
    pub fn new(host: R, folder: &str) -> Result<HostStore<R>, Memory>
        ensures { IfOk result (λ store. store.faults ≡ 0) }
    {
        let alloc = host.alloc();
        let mut areas = Vec::new(alloc);
        areas.push(path_in(alloc, folder, "area0")?)?;
        areas.push(path_in(alloc, folder, "area1")?)?;
        areas.push(path_in(alloc, folder, "area2")?)?;
        let mut writers = Vec::new(alloc);
        writers.push(None)?;
        writers.push(None)?;
        writers.push(None)?;
        Ok(HostStore {
            alloc,
            blank_path: path_in(alloc, folder, "blank")?,
            folder: String::from_str(alloc, folder)?,
            host,
            areas,
            writers,
            makers: 0,
            noted: Vec::new(alloc),
            faults: 0,
        })
    }

    /// Removes the files that were forgotten, and those that makers made and nobody adopted. One that can't be
    /// removed stays.
    pub fn sweep(self) {
        for number in &self.noted {
            if let Ok(path) = adopted_path(self.alloc, &self.folder, *number) {
                let _ = fs::remove_file(&self.host, &path);
            }
        }
        let _ = self.sweep_made();
    }

    // Removes the files that lie under a maker's name.
    fn sweep_made(&self) -> io::Result<()> {
        for entry in fs::read_dir(&self.host, &self.folder)? {
            let entry = entry?;
            if is_made(entry.file_name()) {
                let path = path_in(self.alloc, &self.folder, entry.file_name())?;
                let _ = fs::remove_file(&self.host, &path);
            }
        }
        Ok(())
    }

    // Tells what the host answered, and counts its fault.
    fn answer<T: Drop>(&mut self, answered: io::Result<T>) -> Result<T, Failed>
        ensures cause { HasCause self.old.faults self.new.faults result }
        ensures value { IfOk answered (λ t. result ≡ Ok t) }
    {
        match answered {
            Ok(value) => Ok(value),
            Err(_) => {
                self.faults = self.faults.saturating_add(1);
                Err(Failed)
            }
        }
    }

    // Notes the folder's adopted files outside a list.
    fn note_others(&mut self, keep: &[u64]) -> io::Result<()>
        ensures { self.new.faults ≡ self.old.faults }
    {
        let mut noted = Vec::new(self.alloc);
        match fs::read_dir(&self.host, &self.folder) {
            Ok(entries) => {
                for entry in entries {
                    if let Some(number) = adopted_number(entry?.file_name())
                        && keep.binary_search(&number).is_err()
                    {
                        noted.push(number)?;
                    }
                }
            }
            Err(error) if error.kind() == ErrorKind::NotFound => {}
            Err(error) => return Err(error),
        }
        self.noted = noted;
        Ok(())
    }

    // A reader of an adopted file.
    fn open_adopted(&self, number: u64) -> Result<HostReader<R>, DevError>
        ensures { IfOk result (λ reader. (reader.faults ≡ 0) × (reader.reads ≡ 0)) }
    {
        let Ok(path) = adopted_path(self.alloc, &self.folder, number) else {
            return Err(DevError::Memory);
        };
        let Ok(host) = self.host.clone() else {
            return Err(DevError::Memory);
        };
        match length_of(&host, &path) {
            Ok(size) => Ok(HostReader::new(host, path, size)),
            Err(error) if error.kind() == ErrorKind::NotFound => Err(DevError::Absent),
            Err(_) => Err(DevError::Failed),
        }
    }

    // Takes the number of an adopted file out of those that are noted.
    fn keep_adopted(&mut self, number: u64)
        ensures { self.new.faults ≡ self.old.faults }
    {
        if let Some(place) = self.noted.iter().position(|noted| *noted == number) {
            let _ = self.noted.swap_remove(place);
        }
    }

    // Writes an area through its writer.
    fn write(&mut self, area: u32, at: u64, piece: &[u8]) -> io::Result<()>
        requires { area < 3 }
        ensures { self.new.faults ≡ self.old.faults }
    {
        let path = &self.areas[area as usize];
        let writer = &mut self.writers[area as usize];
        write_to(&self.host, path, writer, at, piece)
    }

    // Syncs an area through its writer, which a first sync opens.
    fn sync_writer(&mut self, area: u32) -> io::Result<()>
        requires { area < 3 }
        ensures { self.new.faults ≡ self.old.faults }
    {
        let path = &self.areas[area as usize];
        let writer = &mut self.writers[area as usize];
        sync_area(&self.host, path, writer)
    }

    // Writes a blank file of its own name, and puts it in the place of an area.
    fn put_blank(&self, area: u32) -> io::Result<()>
        requires { area < 3 }
    {
        make_folder(&self.host, &self.folder)?;
        let file = new_blank(&self.host, &self.blank_path)?;
        settle(
            &self.host,
            &self.folder,
            file,
            &self.blank_path,
            &self.areas[area as usize],
        )
    }
}

// The length of an area, 0 where its file isn't there.
fn area_length<R: Files>(host: &R, path: &str) -> io::Result<u64>
    ensures { IfOk result (λ n. n ≤ 2 ^ 44) }
{
    match length_of(host, path) {
        Ok(length) => Ok(length),
        Err(error) if error.kind() == ErrorKind::NotFound => Ok(0),
        Err(error) => Err(error),
    }
}

// Writes the path of an adopted file over a path that has the room for it.
fn name_adopted(path: &mut String, folder: &str, number: u64) -> bool {
    path.clear();
    write!(path, "{folder}/f{number}").is_ok()
}

impl<R: Files + AllocGlobal + Clone + Drop> Store for HostStore<R> {
    type Maker = HostMaker<R>;

    type Reader = HostReader<R>;

    ghost view = { λ s. silent_view s.faults };

    ghost counts_now = { λ s t image le may. may };

    ghost only_now = { λ s image might. might };

    ghost three_areas = { λ s image is. Prim.cc };

    ghost short_now = { λ s image may. absurd may };

    ghost short_since = { λ s t image might. absurd might };

    ghost short_read = { λ s image is. Prim.cc };

    ghost honest_reads = { λ s honest. Prim.cc };

    ghost honest_files = { λ s honest. Prim.cc };

    ghost honest_empty = { λ s honest. Prim.cc };

    ghost sealed_tells = { λ s sealed tells. tells };

    fn faults(&self) -> u64 {
        self.faults
    }

    fn room(&mut self, _calls: u64, _bytes: u64) -> Result<(), Memory> {
        Ok(())
    }

    fn length(&mut self, area: u32) -> Result<u64, Failed> {
        match area_length(&self.host, &self.areas[area as usize]) {
            Ok(length) => Ok(length),
            Err(_) => {
                self.faults = self.faults.saturating_add(1);
                Err(Failed)
            }
        }
    }

    fn read(&mut self, area: u32, at: u64, into: &mut [u8]) -> Result<(), Failed> {
        let answered = read_from(&self.host, &self.areas[area as usize], at, into);
        self.answer(answered)
    }

    fn write_at(&mut self, area: u32, at: u64, piece: &[u8]) -> Result<(), Failed> {
        if at > LONGEST || piece.len() as u64 > LONGEST - at {
            self.faults = self.faults.saturating_add(1);
            return Err(Failed);
        }
        let answered = self.write(area, at, piece);
        self.answer(answered)
    }

    fn sync(&mut self, area: u32) -> Result<(), Failed> {
        let answered = self.sync_writer(area);
        self.answer(answered)
    }

    fn blank(&mut self, area: u32) -> Result<(), Failed> {
        let answered = self.put_blank(area);
        self.writers[area as usize] = None;
        self.answer(answered)
    }

    fn maker(&mut self) -> Result<HostMaker<R>, Memory> {
        let host = self.host.clone()?;
        let folder = self.folder.clone()?;
        self.makers = self.makers.saturating_add(1);
        Ok(HostMaker::new(self.alloc, host, folder, self.makers))
    }

    fn adopt(&mut self, number: u64, sealed: HostSealed<R>) -> Result<HostReader<R>, Failed> {
        let HostSealed {
            host,
            file,
            made,
            mut path,
            size,
        } = sealed;
        if !name_adopted(&mut path, &self.folder, number) {
            self.faults = self.faults.saturating_add(1);
            return Err(Failed);
        }
        let answered = settle(&self.host, &self.folder, file, &made, &path);
        self.answer(answered)?;
        self.keep_adopted(number);
        Ok(HostReader::new(host, path, size))
    }

    fn reader(&mut self, number: u64) -> Result<HostReader<R>, DevError> {
        let opened = self.open_adopted(number);
        if let Err(DevError::Failed) = &opened {
            self.faults = self.faults.saturating_add(1);
        }
        opened
    }

    fn forget_others(&mut self, keep: &[u64]) -> Result<(), Failed> {
        let answered = self.note_others(keep);
        self.answer(answered)
    }

    fn give_back(&mut self, maker: HostMaker<R>) {
        self.faults = self.faults.saturating_add(maker.faults());
    }

    fn give_back_reader(&mut self, reader: HostReader<R>) {
        self.faults = self.faults.saturating_add(reader.faults());
    }
}
