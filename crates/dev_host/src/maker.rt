ghost use Rattle.std.specs.Prelude.{◌≡◌, ◌^◌, ◌≤◌, ◌+◌, None, OnErr};
ghost use Rattle.dev_traits.specs.Causes.{Counts};
ghost use Rattle.dev_host.specs.Silent.{silent_maker};

use crate::disk::{adopted_path, make_folder};
use dev_traits::{DevError, FileMaker, LONGEST, Memory};
use std::alloc::Global;
use std::fs::File;
use std::io;
use std::io::Write;
use std::rt::Files;

/// A file that was made under a name of its own, to be adopted.
#[derive(Drop)]
pub struct HostSealed<R: Files> {
    pub(crate) host: R,
    /// The file that was written, open until it is synced.
    pub(crate) file: R::File,
    /// Where the file lies.
    pub(crate) made: String,
    /// Has room for the path of an adopted file.
    pub(crate) path: String,
    pub(crate) size: u64,
    ghost short: { size ≤ 2 ^ 44 },
}

/// A maker of files in a folder. Each lies under a name of its own until it is adopted; an unfinished one is made
/// anew under the same name.
#[derive(Drop)]
pub struct HostMaker<R: Files> {
    alloc: Global,
    host: R,
    folder: String,
    /// Tells this maker's files from those of the folder's other makers.
    number: u64,
    files: u64,
    path: String,
    file: Option<R::File>,
    size: u64,
    faults: u64,
    ghost short: { size ≤ 2 ^ 44 },
}

// Opens a new file, or the file of a name anew.
fn open_new<R: Files>(host: &R, folder: &str, path: &str) -> io::Result<R::File> {
    make_folder(host, folder)?;
    File::create(host, path)
}

// A file with room in its path for every number that it may be adopted under.
fn sealed<R: Files + Clone>(
    alloc: Global,
    host: &R,
    file: R::File,
    folder: &str,
    made: &str,
    size: u64,
) -> Result<HostSealed<R>, Memory>
    requires { size ≤ 2 ^ 44 }
{
    let made = String::from_str(alloc, made)?;
    let path = adopted_path(alloc, folder, u64::MAX)?;
    let host = host.clone()?;
    Ok(HostSealed {
        host,
        file,
        made,
        path,
        size,
    })
}

impl<R: Files + Clone + Drop> HostMaker<R> {
    pub(crate) fn new(alloc: Global, host: R, folder: String, number: u64) -> HostMaker<R>
        ensures { result.faults ≡ 0 }
    {
        HostMaker {
            alloc,
            host,
            folder,
            number,
            files: 0,
            path: String::new(alloc),
            file: None,
            size: 0,
            faults: 0,
        }
    }

    fn fail(&mut self) -> DevError
        ensures failed { result ≡ DevError.Failed }
        ensures counts { Counts 1 self.old.faults self.new.faults }
    {
        self.faults = self.faults.saturating_add(1);
        DevError::Failed
    }
}

impl<R: Files + Clone + Drop> FileMaker for HostMaker<R> {
    ghost use Rattle.std.specs.Prelude.{is_some};

    type Sealed = HostSealed<R>;

    ghost view = { λ m. silent_maker (is_some m.file) m.faults };

    ghost sealed_bytes = { λ _. None };

    fn faults(&self) -> u64 {
        self.faults
    }

    fn start(&mut self) -> Result<(), DevError> {
        self.file = None;
        self.size = 0;
        let Ok(path) = format!(in self.alloc; "{}/m{}-{}", self.folder, self.number, self.files)
        else {
            return Err(DevError::Memory);
        };
        let Ok(file) = open_new(&self.host, &self.folder, &path) else {
            return Err(self.fail());
        };
        self.path = path;
        self.file = Some(file);
        Ok(())
    }

    fn add(&mut self, piece: &[u8]) -> Result<(), DevError> {
        if piece.len() as u64 > LONGEST - self.size {
            return Err(self.fail());
        }
        let Some(file) = &mut self.file else {
            return Err(self.fail());
        };
        if file.write_all(piece).is_err() {
            return Err(self.fail());
        }
        self.size += piece.len() as u64;
        Ok(())
    }

    fn seal(&mut self) -> Result<HostSealed<R>, DevError> {
        let Some(file) = self.file.take() else {
            return Err(self.fail());
        };
        self.files = self.files.saturating_add(1);
        match sealed(
            self.alloc,
            &self.host,
            file,
            &self.folder,
            &self.path,
            self.size,
        ) {
            Ok(sealed) => Ok(sealed),
            Err(_) => Err(DevError::Memory),
        }
    }
}
