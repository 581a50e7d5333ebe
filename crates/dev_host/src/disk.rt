ghost use Rattle.std.specs.Prelude.{◌≤◌, ◌^◌, IfOk};

use dev_traits::{LONGEST, Memory};
use std::alloc::Global;
use std::fs::{File, OpenFile, OpenOptions};
use std::io::{ErrorKind, Read, Seek, SeekFrom, Write};
use std::rt::Files;
use std::{fs, io};

// The path of a name in a folder.
pub(crate) fn path_in(alloc: Global, folder: &str, name: &str) -> Result<String, Memory> {
    format!(in alloc; "{folder}/{name}")
}

// The path of the adopted file of a number.
pub(crate) fn adopted_path(alloc: Global, folder: &str, number: u64) -> Result<String, Memory> {
    format!(in alloc; "{folder}/f{number}")
}

// The length of a file that is there and not too long.
pub(crate) fn length_of<R: Files>(host: &R, path: &str) -> io::Result<u64>
    ensures { IfOk result (λ n. n ≤ 2 ^ 44) }
{
    let length = fs::metadata(host, path)?.len();
    if length > LONGEST {
        return Err(io::Error::from(ErrorKind::FileTooLarge));
    }
    Ok(length)
}

// Opens a file, reads as many bytes as the buffer has, from an offset on, and closes it.
pub(crate) fn read_from<R: Files>(
    host: &R,
    path: &str,
    at: u64,
    into: &mut [u8],
) -> io::Result<()> {
    let mut file = File::open(host, path)?;
    file.seek(SeekFrom::Start(at))?;
    file.read_exact(into)
}

// The writer of a file that is there: opened once, and kept, so that a sync tells each error of what it wrote.
fn open_writer<'a, R: Files>(
    host: &R,
    path: &str,
    writer: &'a mut Option<R::File>,
) -> io::Result<&'a mut R::File> {
    if writer.is_none() {
        *writer = Some(OpenOptions::new().write(true).open(host, path)?);
    }
    match writer {
        Some(file) => Ok(file),
        None => Err(io::Error::from(ErrorKind::NotFound)),
    }
}

// Writes at an offset of a file that is there, through its writer.
pub(crate) fn write_to<R: Files>(
    host: &R,
    path: &str,
    writer: &mut Option<R::File>,
    at: u64,
    piece: &[u8],
) -> io::Result<()> {
    let file = open_writer(host, path, writer)?;
    file.seek(SeekFrom::Start(at))?;
    file.write_all(piece)
}

// Waits until the bytes of an area are on the disk. One whose file isn't there has nothing to sync.
pub(crate) fn sync_area<R: Files>(
    host: &R,
    path: &str,
    writer: &mut Option<R::File>,
) -> io::Result<()> {
    match open_writer(host, path, writer) {
        Ok(file) => file.sync_all(),
        Err(error) if error.kind() == ErrorKind::NotFound => Ok(()),
        Err(error) => Err(error),
    }
}

// Waits until the names of a folder are on the disk.
fn sync_folder<R: Files>(host: &R, path: &str) -> io::Result<()> {
    File::open(host, path)?.sync_all()
}

// Waits until a file's bytes are on the disk, puts it in the place of another name, and syncs the folder.
pub(crate) fn settle<R: Files>(
    host: &R,
    folder: &str,
    mut file: R::File,
    from: &str,
    to: &str,
) -> io::Result<()> {
    file.sync_all()?;
    fs::rename(host, from, to)?;
    sync_folder(host, folder)
}

// The path up to a place, where it ends there or a slash follows.
fn level(path: &str, end: usize) -> Option<&str> {
    let (front, rest) = path.split_at_checked(end)?;
    if rest.is_empty() || rest.starts_with('/') {
        Some(front)
    } else {
        None
    }
}

// Makes a folder in another, and syncs the other.
fn make_in<R: Files>(host: &R, parent: &str, path: &str) -> io::Result<()> {
    fs::create_dir(host, path)?;
    sync_folder(host, parent)
}

// Makes the folder and those above it, where they aren't there yet. Of each that it makes the parent is synced.
pub(crate) fn make_folder<R: Files>(host: &R, folder: &str) -> io::Result<()> {
    if fs::metadata(host, folder).is_ok() {
        return Ok(());
    }
    let mut parent = if folder.starts_with('/') { "/" } else { "." };
    for end in 1..=folder.len() {
        if let Some(path) = level(folder, end) {
            if fs::metadata(host, path).is_err() {
                make_in(host, parent, path)?;
            }
            parent = path;
        }
    }
    Ok(())
}

// A new file of the one byte 0.
pub(crate) fn new_blank<R: Files>(host: &R, path: &str) -> io::Result<R::File> {
    let mut file = File::create(host, path)?;
    file.write_all(&[0])?;
    Ok(file)
}
