use crate::stores::{made, reads_from, write_since_a_sync};
use crate::streams::{gives, puts};
use dev_host::{HostInputs, HostReader, HostSink, HostStore};
use dev_traits::{Asked, DevError, FileMaker, Inputs, Store};
use std::fmt::Display;
use std::io::Print;
use std::test::Fail;
use std::{fs, io};

#[test]
fn reads_a_file(rt: HostRuntime) -> Result<(), Fail> {
    fs::write(&rt, "input", b"xyz".as_slice())?;
    let mut inputs = HostInputs::new(rt.clone()?);
    let takes = [
        Some(b"xy".as_slice()),
        Some(b"z".as_slice()),
        Some(b"".as_slice()),
    ];
    assert!(rt; gives(rt.alloc(), &mut inputs, "input", &takes));
    assert!(rt; matches!(inputs.ask(rt.alloc(), "nothing"), Asked::Absent));
    Ok(())
}

#[test]
fn writes_to_standard_output(rt: HostRuntime) -> Result<(), Fail> {
    let mut sink = HostSink::new(rt.clone()?);
    assert!(rt; puts(&mut sink, b"put\n", Some(4)));
    Ok(())
}

// A standard output that takes one byte at a time.
#[derive(Drop)]
struct Slow;

impl Print for Slow {
    fn print<D: Display + Drop>(&self, _value: D) -> io::Result<()> {
        Ok(())
    }

    fn println<D: Display + Drop>(&self, _value: D) -> io::Result<()> {
        Ok(())
    }

    fn write_all(&self, _bytes: &[u8]) -> io::Result<()> {
        Ok(())
    }

    fn write_some(&self, bytes: &[u8]) -> io::Result<usize> {
        Ok(bytes.len().min(1))
    }
}

#[test]
fn a_sink_tells_how_much_was_taken(rt: HostRuntime) -> Result<(), Fail> {
    let mut sink = HostSink::new(Slow);
    assert!(rt; puts(&mut sink, b"put\n", Some(1)));
    Ok(())
}

fn is_there(rt: &HostRuntime, path: &str) -> bool {
    fs::metadata(rt, path).is_ok()
}

// Whether area 0 has these bytes, at most 8, and a read past them fails.
fn has_area(store: &mut HostStore<HostRuntime>, bytes: &[u8]) -> bool {
    let mut into = [0u8; 8];
    if bytes.len() > 8 || store.length(0) != Ok(bytes.len() as u64) {
        return false;
    }
    store.read(0, 0, &mut into[..bytes.len()]).is_ok()
        && &into[..bytes.len()] == bytes
        && store.read(0, 1, &mut into[..bytes.len()]).is_err()
}

#[test]
fn keeps_areas_in_its_folder(rt: HostRuntime) -> Result<(), Fail> {
    let mut store = HostStore::new(rt.clone()?, "tablet/store")?;
    assert!(rt; store.length(0) == Ok(0) && !is_there(&rt, "tablet"));
    assert!(rt; write_since_a_sync(&mut store)?);
    assert!(rt; has_area(&mut store, b"\0abwxyz"));
    assert!(rt; store.faults() == 1);
    Ok(())
}

// A reader of a file that is made of two pieces and adopted.
fn adopted(
    store: &mut HostStore<HostRuntime>,
    number: u64,
    first: &[u8],
    second: &[u8],
) -> Option<HostReader<HostRuntime>> {
    let mut maker = store.maker().ok()?;
    let sealed = made(&mut maker, first, second).ok()?;
    store.give_back(maker);
    store.adopt(number, sealed).ok()
}

// Whether a file that is adopted has these bytes from its third on, for the reader in hand and for another.
fn adopts(
    store: &mut HostStore<HostRuntime>,
    number: u64,
    first: &[u8],
    second: &[u8],
    behind: &[u8],
) -> bool {
    match (adopted(store, number, first, second), store.reader(number)) {
        (Some(mut reader), Ok(mut other)) => {
            reads_from(&mut reader, 2, behind) && reads_from(&mut other, 2, behind)
        }
        _ => false,
    }
}

#[test]
fn keeps_files_in_its_folder(rt: HostRuntime) -> Result<(), Fail> {
    let mut store = HostStore::new(rt.clone()?, "files")?;
    assert!(rt; adopts(&mut store, 7, b"seal", b"ed", b"aled"));
    assert!(rt; adopts(&mut store, 9, b"old", b"", b"d"));
    assert!(rt; store.forget_others(&[7]).is_ok());
    assert!(rt; adopts(&mut store, 9, b"n", b"ew", b"w"));
    assert!(rt; store.faults() == 0);
    store.sweep();
    assert!(rt; is_there(&rt, "files/f7") && is_there(&rt, "files/f9"));
    Ok(())
}

// Starts a file that is never adopted.
fn starts(store: &mut HostStore<HostRuntime>) -> bool {
    match store.maker() {
        Ok(mut maker) => maker.start().is_ok(),
        Err(_) => false,
    }
}

#[test]
fn sweeps_what_is_forgotten_and_what_is_not_adopted(rt: HostRuntime) -> Result<(), Fail> {
    let mut store = HostStore::new(rt.clone()?, "swept")?;
    assert!(rt; adopts(&mut store, 7, b"a", b"bc", b"c"));
    assert!(rt; adopts(&mut store, 9, b"d", b"ef", b"f"));
    assert!(rt; starts(&mut store) && is_there(&rt, "swept/m3-0"));
    assert!(rt; store.forget_others(&[9]).is_ok() && is_there(&rt, "swept/f7"));
    store.sweep();
    assert!(rt; !is_there(&rt, "swept/f7") && !is_there(&rt, "swept/m3-0"));
    let mut again = HostStore::new(rt.clone()?, "swept")?;
    assert!(rt; matches!(again.reader(7), Err(DevError::Absent)) && again.reader(9).is_ok());
    Ok(())
}

#[test]
fn a_maker_makes_one_file_after_another(rt: HostRuntime) -> Result<(), Fail> {
    let mut store = HostStore::new(rt.clone()?, "two")?;
    let mut maker = store.maker()?;
    let first = made(&mut maker, b"fi", b"rst");
    let second = made(&mut maker, b"n", b"ext");
    store.give_back(maker);
    let (Ok(first), Ok(second)) = (first, second) else {
        assert!(rt; false);
        return Ok(());
    };
    let (Ok(mut first), Ok(mut second)) = (store.adopt(1, first), store.adopt(2, second)) else {
        assert!(rt; false);
        return Ok(());
    };
    assert!(rt; reads_from(&mut first, 0, b"first") && reads_from(&mut second, 0, b"next"));
    Ok(())
}

// What can't be opened isn't absent.
#[test]
fn a_file_in_the_place_of_the_folder_is_a_fault(rt: HostRuntime) -> Result<(), Fail> {
    fs::write(&rt, "plain", b"x".as_slice())?;
    let mut inputs = HostInputs::new(rt.clone()?);
    assert!(rt; matches!(inputs.ask(rt.alloc(), "plain/x"), Asked::Failed));
    let mut store = HostStore::new(rt.clone()?, "plain")?;
    assert!(rt; store.length(0).is_err() && store.sync(0).is_err());
    assert!(rt; matches!(store.reader(7), Err(DevError::Failed)));
    assert!(rt; store.forget_others(&[]).is_err());
    assert_eq!(rt; store.faults(), 4);
    Ok(())
}
