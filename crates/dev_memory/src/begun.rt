//! A store in memory as it begins, and the images that it leaves.
ghost use Rattle.std.specs.Prelude.{◌≡◌, ◌^◌, ◌≤◌, true, length, map, IfOk, OnErr, IsFalse};
ghost use Rattle.std.specs.List.{list_all};
ghost use Rattle.dev_memory.specs.Images.{is_short_file};
ghost use Rattle.dev_memory.specs.Kept.{first_file};

use crate::call::{File, NEVER};
use crate::kept::Kept;
use crate::{Faults, Image, MemStore, SharedBytes};
use dev_traits::Memory;
use pk_values::Octets;
use std::alloc::Global;
use std::sync::Arc;

// The files of an image, adopted before any call.
fn files_of(alloc: Global, entries: Vec<(u64, Octets)>) -> Result<Vec<File>, Memory>
    requires { list_all is_short_file entries.items ≡ true }
    ensures { IfOk result (λ files. files.items ≡ map first_file entries.items) }
{
    let mut files = Vec::new(alloc);
    for (number, text) in entries {
        let bytes = SharedBytes::new(alloc, text.into_vec(alloc)?)?;
        files.push(File {
            number,
            bytes,
            from: 0,
            until: NEVER,
        })?;
    }
    Ok(files)
}

impl MemStore {
    ghost use Rattle.dev_memory.specs.Disk.{settled_by};
    ghost use Rattle.dev_memory.specs.Kept.{at_first};
    ghost use Rattle.std.specs.Prelude.{Some};
    ghost use Rattle.dev_memory.specs.Crash.{AreSynced};
    ghost use Rattle.dev_memory.specs.Images.{image_of, IsShort};
    ghost use Rattle.std.specs.Prelude.{MatchBool};
    ghost use Rattle.std.specs.FinMap.{get};
    ghost use Rattle.dev_memory.specs.Spoils.{HasNoByte, Spoils};
    ghost use Rattle.dev_memory.specs.Store.{Begins, Lists, empty_image, held_of, disk_of, view_of, SameCounts};
    ghost use Rattle.dev_memory.specs.Store.{Uncounted};

    /// A store of three empty areas, without a file.
    pub fn new(alloc: Global, faults: Faults) -> Result<MemStore, Memory>
        ensures begins { IfOk result (λ store. Begins empty_image (view_of store)) }
        ensures listed { IfOk result (λ store. Lists faults store) }
    {
        let mut areas = Vec::new(alloc);
        areas.push(Octets::from_slice(alloc, b"")?)?;
        areas.push(Octets::from_slice(alloc, b"")?)?;
        areas.push(Octets::from_slice(alloc, b"")?)?;
        let files = Vec::new(alloc);
        MemStore::of_image(alloc, Image { areas, files }, faults)
    }

    /// One of the images that a crash now may leave, by number: the image as it reads for 0, and for 1 each area as
    /// it was at its last sync.
    ///
    /// A number below 8 does the same to each write since the last sync of its area, and to each blanking that
    /// failed: 0 as it reads, 1 nothing of it, 2 the old bytes with the new length, 3 the first half of it, 4 the
    /// second half, 5 all of it also where it failed, 6 its bytes turned, 7 the old bytes turned. A greater number
    /// has a digit to the base of 8 for each call in turn, from another one on for each area. By an odd number, files
    /// that were forgotten are there.
    pub fn image(&self, alloc: Global, pick: u64) -> Result<Image, Memory>
        ensures left { IfOk result (λ image. (view_of self.now).may_leave (image_of image)) }
        ensures read { pick ≡ 0 → IfOk result (λ image. (view_of self.now).seen ≡ Some (image_of image)) }
        ensures synced { pick ≡ 1 → IfOk result (λ image. AreSynced (disk_of self.now) (image_of image)) }
        ensures three { IfOk result (λ image. length image.areas.items ≡ 3) }
        ensures short { IfOk result IsShort }
    {
        self.kept.image(alloc, pick)
    }

    /// Changes the byte at a place of an adopted file, and answers true: the store isn't honest from then on, reads
    /// the changed file, and leaves it in crashes, too. A reader in hand still reads the bytes from before. It
    /// answers false, and changes nothing, where there is no such file or place.
    ///
    /// # Errors
    /// Want of memory for a copy of the file. Nothing is changed then.
    pub fn spoil(&mut self, number: u64, at: u64, byte: u8) -> Result<bool, Memory>
        ensures spoilt { IfOk result (λ spoilt. MatchBool spoilt (Spoils number at byte (disk_of self.old)
            (disk_of self.new)) (HasNoByte at (get (disk_of self.old).files number))) }
        ensures honest { IfOk result (λ spoilt. MatchBool spoilt (IsFalse (view_of self.new).is_honest)
            ((view_of self.new).is_honest ≡ (view_of self.old).is_honest)) }
        ensures same { IfOk result (λ spoilt. IsFalse spoilt → held_of self.new ≡ held_of self.old) }
        ensures memory { OnErr result ((held_of self.new ≡ held_of self.old)
            × ((view_of self.new).is_honest ≡ (view_of self.old).is_honest)) }
        ensures counts { SameCounts (view_of self.old) (view_of self.new) }
        ensures uncounted { Uncounted self.old self.new }
    {
        let spoilt = self.kept.spoil(self.alloc, number, at, byte)?;
        self.is_honest = self.is_honest && !spoilt;
        Ok(spoilt)
    }

    /// A store that a crash left as this image: three areas, and none of them and no file above 2^44 bytes. Of each
    /// number the first file counts.
    pub fn of_image(alloc: Global, image: Image, faults: Faults) -> Result<MemStore, Memory>
        requires three { length image.areas.items ≡ 3 }
        requires short { IsShort image }
        ensures begins { IfOk result (λ store. Begins (image_of image) (view_of store)) }
        ensures listed { IfOk result (λ store. Lists faults store) }
    {
        let files = files_of(alloc, image.files)?;
        let kept = Kept::new(alloc, image.areas, files)?;
        let maker_fails = Arc::new(alloc, faults.maker)?;
        let reader_fails = Arc::new(alloc, faults.reader)?;
        Ok(MemStore {
            alloc,
            kept,
            fails: faults.store,
            stop: faults.stop,
            maker_fails,
            reader_fails,
            count: 0,
            faults: 0,
            is_honest: true,
        })
    }
}
