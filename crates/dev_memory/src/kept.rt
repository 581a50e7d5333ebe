ghost use Rattle.std.specs.Prelude.{◌≡◌, ◌+◌, ◌^◌, ◌≤◌, ◌<◌, ◌++◌, ◌∷◌, [], ℕ, true, false, nat_eq, ◌&&◌, map};
ghost use Rattle.std.specs.Prelude.{length, option_map, vec_len, vec_capacity, OnOk, OnErr, IfOk, IsFalse, MatchBool};
ghost use Rattle.dev_memory.specs.Spoils.{ChangesFile, ChangesOne, HasNoByte, Spoils};
ghost use Rattle.std.specs.FinMap.{get};
ghost use Rattle.std.specs.Ordering.{nat_cmp};
ghost use Rattle.std.specs.List.{list_all};
ghost use Rattle.std.specs.List.Sorted.{IsStrictlyIncreasing};
ghost use Rattle.std.specs.FinMap.Entries.{find};
ghost use Rattle.dev_traits.specs.Image.{area_of};
ghost use Rattle.dev_memory.specs.Areas.{bytes_in, has_room};
ghost use Rattle.dev_memory.specs.Disk.{Wrote, Synced, Blanked, ChangedFiles, disk_now, read_of, entries_at};
ghost use Rattle.dev_memory.specs.Disk.{stands_at, is_in, closed, never, settled_by, is_short};
ghost use Rattle.dev_memory.specs.Images.{is_short_file, IsShort};

use crate::area::Area;
use crate::call::{Call, File, NEVER};
use crate::crash::area_left;
use crate::image::{append, three};
use crate::left_files::files_left;
use crate::{Image, SharedBytes};
use dev_traits::Memory;
use pk_values::Octets;
use std::alloc::Global;
use std::marker::Model;

/// What a store keeps: its areas as they were at first and as they read, each call that wrote, and the files.
/// Contracts see the calls since the first, as deeds, and for how many more calls and bytes there is memory.
#[derive(Drop)]
pub struct Kept {
    start: Vec<Octets>,
    areas: Vec<Area>,
    calls: Vec<Call>,
    pieces: Vec<u8>,
    files: Vec<File>,
    spare_calls: u64,
    spare_bytes: u64,
}

impl Model for Kept {
    ghost use Rattle.std.specs.Prelude.{◌-◌, vec_len, vec_capacity};
    ghost use Rattle.dev_memory.specs.Kept.{KeptView, IsKept, held};

    ghost Value = { KeptView };

    ghost view = { λ k. record {
      held = held k.start.items k.pieces.items k.calls.items k.files.items;
      spare_calls =
          k.spare_calls;
      spare_bytes = k.spare_bytes;
    } };

    ghost invariant = { λ k. IsKept k.start.items k.areas.items k.calls.items k.pieces.items k.files.items
        (vec_capacity k.calls - vec_len k.calls) (vec_capacity k.files - vec_len k.files)
        (vec_capacity k.pieces - vec_len k.pieces) k.spare_calls k.spare_bytes };
}

// Whether a file stood adopted after so many calls.
pub(crate) fn stands(file: &File, calls: u64) -> bool
    ensures { result ≡ stands_at calls file.now }
{
    file.from <= calls && (calls < file.until || file.until == NEVER)
}

fn is_standing(file: &File, number: u64, calls: u64) -> bool
    ensures { result ≡ (nat_eq file.now.number number && stands_at calls file.now) }
{
    file.number == number && stands(file, calls)
}

// The bytes of the first file of a number that stood adopted after so many calls.
fn find_file(files: &[File], number: u64, calls: u64) -> Option<&SharedBytes>
    ensures { option_map (λ b. b.now) result ≡ find nat_cmp number (entries_at calls files.now) }
{
    for i in 0..files.len() {
        let file = &files[i];
        if is_standing(file, number, calls) {
            return Some(&file.bytes);
        }
    }
    None
}

// Whether a number is in a rising list.
fn is_listed(list: &[u64], number: u64) -> bool
    requires { IsStrictlyIncreasing list.now }
    ensures { result ≡ is_in list.now number }
{
    list.binary_search(&number).is_ok()
}

fn close(file: &mut File, keep: &[u64], now: u64)
    requires { IsStrictlyIncreasing keep.now }
    ensures { file.new ≡ closed keep.now now file.old }
{
    if file.until == NEVER && !is_listed(keep, file.number) {
        file.until = now;
    }
}

// Ends each file outside a rising list by the call of a number.
fn close_others(files: &mut [File], keep: &[u64], now: u64)
    requires { IsStrictlyIncreasing keep.now }
    ensures { files.new ≡ map (closed keep.now now) files.old }
{
    for i in 0..files.len() {
        close(&mut files[i], keep, now);
    }
}

// Changes a byte of a file, and tells whether it has one there.
fn change(alloc: Global, file: &mut File, at: u64, byte: u8) -> Result<bool, Memory>
    ensures changed { IfOk result (λ changed. MatchBool changed (ChangesFile at byte file.old file.new)
        (length file.old.bytes ≤ at)) }
    ensures same { IfOk result (λ changed. IsFalse changed → file.new ≡ file.old) }
    ensures memory { OnErr result (file.new ≡ file.old) }
{
    if at >= file.bytes.as_slice().len() as u64 {
        return Ok(false);
    }
    file.bytes.change(alloc, at as usize, byte)?;
    Ok(true)
}

// Changes a byte of the file that is read under a number, and tells whether there is one.
fn change_file(
    alloc: Global,
    files: &mut [File],
    number: u64,
    calls: u64,
    at: u64,
    byte: u8,
) -> Result<bool, Memory>
    ensures changed { IfOk result (λ changed. MatchBool changed
        (ChangesOne number calls at byte files.old files.new) (HasNoByte at (find nat_cmp number
        (entries_at calls files.old)))) }
    ensures same { IfOk result (λ changed. IsFalse changed → files.new ≡ files.old) }
    ensures memory { OnErr result (files.new ≡ files.old) }
{
    for i in 0..files.len() {
        if is_standing(&files[i], number, calls) {
            return change(alloc, &mut files[i], at, byte);
        }
    }
    Ok(false)
}

// Takes memory for so many bytes more in each area.
fn reserve_all(areas: &mut [Area], more: usize) -> Result<(), Memory>
    ensures same { map bytes_in areas.new ≡ map bytes_in areas.old }
    ensures kept { (room : ℕ) → list_all (has_room room) areas.old ≡ true → list_all (has_room room) areas.new ≡ true }
    ensures room { OnOk result (list_all (has_room more) areas.new ≡ true) }
{
    for i in 0..areas.len() {
        let area = &mut areas[i];
        area.reserve(more)?;
    }
    Ok(())
}

// Areas with these bytes.
fn areas_of(alloc: Global, start: &[Octets]) -> Result<Vec<Area>, Memory>
    requires { list_all is_short start.now ≡ true }
    ensures { IfOk result (λ areas. map bytes_in areas.items ≡ start.now) }
{
    let mut areas = Vec::new(alloc);
    for bytes in start {
        let copy = Vec::from_slice(alloc, bytes.as_slice())?;
        areas.push(Area::new(copy)?)?;
    }
    Ok(areas)
}

impl Kept {
    ghost use Rattle.dev_memory.specs.Crash.{Left, AreSynced};
    ghost use Rattle.dev_memory.specs.Disk.{area_disk, IsImage};
    ghost use Rattle.dev_memory.specs.Images.{image_of};
    ghost use Rattle.dev_memory.specs.Kept.{grown, with_files, at_first, has_short_bytes, IsValid, IsNewFile};

    /// Three areas with these bytes, and these files, before any call.
    pub fn new(alloc: Global, start: Vec<Octets>, files: Vec<File>) -> Result<Kept, Memory>
        requires three { length start.items ≡ 3 }
        requires short { list_all is_short start.items ≡ true }
        requires short_files { list_all has_short_bytes files.items ≡ true }
        requires settled { list_all (settled_by 0) files.items ≡ true }
        ensures held { IfOk result (λ kept. kept.held ≡ at_first start.items files.items) }
        ensures valid { IfOk result (λ kept. IsValid kept.held) }
    {
        let areas = areas_of(alloc, &start)?;
        Ok(Kept {
            start,
            areas,
            calls: Vec::new(alloc),
            pieces: Vec::new(alloc),
            files,
            spare_calls: 0,
            spare_bytes: 0,
        })
    }

    /// The bytes of an area as it reads.
    pub fn area(&self, area: u32) -> &[u8]
        requires { area < 3 }
        ensures bytes { result.now ≡ area_of (read_of (disk_now self.now.held)) area }
        ensures short { length result.now ≤ 2 ^ 44 }
    {
        self.areas[area as usize].as_slice()
    }

    /// The bytes of an adopted file.
    pub fn file(&self, number: u64) -> Option<&SharedBytes>
        ensures { option_map (λ b. b.now) result ≡ find nat_cmp number (entries_at
            (length self.now.held.deeds) self.now.held.files) }
    {
        find_file(&self.files, number, self.calls.len() as u64)
    }

    // What a crash may leave of an area, by number.
    fn left(&self, alloc: Global, area: u32, pick: u64) -> Result<Octets, Memory>
        requires { area < 3 }
        ensures left { IfOk result (λ left. Left pick (area_disk (disk_now self.now.held) area) left) }
        ensures short { IfOk result (λ left. length left ≤ 2 ^ 44) }
    {
        if pick == 0 {
            return Octets::from_slice(alloc, self.area(area));
        }
        let start = self.start[area as usize].as_slice();
        area_left(alloc, start, &self.calls, &self.pieces, area, pick)
    }

    /// What a crash now may leave, by number.
    pub fn image(&self, alloc: Global, pick: u64) -> Result<Image, Memory>
        ensures left { IfOk result (λ image. IsImage (disk_now self.now.held) (image_of image)) }
        ensures read { pick ≡ 0 → IfOk result (λ image. image_of image ≡ read_of (disk_now self.now.held)) }
        ensures synced { pick ≡ 1 → IfOk result (λ image. AreSynced (disk_now self.now.held) (image_of image)) }
        ensures three { IfOk result (λ image. length image.areas.items ≡ 3) }
        ensures short { IfOk result IsShort }
    {
        let first = self.left(alloc, 0, pick)?;
        let second = self.left(alloc, 1, pick)?;
        let third = self.left(alloc, 2, pick)?;
        let areas = three(alloc, first, second, third)?;
        let files = files_left(alloc, &self.files, self.calls.len() as u64, pick)?;
        Ok(Image { areas, files })
    }

    /// Takes memory for so many calls more, with so many bytes in them.
    pub fn room(&mut self, calls: u64, bytes: u64) -> Result<(), Memory>
        ensures same { self.new.held ≡ self.old.held }
        ensures calls { OnOk result (calls ≤ self.new.spare_calls) }
        ensures bytes { OnOk result (bytes ≤ self.new.spare_bytes) }
        ensures kept_calls { self.old.spare_calls ≤ self.new.spare_calls }
        ensures kept_bytes { self.old.spare_bytes ≤ self.new.spare_bytes }
        ensures memory { calls ≤ self.old.spare_calls → bytes ≤ self.old.spare_bytes → OnErr result ⊥ }
    {
        if calls <= self.spare_calls && bytes <= self.spare_bytes {
            return Ok(());
        }
        self.calls.reserve(calls as usize)?;
        self.files.reserve(calls as usize)?;
        self.pieces.reserve(bytes as usize)?;
        reserve_all(&mut self.areas, bytes as usize)?;
        self.spare_calls = self.spare_calls.max(calls);
        self.spare_bytes = self.spare_bytes.max(bytes);
        Ok(())
    }

    /// A write that is done.
    pub fn write(&mut self, area: u32, at: u64, piece: &[u8])
        requires there { area < 3 }
        requires calls { 1 ≤ self.old.spare_calls }
        requires bytes { length piece.now ≤ self.old.spare_bytes }
        requires some { 1 ≤ length (area_of (read_of (disk_now self.old.held)) area) }
        requires inside { at ≤ length (area_of (read_of (disk_now self.old.held)) area) }
        requires short { at + length piece.now ≤ 2 ^ 44 }
        ensures valid { IsValid self.new.held }
        ensures written { self.new.held ≡ grown self.old.held (Wrote area at piece.now true) }
        ensures calls { self.old.spare_calls ≡ self.new.spare_calls + 1 }
        ensures bytes { self.old.spare_bytes ≡ self.new.spare_bytes + length piece.now }
    {
        self.calls
            .push_reserved(Call::Write(area, at, piece.len(), true));
        append(&mut self.pieces, piece);
        self.spare_calls -= 1;
        self.spare_bytes -= piece.len() as u64;
        let written = &mut self.areas[area as usize];
        written.write(at as usize, piece);
    }

    /// A write that failed.
    pub fn fail_write(&mut self, area: u32, at: u64, piece: &[u8])
        requires there { area < 3 }
        requires calls { 1 ≤ self.old.spare_calls }
        requires bytes { length piece.now ≤ self.old.spare_bytes }
        ensures valid { IsValid self.new.held }
        ensures written { self.new.held ≡ grown self.old.held (Wrote area at piece.now false) }
        ensures calls { self.old.spare_calls ≡ self.new.spare_calls + 1 }
        ensures bytes { self.old.spare_bytes ≡ self.new.spare_bytes + length piece.now }
    {
        self.calls
            .push_reserved(Call::Write(area, at, piece.len(), false));
        append(&mut self.pieces, piece);
        self.spare_calls -= 1;
        self.spare_bytes -= piece.len() as u64;
    }

    pub fn sync(&mut self, area: u32)
        requires there { area < 3 }
        requires calls { 1 ≤ self.old.spare_calls }
        ensures valid { IsValid self.new.held }
        ensures synced { self.new.held ≡ grown self.old.held (Synced area) }
        ensures calls { self.old.spare_calls ≡ self.new.spare_calls + 1 }
        ensures bytes { self.old.spare_bytes ≡ self.new.spare_bytes }
    {
        self.calls.push_reserved(Call::Sync(area));
        self.spare_calls -= 1;
    }

    /// A blanking that is done.
    pub fn blank(&mut self, area: u32)
        requires there { area < 3 }
        requires calls { 1 ≤ self.old.spare_calls }
        ensures valid { IsValid self.new.held }
        ensures blanked { self.new.held ≡ grown self.old.held (Blanked area true) }
        ensures calls { self.old.spare_calls ≡ self.new.spare_calls + 1 }
        ensures bytes { self.old.spare_bytes ≡ self.new.spare_bytes }
    {
        self.calls.push_reserved(Call::Blank(area, true));
        self.spare_calls -= 1;
        let blanked = &mut self.areas[area as usize];
        blanked.blank();
    }

    /// A blanking that failed.
    pub fn fail_blank(&mut self, area: u32)
        requires there { area < 3 }
        requires calls { 1 ≤ self.old.spare_calls }
        ensures valid { IsValid self.new.held }
        ensures blanked { self.new.held ≡ grown self.old.held (Blanked area false) }
        ensures calls { self.old.spare_calls ≡ self.new.spare_calls + 1 }
        ensures bytes { self.old.spare_bytes ≡ self.new.spare_bytes }
    {
        self.calls.push_reserved(Call::Blank(area, false));
        self.spare_calls -= 1;
    }

    pub fn adopt(&mut self, number: u64, bytes: SharedBytes)
        requires calls { 1 ≤ self.old.spare_calls }
        requires short { length bytes ≤ 2 ^ 44 }
        ensures valid { IsValid self.new.held }
        ensures adopted { (f : _) × IsNewFile number bytes (length self.old.held.deeds + 1) f
            × (self.new.held ≡ with_files (grown self.old.held ChangedFiles) (self.old.held.files ++ f ∷ [])) }
        ensures calls { self.old.spare_calls ≡ self.new.spare_calls + 1 }
        ensures bytes { self.old.spare_bytes ≡ self.new.spare_bytes }
    {
        let from = self.calls.len() as u64 + 1;
        self.calls.push_reserved(Call::OnFiles);
        self.files.push_reserved(File {
            number,
            bytes,
            from,
            until: NEVER,
        });
        self.spare_calls -= 1;
    }

    /// Forgets each file outside a rising list.
    pub fn forget_others(&mut self, keep: &[u64])
        requires calls { 1 ≤ self.old.spare_calls }
        requires rising { IsStrictlyIncreasing keep.now }
        ensures valid { IsValid self.new.held }
        ensures short { (length self.old.held.deeds + 1 ≡ never) → ⊥ }
        ensures forgot { self.new.held ≡ with_files (grown self.old.held ChangedFiles) (map (closed keep.now
            (length self.old.held.deeds + 1)) self.old.held.files) }
        ensures calls { self.old.spare_calls ≡ self.new.spare_calls + 1 }
        ensures bytes { self.old.spare_bytes ≡ self.new.spare_bytes }
    {
        let now = self.calls.len() as u64 + 1;
        self.calls.push_reserved(Call::OnFiles);
        close_others(&mut self.files, keep, now);
        self.spare_calls -= 1;
    }

    /// Changes a byte of an adopted file, and tells whether there is one.
    pub fn spoil(&mut self, alloc: Global, number: u64, at: u64, byte: u8) -> Result<bool, Memory>
        ensures valid { IsValid self.new.held }
        ensures spoilt { IfOk result (λ spoilt. MatchBool spoilt (Spoils number at byte (disk_now self.old.held)
            (disk_now self.new.held)) (HasNoByte at (get (disk_now self.old.held).files number))) }
        ensures same { IfOk result (λ spoilt. IsFalse spoilt → self.new.held ≡ self.old.held) }
        ensures memory { OnErr result (self.new.held ≡ self.old.held) }
        ensures deeds { self.new.held.deeds ≡ self.old.held.deeds }
        ensures calls { self.new.spare_calls ≡ self.old.spare_calls }
        ensures bytes { self.new.spare_bytes ≡ self.old.spare_bytes }
    {
        let calls = self.calls.len() as u64;
        change_file(alloc, &mut self.files, number, calls, at, byte)
    }
}
