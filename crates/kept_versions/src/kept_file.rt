ghost use Rattle.std.specs.Prelude.{◌≡◌, ◌-◌, IfOk, Some, length};
ghost use Rattle.rowsets.specs.Marks.{Rises, with_rows};
ghost use Rattle.del_vector.specs.DeadRows.{AreDeadRows, AreRows};
ghost use Rattle.journal_form.specs.Versions.{whole_file};
ghost use Rattle.kept_versions.specs.Files.{row_lives};
ghost use Rattle.kept_versions.specs.Marking.{rows_live};

use del_vector::DelVector;
use dev_traits::Memory;
use journal_form::NewFile;
use std::alloc::Global;
use std::marker::Model;

/// A file of a version: its number, how many rows it has, and which of them are dead. Contracts see
/// it as the journal lists it.
#[derive(Drop)]
pub struct KeptFile {
    file: u64,
    rows: u32,
    dead: DelVector,
}

impl Model for KeptFile {
    ghost use Rattle.journal_form.specs.declared.records.ListedFile.{ListedFile};

    ghost Value = { ListedFile };

    ghost view = { λ f. record { file = f.file; rows = f.rows; dead = f.dead } };
}

impl KeptFile {
    /// A file with these dead rows.
    pub fn new(file: u64, rows: u32, dead: DelVector) -> KeptFile
        ensures file { result.file ≡ file }
        ensures rows { result.rows ≡ rows }
        ensures dead { result.dead ≡ dead }
    {
        KeptFile { file, rows, dead }
    }

    /// A new file, all of whose rows are live.
    pub fn whole(file: &NewFile) -> KeptFile
        ensures { result ≡ whole_file file.now }
    {
        KeptFile {
            file: file.file,
            rows: file.rows,
            dead: DelVector::empty(),
        }
    }

    /// Its number.
    pub fn number(&self) -> u64
        ensures { result ≡ self.now.file }
    {
        self.file
    }

    /// How many rows it has, dead ones among them.
    pub fn rows(&self) -> u32
        ensures { result ≡ self.now.rows }
    {
        self.rows
    }

    /// Its dead rows.
    pub fn dead(&self) -> &DelVector
        ensures { result.now ≡ self.now.dead }
    {
        &self.dead
    }

    /// Whether it has this row, and the row isn't dead.
    pub fn is_live(&self, row: u32) -> bool
        ensures { result ≡ row_lives (Some self.now) row }
    {
        row < self.rows && !self.dead.contains(row)
    }

    /// How many rows aren't dead.
    pub fn rows_alive(&self) -> u32
        ensures { result ≡ self.now.rows - length self.now.dead }
    {
        self.rows.saturating_sub(self.dead.count())
    }

    /// The same file once more, with the same dead rows shared.
    pub fn copy(&self) -> Result<KeptFile, Memory>
        ensures { IfOk result (λ copy. copy ≡ self.now) }
    {
        Ok(KeptFile {
            file: self.file,
            rows: self.rows,
            dead: self.dead.copy()?,
        })
    }

    /// The file with these rows dead too.
    pub(crate) fn with_dead(&self, alloc: Global, rows: &[u16]) -> Result<KeptFile, Memory>
        requires { Rises rows.now }
        ensures { IfOk result (λ marked. marked ≡ record { file = self.now.file; rows = self.now.rows; dead = with_rows rows.now self.now.dead }) }
    {
        let _dead = self.dead.count();
        let more = wide(alloc, rows)?;
        Ok(KeptFile {
            file: self.file,
            rows: self.rows,
            dead: self.dead.with(alloc, more.as_slice())?,
        })
    }

    /// Whether each of these rows is live.
    pub(crate) fn are_live(&self, rows: &[u16]) -> bool
        ensures { result ≡ rows_live self.now rows.now }
    {
        for row in rows {
            if !self.is_live(u32::from(*row)) {
                return false;
            }
        }
        true
    }
}

// Rows as numbers of 32 bits.
fn wide(alloc: Global, rows: &[u16]) -> Result<Vec<u32>, Memory>
    ensures same { IfOk result (λ wide. wide.items ≡ rows.now) }
    ensures small { IfOk result (λ wide. AreRows wide.items) }
{
    let mut wide = Vec::with_capacity(alloc, rows.len())?;
    for row in rows {
        wide.push(u32::from(*row))?;
    }
    Ok(wide)
}
