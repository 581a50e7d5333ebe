ghost use Rattle.std.specs.Prelude.{◌≡◌, ◌==◌, IfOk, [], length};
ghost use Rattle.std.specs.List.{list_any};
ghost use Rattle.rowsets.specs.Marks.{with_rows};
ghost use Rattle.del_vector.specs.DeadRows.{AreDeadRows};

use crate::places::is_one_of;
use crate::unions::union;
use dev_traits::Memory;
use std::alloc::Global;
use std::marker::Model;
use std::sync::Arc;

// Rising rows with several owners, none of whom sees them change. Contracts see the rows.
#[derive(Drop)]
struct Shared {
    rows: Arc<Vec<u16>, Global>,
}

impl Model for Shared {
    ghost use Rattle.std.specs.Prelude.{List, ℕ};
    ghost use Rattle.std.specs.Arc.{arc_value};
    ghost use Rattle.del_vector.specs.DeadRows.{AreDeadRows};

    ghost Value = { List ℕ };

    ghost view = { λ s. (arc_value s.rows).items };

    ghost invariant = { λ s. AreDeadRows (arc_value s.rows).items };
}

impl Shared {
    fn new(alloc: Global, rows: Vec<u16>) -> Result<Shared, Memory>
        requires { AreDeadRows rows.items }
        ensures { IfOk result (λ shared. shared ≡ rows.items) }
    {
        Ok(Shared {
            rows: Arc::new(alloc, rows)?,
        })
    }

    fn another(&self) -> Result<Shared, Memory>
        ensures { IfOk result (λ other. other ≡ self.now) }
    {
        Ok(Shared {
            rows: Arc::try_clone(&self.rows)?,
        })
    }

    fn as_slice(&self) -> &[u16]
        ensures rows { result.now ≡ self.now }
        ensures dead { AreDeadRows self.now }
    {
        self.rows.as_slice()
    }
}

/// The dead rows of a file, which contracts see as a rising list of rows below 65,536. No call
/// changes one: where rows die, `with` makes another, so that an older version keeps its own.
#[derive(Drop)]
pub struct DelVector {
    // None where no row is dead.
    shared: Option<Shared>,
}

impl Model for DelVector {
    ghost use Rattle.std.specs.Prelude.{List, ℕ, [], unwrap_or};
    ghost use Rattle.del_vector.specs.DeadRows.{AreDeadRows};

    ghost Value = { List ℕ };

    ghost view = { λ d. unwrap_or d.shared [] };

    ghost invariant = { λ d. AreDeadRows (unwrap_or d.shared []) };
}

impl DelVector {
    /// No row is dead. It takes no memory.
    pub fn empty() -> DelVector
        ensures { result ≡ [] }
    {
        DelVector { shared: None }
    }

    fn as_slice(&self) -> &[u16]
        ensures rows { result.now ≡ self.now }
        ensures dead { AreDeadRows self.now }
    {
        match &self.shared {
            Some(shared) => shared.as_slice(),
            None => &[],
        }
    }

    /// Whether a row is dead.
    pub fn contains(&self, row: u32) -> bool
        ensures contains { result ≡ list_any (λ r. r == row) self.now }
        ensures dead { AreDeadRows self.now }
    {
        let dead = self.as_slice();
        row < 65536 && is_one_of(dead, row as u16)
    }

    /// How many rows are dead, at most 65,536.
    pub fn count(&self) -> u32
        ensures count { result ≡ length self.now }
        ensures dead { AreDeadRows self.now }
    {
        self.as_slice().len() as u32
    }

    /// The dead rows, and these.
    pub fn with(&self, alloc: Global, rows: &[u32]) -> Result<DelVector, Memory>
        requires { AreDeadRows rows.now }
        ensures { IfOk result (λ united. united ≡ with_rows rows.now self.now) }
    {
        let united = union(alloc, rows, self.as_slice())?;
        Ok(DelVector {
            shared: Some(Shared::new(alloc, united)?),
        })
    }

    /// The same dead rows, which both share. It is refused only where there are as many owners as
    /// can be counted.
    pub fn copy(&self) -> Result<DelVector, Memory>
        ensures { IfOk result (λ copy. copy ≡ self.now) }
    {
        match &self.shared {
            Some(shared) => Ok(DelVector {
                shared: Some(shared.another()?),
            }),
            None => Ok(DelVector::empty()),
        }
    }

    /// The dead rows as a list.
    pub fn rows(&self, alloc: Global) -> Result<Vec<u32>, Memory>
        ensures rows { IfOk result (λ rows. rows.items ≡ self.now) }
        ensures dead { AreDeadRows self.now }
    {
        let dead = self.as_slice();
        let mut rows = Vec::with_capacity(alloc, dead.len())?;
        for row in dead {
            rows.push(u32::from(*row))?;
        }
        Ok(rows)
    }
}
