ghost use Rattle.std.specs.Prelude.{◌≡◌, [], ◌∷◌, ◌++◌, length, IfSome, IfNone, T, IfOk, OnOk, false};
ghost use Rattle.std.specs.Option.{option_to_list};

use pk_values::{Key, Row};
use std::alloc::{AllocError, Global};
use std::collections::VecDeque;

// Keys beside their rows, which a merge writes in the order of the keys.
#[derive(Drop)]
pub struct Run {
    pub keys: Vec<Key>,
    pub rows: Vec<Row>,
    ghost even: { length keys.items ≡ length rows.items },
}

// Keys beside their rows, which a merge has still to read.
#[derive(Drop)]
pub struct Rest {
    pub keys: VecDeque<Key>,
    pub rows: VecDeque<Row>,
    ghost even: { length keys.items ≡ length rows.items },
}

impl Run {
    ghost use Rattle.std.specs.FinMap.{is_sorted};
    ghost use Rattle.pk_values.specs.Order.{key_cmp};
    ghost use Rattle.pk_model.specs.Runs.{written, unread, are_below, are_up_to, begins_up_to, ends_at};

    pub fn new(alloc: Global) -> Run
        ensures { written result ≡ [] }
    {
        Run {
            keys: Vec::new(alloc),
            rows: Vec::new(alloc),
        }
    }

    // An empty run with room for so many rows.
    pub fn with_room(alloc: Global, room: usize) -> Result<Run, AllocError>
        ensures { IfOk result (λ run. written run ≡ []) }
    {
        let keys = Vec::with_capacity(alloc, room)?;
        let rows = Vec::with_capacity(alloc, room)?;
        Ok(Run { keys, rows })
    }

    pub fn len(&self) -> usize
        ensures { result ≡ length (written self.now) }
    {
        self.keys.len()
    }

    pub fn copy(&self, alloc: Global) -> Result<Run, AllocError>
        ensures { IfOk result (λ run. written run ≡ written self.now) }
    {
        let keys = copy_keys(alloc, &self.keys)?;
        let rows = copy_rows(alloc, &self.rows)?;
        Ok(Run { keys, rows })
    }

    pub fn push(&mut self, key: Key, row: Row) -> Result<(), AllocError>
        ensures { OnOk result (written self.new ≡ written self.old ++ (key, row) ∷ []) }
    {
        self.keys.reserve(1)?;
        self.rows.reserve(1)?;
        self.keys.push_reserved(key);
        self.rows.push_reserved(row);
        Ok(())
    }

    // Takes the last row off where it stands at this key.
    pub fn take(&mut self, key: &Key) -> Option<Row>
        ensures found { IfSome result (λ row. written self.old ≡ written self.new ++ (key.now, row) ∷ []) }
        ensures kept { IfNone result (written self.new ≡ written self.old) }
        ensures below { T (is_sorted key_cmp (written self.old)) → T (are_up_to key.now (written self.old))
            → T (are_below key.now (written self.new)) }
    {
        if !self.ends_at(key) {
            return None;
        }
        self.keys.pop();
        self.rows.pop()
    }

    // Whether the last row stands at this key.
    fn ends_at(&self, key: &Key) -> bool
        ensures { result ≡ ends_at key.now (written self.now) }
    {
        match self.keys.last() {
            Some(last) => *last == *key,
            None => false,
        }
    }

    // Moves what has still to be read behind what is written.
    pub fn append(&mut self, mut rest: Rest) -> Result<(), AllocError>
        ensures { OnOk result (written self.new ≡ written self.old ++ unread rest) }
    {
        while let Some((key, row)) = rest.pop() {
            self.push(key, row)?;
        }
        Ok(())
    }

    // Moves the rows up to a key behind what is written.
    pub fn advance(&mut self, rest: &mut Rest, key: &Key) -> Result<(), AllocError>
        ensures same { OnOk result (written self.new ++ unread rest.new ≡ written self.old ++ unread rest.old) }
        ensures behind { OnOk result (T (are_up_to key.now (written self.old))
            → T (are_up_to key.now (written self.new))) }
        ensures stops { OnOk result (begins_up_to key.now (unread rest.new) ≡ false) }
    {
        while let Some((key, row)) = rest.next_up_to(key) {
            self.push(key, row)?;
        }
        Ok(())
    }
}

impl Rest {
    ghost use Rattle.std.specs.Ordering.{is_le};
    ghost use Rattle.pk_values.specs.Order.{key_cmp};
    ghost use Rattle.pk_model.specs.Runs.{written, unread, begins_up_to};

    pub fn from_run(run: Run) -> Rest
        ensures { unread result ≡ written run }
    {
        let Run { keys, rows } = run;
        Rest {
            keys: VecDeque::from(keys),
            rows: VecDeque::from(rows),
        }
    }

    pub fn pop(&mut self) -> Option<(Key, Row)>
        ensures pairs { unread self.old ≡ option_to_list result ++ unread self.new }
        ensures none { IfNone result (unread self.old ≡ []) }
    {
        let key = self.keys.pop_front()?;
        let row = self.rows.pop_front()?;
        Some((key, row))
    }

    // The next key with its row, where this key is at most the one told.
    pub fn next_up_to(&mut self, key: &Key) -> Option<(Key, Row)>
        ensures pairs { unread self.old ≡ option_to_list result ++ unread self.new }
        ensures up_to { IfSome result (λ pair. T (is_le (key_cmp pair.0 key.now))) }
        ensures past { IfNone result (begins_up_to key.now (unread self.new) ≡ false) }
    {
        if self.begins_up_to(key) {
            self.pop()
        } else {
            None
        }
    }

    fn begins_up_to(&self, key: &Key) -> bool
        ensures { result ≡ begins_up_to key.now (unread self.now) }
    {
        match self.keys.front() {
            Some(first) => *first <= *key,
            None => false,
        }
    }
}

fn copy_keys(alloc: Global, keys: &[Key]) -> Result<Vec<Key>, AllocError>
    ensures { IfOk result (λ copies. copies.items ≡ keys.now) }
{
    let mut copies = Vec::with_capacity(alloc, keys.len())?;
    for key in keys {
        copies.push(key.copy(alloc)?)?;
    }
    Ok(copies)
}

fn copy_rows(alloc: Global, rows: &[Row]) -> Result<Vec<Row>, AllocError>
    ensures { IfOk result (λ copies. copies.items ≡ rows.now) }
{
    let mut copies = Vec::with_capacity(alloc, rows.len())?;
    for row in rows {
        copies.push(row.copy(alloc)?)?;
    }
    Ok(copies)
}
