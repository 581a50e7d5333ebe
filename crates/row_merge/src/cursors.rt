ghost use Rattle.std.specs.Prelude.{◌≡◌, [], IfSome, IfNone, IsTrue, drop};
ghost use Rattle.pk_values.specs.Schemas.{fits_row};
ghost use Rattle.row_merge.specs.Cursors.{CursorView, due, Fit};
ghost use Rattle.row_merge.specs.Merge.{comes_before, head_of};

use pk_values::{Row, Schema};
use segment_form::is_below;
use std::alloc::Global;
use std::collections::VecDeque;
use std::marker::Model;

/// Where a scan stands in a part: the rows at hand, which are next, and the block behind them.
#[derive(Drop)]
pub struct Cursor {
    rows: VecDeque<Row>,
    ahead: Option<u32>,
}

impl Model for Cursor {
    ghost use Rattle.row_merge.specs.Cursors.{CursorView};

    ghost Value = { CursorView };

    ghost view = { λ c. record { rows = c.rows.items; ahead = c.ahead } };
}

impl Cursor {
    /// No row is at hand. It takes no memory.
    pub fn before(alloc: Global, ahead: Option<u32>) -> Cursor
        ensures { result ≡ record { rows = []; ahead = ahead } }
    {
        Cursor {
            rows: VecDeque::new(alloc),
            ahead,
        }
    }

    /// These rows are at hand, and the block stands behind them.
    pub fn at(rows: Vec<Row>, ahead: Option<u32>) -> Cursor
        ensures { result ≡ record { rows = rows.items; ahead = ahead } }
    {
        Cursor {
            rows: VecDeque::from(rows),
            ahead,
        }
    }

    /// The block that has to be read before the next row can be told.
    pub fn due(&self) -> Option<u32>
        ensures { result ≡ due self.now }
    {
        if self.rows.is_empty() {
            self.ahead
        } else {
            None
        }
    }

    /// The first row at hand.
    fn first(&self) -> Option<&Row>
        ensures some { IfSome result (λ row. head_of self.now.rows ≡ Some row.now) }
        ensures none { IfNone result (head_of self.now.rows ≡ None) }
    {
        self.rows.front()
    }

    /// Takes the first row at hand.
    pub fn pop(&mut self) -> Option<Row>
        ensures row { result ≡ head_of self.old.rows }
        ensures rest { self.new ≡ record { rows = drop 1 self.old.rows; ahead = self.old.ahead } }
    {
        self.rows.pop_front()
    }

    /// Whether the first row at hand comes before another cursor's by its key, or that one has none.
    pub fn comes_before(&self, schema: &Schema, other: &Cursor) -> bool
        requires fits { Fit schema.now self.now }
        requires other_fits { Fit schema.now other.now }
        ensures { result ≡ comes_before schema.now (head_of self.now.rows) (head_of other.now.rows) }
    {
        match self.first() {
            None => false,
            Some(row) => match other.first() {
                None => true,
                Some(next) => is_below(schema, row, next),
            },
        }
    }
}
