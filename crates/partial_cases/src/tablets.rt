use crate::opening::new_tablet;
use crate::partials::{Between, publish_behind, publish_load};
use crate::rows::current_rows;
use crate::told::reply_text;
use case_texts::bytes_of;
use core_compact::expire;
use dev_memory::{Faults, MemMaker, MemStore};
use dev_traits::Store;
use pk_values::Schema;
use schema_json::read_table;
use std::alloc::{AllocError, Global};
use tablet_state::State;

// A tablet in memory, with a maker, and how many turns it had.
#[derive(Drop)]
struct Tablet {
    state: State<MemStore>,
    maker: MemMaker,
    turns: u64,
}

/// A table, the faults of the next tablet's store, the tablet, and what is to happen between the turns of the next load.
#[derive(Drop)]
pub struct Tablets {
    table: Vec<u8>,
    faults: Faults,
    tablet: Option<Tablet>,
    between: Vec<Between>,
}

fn made(alloc: Global, table: &[u8], faults: Faults) -> Result<Option<Tablet>, AllocError> {
    let Ok(schema) = read_table(alloc, table) else {
        return Ok(None);
    };
    let mut store = MemStore::new(alloc, faults)?;
    let Ok(maker) = store.maker() else {
        return Ok(None);
    };
    Ok(new_tablet(alloc, store, schema).map(|state| Tablet {
        state,
        maker,
        turns: 0,
    }))
}

impl Tablet {
    fn load(&mut self, alloc: Global, bytes: &[u8]) -> Result<String, AllocError> {
        if bytes.len() > 67_108_864 {
            return "too long".to_string(alloc);
        }
        self.turns = self.turns.saturating_add(2);
        publish_load(alloc, &mut self.state, &mut self.maker, bytes, self.turns)
    }

    fn expire(&mut self, alloc: Global, v: u64) -> Result<String, AllocError> {
        self.turns = self.turns.saturating_add(1);
        reply_text(alloc, &expire(alloc, &mut self.state, v, self.turns))
    }

    fn partial(
        &mut self,
        alloc: Global,
        bytes: &[u8],
        between: &[Between],
        settles: bool,
    ) -> Result<String, AllocError> {
        if bytes.len() > 67_108_864 {
            return "too long".to_string(alloc);
        }
        let first = self.turns.saturating_add(1);
        self.turns = first.saturating_add(1).saturating_add(between.len() as u64);
        publish_behind(
            alloc,
            &mut self.state,
            &mut self.maker,
            bytes,
            between,
            settles,
            first,
        )
    }
}

impl Tablets {
    pub fn new(alloc: Global) -> Tablets {
        Tablets {
            table: Vec::new(alloc),
            faults: Faults::none(alloc),
            tablet: None,
            between: Vec::new(alloc),
        }
    }

    // `fails store NUMBER`, `fails maker NUMBER`, `fails reader NUMBER`, `fails stop NUMBER` and `fails none`: which call of
    // the next tablet's store, of each of its makers and of each of its readers fails, or from which call of the store on
    // each does.
    fn fails(&mut self, alloc: Global, words: &str) -> Result<String, AllocError> {
        let (call, number) = words.split_once(' ').unwrap_or((words, ""));
        match (call, number.parse::<u64>()) {
            ("store", Ok(number)) => self.faults.store.push(number)?,
            ("maker", Ok(number)) => self.faults.maker.push(number)?,
            ("reader", Ok(number)) => self.faults.reader.push(number)?,
            ("stop", Ok(number)) => self.faults.stop = Some(number),
            _ => self.faults = Faults::none(alloc),
        }
        words.to_string(alloc)
    }

    // `new`: a new tablet of the table in a new store.
    fn renew(&mut self, alloc: Global) -> Result<String, AllocError> {
        let faults = std::mem::replace(&mut self.faults, Faults::none(alloc));
        self.tablet = made(alloc, &self.table, faults)?;
        let told = if self.tablet.is_some() {
            "made"
        } else {
            "not made"
        };
        told.to_string(alloc)
    }

    // `then-load BYTES` and `then-expire VERSION`: what happens between the turns of the next partial load.
    fn then(&mut self, alloc: Global, step: Between) -> Result<String, AllocError> {
        self.between.push(step)?;
        format!(in alloc; "{} between", self.between.len())
    }

    // Calls of the tablet.
    fn turn(&mut self, alloc: Global, call: &str, words: &str) -> Result<String, AllocError> {
        let between = std::mem::replace(&mut self.between, Vec::new(alloc));
        let Some(tablet) = &mut self.tablet else {
            return "no tablet".to_string(alloc);
        };
        match call {
            "load" => tablet.load(alloc, &bytes_of(alloc, words)?),
            "expire" => tablet.expire(alloc, words.parse::<u64>().unwrap_or(0)),
            "partial" => tablet.partial(alloc, &bytes_of(alloc, words)?, &between, false),
            "settle" => tablet.partial(alloc, &bytes_of(alloc, words)?, &between, true),
            "rows" => current_rows(alloc, &mut tablet.state),
            _ => "no call".to_string(alloc),
        }
    }

    /// `table TEXT`, `fails ..`, `new`; `load BYTES`, `expire VERSION`, `partial BYTES`, and `settle BYTES`, which makes the
    /// rows of moved keys again before it publishes; `then-load BYTES`, `then-expire VERSION`; and `rows`.
    pub fn answer(&mut self, alloc: Global, line: &str) -> Result<String, AllocError> {
        let (call, words) = line.split_once(' ').unwrap_or((line, ""));
        match call {
            "table" => {
                self.table = bytes_of(alloc, words)?;
                format!(in alloc; "{}", self.table.len())
            }
            "fails" => self.fails(alloc, words),
            "new" => self.renew(alloc),
            "then-load" => {
                let bytes = bytes_of(alloc, words)?;
                self.then(alloc, Between::Load(bytes))
            }
            "then-expire" => {
                let v = words.parse::<u64>().unwrap_or(0);
                self.then(alloc, Between::Expire(v))
            }
            _ => self.turn(alloc, call, words),
        }
    }
}
