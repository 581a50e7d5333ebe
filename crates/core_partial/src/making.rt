ghost use Rattle.std.specs.Prelude.{◌≡◌, IfOk, OnOk, length, map};
ghost use Rattle.std.specs.List.{AllByRecursion};
ghost use Rattle.partial_loads.specs.Folded.{HasCode};
ghost use Rattle.partial_loads.specs.Olds.{AreOlds};
ghost use Rattle.core_partial.specs.Making.{AreMadeKeys, MakesKey, was_of};
ghost use Rattle.core_partial.specs.Prepared.{folded_of};

use crate::PreparedKey;
use crate::results::Results;
use index_level0::{KeyBytes, Place};
use partial_loads::Folded;
use pk_values::{Row, Schema};
use std::alloc::{AllocError, Global};
use std::collections::VecDeque;

/// The keys of a load, each with the place of the row that it gets, and these rows.
#[derive(Drop)]
pub struct MadeKeys {
    pub keys: Vec<PreparedKey>,
    pub results: Results,
}

// Makes the row of one key more.
fn make_key(
    alloc: Global,
    schema: &Schema,
    given: &[u32],
    key: Folded,
    was: Option<Place>,
    old: Option<Row>,
    made: &mut MadeKeys,
) -> Result<(), AllocError>
    ensures { OnOk result (MakesKey schema.now given.now key was old made.old made.new) }
{
    let Folded { code, key, change } = key;
    let row = change.apply(alloc, schema, given, None, &key, old)?;
    let place = made.results.add(code.copy(), row)?;
    made.keys.push(PreparedKey {
        code,
        key,
        change,
        was,
        made: place,
    })?;
    Ok(())
}

/// Makes the rows of keys, of which each has an old row or none, in the order of the keys.
pub fn make_keys(
    alloc: Global,
    schema: &Schema,
    given: &[u32],
    keys: Vec<Folded>,
    located: &[(KeyBytes, Option<Place>)],
    olds: Vec<Option<Row>>,
) -> Result<MadeKeys, AllocError>
    requires located { length located.now ≡ length keys.items }
    requires olds { AreOlds schema.now keys.items olds.items }
    requires coded { AllByRecursion (HasCode schema.now) keys.items }
    ensures folds { IfOk result (λ made. map folded_of made.keys.items ≡ keys.items) }
    ensures places { IfOk result (λ made. map was_of made.keys.items ≡ map (λ e. e.1) located.now) }
    ensures made { IfOk result (AreMadeKeys schema.now given.now olds.items) }
{
    let mut made = MadeKeys {
        keys: Vec::with_capacity(alloc, keys.len())?,
        results: Results::with_room(alloc, keys.len())?,
    };
    let mut left = VecDeque::from(keys);
    let mut old_rows = VecDeque::from(olds);
    for entry in located {
        let Some(key) = left.pop_front() else {
            unreachable!();
        };
        let Some(old) = old_rows.pop_front() else {
            unreachable!();
        };
        make_key(alloc, schema, given, key, entry.1, old, &mut made)?;
    }
    Ok(made)
}
