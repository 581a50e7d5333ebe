ghost use Rattle.std.specs.Prelude.{◌≡◌, ◌++◌, IfOk, OnOk, drop};
ghost use Rattle.std.specs.Option.{option_map};
ghost use Rattle.pk_model.specs.Books.{touch};
ghost use Rattle.pk_model.specs.Tables.{touches};

use crate::books::Plan;
use crate::calls::{Load, Op};
use crate::tables::Table;
use pk_values::{Items, Key};
use std::alloc::{AllocError, Global};
use std::collections::VecDeque;

// The plan after a load.
pub fn plan_after(
    alloc: Global,
    plan: &Option<Plan>,
    load: &Load,
) -> Result<Option<Plan>, AllocError>
    ensures { IfOk result (λ after. after ≡ option_map (touch load.now) plan.now) }
{
    match plan {
        Some(plan) => Ok(Some(touched_plan(alloc, plan, load)?)),
        None => Ok(None),
    }
}

fn touched_plan(alloc: Global, plan: &Plan, load: &Load) -> Result<Plan, AllocError>
    ensures { IfOk result (λ after. after ≡ touch load.now plan.now) }
{
    let mut touched = Items::new(alloc);
    push_keys(alloc, &mut touched, plan.touched.as_slice())?;
    push_named(alloc, &mut touched, load.ops.as_slice())?;
    Ok(Plan {
        place: plan.place,
        version: plan.version,
        rowsets: plan.rowsets,
        rows: plan.rows.copy(alloc)?,
        touched,
    })
}

// Adds copies of keys.
fn push_keys(alloc: Global, keys: &mut Items<Key>, more: &[Key]) -> Result<(), AllocError>
    ensures { OnOk result (keys.new ≡ keys.old ++ more.now) }
{
    for key in more {
        keys.push(key.copy(alloc)?)?;
    }
    Ok(())
}

// Adds copies of the keys that lines name.
fn push_named(alloc: Global, keys: &mut Items<Key>, ops: &[Op]) -> Result<(), AllocError>
    ensures { OnOk result (keys.new ≡ keys.old ++ touches ops.now) }
{
    for op in ops {
        keys.push(op.key().copy(alloc)?)?;
    }
    Ok(())
}

// All but the first so many tables.
pub fn without_first(tables: Items<Table>, count: usize) -> Items<Table>
    ensures { result ≡ drop count tables }
{
    let mut rest = VecDeque::from(tables.into_vec());
    for _ in 0..count {
        rest.pop_front();
    }
    Items::from_vec(Vec::from(rest))
}
