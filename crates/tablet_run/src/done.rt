ghost use Rattle.std.specs.Prelude.{◌≡◌, ◌<◌, ◌≤◌, ◌+◌, ◌++◌, ◌∷◌, [], vec_len, vec_capacity};
ghost use Rattle.tablet_run.specs.Doing.{items_of, parts_of};

use script_text::{Item, ItemPart, Outcome};

/// Which parts of a job had turns.
#[derive(Clone, Copy, Drop)]
pub enum Parts {
    /// None: it was refused before its first turn.
    None,
    /// It has one turn.
    Whole,
    /// It ended with its first turn.
    First,
    FirstLast,
    /// It gave up behind its first turn.
    FirstGaveUp,
    /// Its last turn wanted memory, and it gave up.
    FirstLastGaveUp,
}

/// What became of a job, and which turns it had.
#[derive(Drop)]
pub struct Done {
    pub parts: Parts,
    pub outcome: Outcome,
}

// Notes a turn of a job. There is room for it.
fn add(order: &mut Vec<Item>, job: u32, part: ItemPart)
    requires room { vec_len order.old < vec_capacity order.old }
    ensures order { order.new.items ≡ order.old.items ++ (record { job = job; part = part }) ∷ [] }
    ensures kept { vec_capacity order.new ≡ vec_capacity order.old }
{
    order.push_reserved(Item { job, part });
}

// Notes the turns of a job in their order. There is room for three.
fn add_parts(order: &mut Vec<Item>, job: u32, parts: Parts)
    requires room { vec_len order.old + 3 ≤ vec_capacity order.old }
    ensures order { order.new.items ≡ order.old.items ++ items_of job (parts_of parts) }
    ensures kept { vec_capacity order.new ≡ vec_capacity order.old }
{
    match parts {
        Parts::None => {}
        Parts::Whole => add(order, job, ItemPart::Whole),
        Parts::First => add(order, job, ItemPart::First),
        Parts::FirstLast => {
            add(order, job, ItemPart::First);
            add(order, job, ItemPart::Last);
        }
        Parts::FirstGaveUp => {
            add(order, job, ItemPart::First);
            add(order, job, ItemPart::GaveUp);
        }
        Parts::FirstLastGaveUp => {
            add(order, job, ItemPart::First);
            add(order, job, ItemPart::Last);
            add(order, job, ItemPart::GaveUp);
        }
    }
}

/// Notes the turns of a job, and what became of it. There is room for both.
pub fn note(order: &mut Vec<Item>, outcomes: &mut Vec<Outcome>, job: u32, done: Done)
    requires order_room { vec_len order.old + 3 ≤ vec_capacity order.old }
    requires outcomes_room { vec_len outcomes.old < vec_capacity outcomes.old }
    ensures order { order.new.items ≡ order.old.items ++ items_of job (parts_of done.parts) }
    ensures outcomes { outcomes.new.items ≡ outcomes.old.items ++ done.outcome ∷ [] }
    ensures order_kept { vec_capacity order.new ≡ vec_capacity order.old }
    ensures outcomes_kept { vec_capacity outcomes.new ≡ vec_capacity outcomes.old }
{
    add_parts(order, job, done.parts);
    outcomes.push_reserved(done.outcome);
}
