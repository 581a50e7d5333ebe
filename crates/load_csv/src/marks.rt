ghost use Rattle.std.specs.Prelude.{◌≡◌, ◌++◌, ◌∷◌, [], OnOk, if◌then◌else◌};

use pk_values::Items;
use std::alloc::AllocError;

/// Puts an item behind the others, where it is wanted.
pub(crate) fn push_if<T: Drop>(
    items: &mut Items<T>,
    item: T,
    is_wanted: bool,
) -> Result<(), AllocError>
    ensures { OnOk result (items.new ≡ (if is_wanted then items.old ++ item ∷ [] else items.old)) }
{
    if is_wanted { items.push(item) } else { Ok(()) }
}
