//! What follows from the definition of the mark of a column. The function states laws and does
//! nothing when it is called.

ghost use Rattle.std.specs.Prelude.{◌↔◌, List, Contains, IsTrue};
ghost use Rattle.pk_values.specs.declared.cells.Value.{Value};
ghost use Rattle.pk_values.specs.declared.cells.Value.TheVariants.{Null};
ghost use Rattle.column_page.specs.Footers.{mark_of, numbers, IsSpanOf};

/// The mark of cells tells whether one of them is NULL, and the least and the greatest of their
/// numbers.
pub fn column_marks()
    ensures nulls { (cells : List Value) → IsTrue (mark_of cells).nulls ↔ Contains cells Null }
    ensures span { (cells : List Value) → IsSpanOf (numbers cells) (mark_of cells).span }
{}
