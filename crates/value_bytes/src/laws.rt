//! What holds of fields. The function states a law and does nothing when it is called.

ghost use Rattle.std.specs.Prelude.{List, Option, ℕ};
ghost use Rattle.value_bytes.specs.Fields.{Tells, number, text, counted, optional, u8, u16, u32, u64};

/// Bytes tell what was written, whatever stands behind them: of numbers, texts, lists of numbers and what may be
/// absent.
pub fn fields()
    ensures numbers { (w : ℕ) → Tells (number w) }
    ensures texts { (w : ℕ) → Tells (text (number w)) }
    ensures lists { (w v : ℕ) → Tells (counted (number w) (number v)) }
    ensures absent { (w : ℕ) → Tells (optional (number w)) }
{}
