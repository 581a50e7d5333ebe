/// A `match` over the kinds of cells, so that each kind is spelled once.
///
/// `by_kind!(kind; flag; number(..); day; most => text)` gives an answer for BOOLEAN, a call of a
/// function that is generic in the bytes of a number (1, 2, 4, 8 or 16) for the five kinds of
/// numbers, an answer for DATE, and one for VARCHAR, whose greatest length `most` matches.
#[macro_export]
macro_rules! by_kind {
    ($kind:expr; $flag:expr; $number:ident($($arg:expr),*); $day:expr; $most:pat => $text:expr) => {
        match $kind {
            $crate::Kind::Boolean => $flag,
            $crate::Kind::TinyInt => $number::<1>($($arg),*),
            $crate::Kind::SmallInt => $number::<2>($($arg),*),
            $crate::Kind::Int => $number::<4>($($arg),*),
            $crate::Kind::BigInt => $number::<8>($($arg),*),
            $crate::Kind::LargeInt => $number::<16>($($arg),*),
            $crate::Kind::Date => $day,
            $crate::Kind::Varchar($most) => $text,
        }
    };
}
