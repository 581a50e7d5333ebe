ghost use Rattle.std.specs.Prelude.{◌≡◌, ◌++◌, ◌^◌, ◌<◌, IfOk, OnOk};
ghost use Rattle.journal_replay.specs.Follow.{next_number, option_spans};

use crate::span::Span;
use dev_traits::Memory;
use std::alloc::Global;

/// A rowset comes last, where there is one.
pub(crate) fn push_span(rowsets: &mut Vec<Span>, span: Option<Span>) -> Result<(), Memory>
    ensures { OnOk result (rowsets.new.items ≡ rowsets.old.items ++ option_spans span) }
{
    match span {
        Some(span) => Ok(rowsets.push(span)?),
        None => Ok(()),
    }
}

/// A rowset comes first, where there is one.
pub(crate) fn led_by(
    alloc: Global,
    span: Option<Span>,
    others: &[Span],
) -> Result<Vec<Span>, Memory>
    ensures { IfOk result (λ rowsets. rowsets.items ≡ option_spans span ++ others.now) }
{
    let mut rowsets = Vec::with_capacity(alloc, others.len())?;
    push_span(&mut rowsets, span)?;
    rowsets.extend_from_slice(others)?;
    Ok(rowsets)
}

/// The next file number once a rowset has come.
pub(crate) fn next_after(next: u64, span: Option<Span>) -> u64
    requires { next < 2 ^ 63 }
    ensures next { result ≡ next_number next span }
    ensures short { result < 2 ^ 63 }
{
    match span {
        Some(span) => span.first + span.count,
        None => next,
    }
}
