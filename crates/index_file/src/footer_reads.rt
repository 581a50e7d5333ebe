ghost use Rattle.std.specs.Prelude.{◌≡◌, ◌≢◌, ◌↔◌, ◌+◌, ◌-◌, ◌≤◌, ◌^◌, ◌∷◌, ℕ, List, IfErr, IfNone, IfOk, IfSome, IsTrue, length, drop, map};
ghost use Rattle.value_bytes.specs.Reads.{IsWhole, NotWhole};
ghost use Rattle.dev_traits.specs.declared.faults.Part.TheVariants as part;
ghost use Rattle.index_file.specs.declared.footers.IndexFooter.{IndexFooter};
ghost use Rattle.index_file.specs.Buckets.{buckets_for, footer_body, u64_bytes};
ghost use Rattle.index_file.specs.Footers.{stand_until, FooterFits, FooterShown, HasFooter, HasTail, IsFooterAt, IsTheFooter, TailShown};
ghost use Rattle.index_file.specs.FooterFields.{footer_field, marks_of_pairs};
ghost use Rattle.index_file.specs.Reads.{HasFailed, HasRead, IsDamage, KnowsFooter, MayHaveRead, OnDamage, OnFile, OnShown, Reading};

use crate::digests::digests_shown;
use crate::faults::{PartFault, fault_of};
use crate::footers::{BucketMark, IndexFooter};
use crate::making::buckets_for;
use crate::pieces::read_piece;
use byteorder::{BigEndian, ByteOrder};
use dev_traits::{Part, ReadFault, SealedReader, Shown};
use pk_values::Items;
use std::alloc::{AllocError, Global};
use value_bytes::{Both, LongList, U64, Unread, read_whole};

// Whether buckets stand one after the other from place 0 to a place.
fn stand_until(marks: &[BucketMark], end: u64) -> bool
    ensures { result ≡ stand_until end 0 marks.now }
{
    let mut at = 0u64;
    for mark in marks {
        if mark.place != at {
            return false;
        }
        match behind(mark) {
            Some(next) => at = next,
            None => return false,
        }
    }
    at == end
}

// The place behind a bucket, where a u64 has it.
fn behind(mark: &BucketMark) -> Option<u64>
    ensures some { IfSome result (λ next. next ≡ mark.now.place + mark.now.length + 32) }
    ensures none { IfNone result (2 ^ 64 ≤ mark.now.place + mark.now.length + 32) }
{
    mark.place.checked_add(mark.length)?.checked_add(32)
}

// The marks that pairs of numbers are.
fn marks_of_pairs(alloc: Global, pairs: &[(u64, u64)]) -> Result<Items<BucketMark>, AllocError>
    ensures { IfOk result (λ marks. marks ≡ marks_of_pairs pairs.now) }
{
    let mut marks = Items::with_capacity(alloc, pairs.len())?;
    for pair in pairs {
        marks.push(BucketMark {
            place: pair.0,
            length: pair.1,
        })?;
    }
    Ok(marks)
}

// What stands behind `PKIX` and the form 1.
fn behind_form(bytes: &[u8]) -> Option<&[u8]>
    ensures some { IfSome result (λ fields. bytes.now ≡ 80 ∷ 75 ∷ 73 ∷ 88 ∷ 1 ∷ fields.now) }
    ensures none { IfNone result ((fields : List ℕ) → bytes.now ≢ 80 ∷ 75 ∷ 73 ∷ 88 ∷ 1 ∷ fields) }
{
    bytes.strip_prefix(b"PKIX\x01")
}

// The number of entries and the marks.
fn fields_of(alloc: Global, bytes: &[u8]) -> Result<Option<(u64, Items<(u64, u64)>)>, AllocError>
    ensures some { IfOk result (λ o. IfSome o (λ p. IsWhole footer_field bytes.now p)) }
    ensures none { IfOk result (λ o. IfNone o (NotWhole footer_field bytes.now)) }
{
    match read_whole::<Both<U64, LongList<Both<U64, U64>>>>(alloc, bytes) {
        Ok(fields) => Ok(Some(fields)),
        Err(Unread::NotOne) => Ok(None),
        Err(Unread::Memory) => Err(AllocError),
    }
}

// The footer whose bytes, without its digest, these are.
fn footer_in(alloc: Global, bytes: &[u8]) -> Result<Option<IndexFooter>, AllocError>
    ensures fits { IfOk result (λ o. IfSome o (λ f. FooterFits f)) }
    ensures some { IfOk result (λ o. IfSome o (λ f. footer_body f ≡ bytes.now)) }
    ensures none { IfOk result (λ o. IfNone o ((f : IndexFooter) → FooterFits f → footer_body f ≡ bytes.now → ⊥)) }
{
    let Some(fields) = behind_form(bytes) else {
        return Ok(None);
    };
    match fields_of(alloc, fields)? {
        Some((entries, pairs)) => {
            let buckets = marks_of_pairs(alloc, pairs.as_slice())?;
            Ok(Some(IndexFooter { entries, buckets }))
        }
        None => Ok(None),
    }
}

/// The footer of a file whose buckets end at a place and whose bytes with its digest these are, of
/// which `len` stand before the digest.
fn footer_of_bytes(
    alloc: Global,
    end: u64,
    len: usize,
    bytes: &[u8],
) -> Result<IndexFooter, PartFault>
    requires { length bytes.now ≡ len + 32 }
    ensures footer { IfOk result (λ footer. IsTheFooter end bytes.now footer) }
    ensures shown { IfErr result (λ e. OnShown e (TailShown end len bytes.now)) }
{
    if let Some(shown) = digests_shown(bytes, len) {
        return Err(PartFault::Damaged(shown));
    }
    match footer_in(alloc, &bytes[..len]) {
        Ok(Some(footer)) => {
            let number = footer.buckets.len() as u64;
            if number == buckets_for(footer.entries)
                && stand_until(footer.buckets.as_slice(), end)
            {
                Ok(footer)
            } else {
                Err(PartFault::Damaged(Shown::Form))
            }
        }
        Ok(None) => Err(PartFault::Damaged(Shown::Form)),
        Err(_) => Err(PartFault::Memory),
    }
}

// Whether a footer of so many bytes and its length fit into a file of `size` bytes.
fn fits_tail(len: u64, size: u64) -> bool
    requires { size ≤ 2 ^ 44 }
    ensures { IsTrue result ↔ ((32 ≤ len) × (len + 8 ≤ size)) }
{
    len >= 32 && len <= size && len + 8 <= size
}

// The length of a footer that the last eight bytes of a file tell, where there can be one.
fn footer_length<R: SealedReader>(reader: &mut R) -> Result<Option<u64>, ReadFault>
    ensures fits { IfOk result (λ found. IfSome found (λ len. (32 ≤ len) × (len + 8 ≤ (R.view reader.old).size))) }
    ensures told { IfOk result (λ found. IfSome found (λ len. OnFile (R.view reader.old) (λ file. drop (length file - 8) file ≡ u64_bytes len))) }
    ensures none { IfOk result (λ found. IfNone found (OnFile (R.view reader.old) (λ file. (body digest : List ℕ) → HasTail file body digest → ⊥))) }
    ensures undamaged { IfErr result (λ e. OnDamage e (λ damaged. ⊥)) }
    ensures read { IfOk result (λ found. IfSome found (λ len. HasRead 1 (R.view reader.old) (R.view reader.new))) }
    ensures refused { IfOk result (λ found. IfNone found (MayHaveRead 1 (R.view reader.old) (R.view reader.new))) }
    ensures failed { IfErr result (λ e. HasFailed 1 (R.view reader.old) (R.view reader.new) e) }
{
    let size = reader.length();
    if size < 8 {
        return Ok(None);
    }
    let mut last = [0; 8];
    reader.read_at(size - 8, &mut last)?;
    let len = number_of(&last);
    if fits_tail(len, size) {
        Ok(Some(len))
    } else {
        Ok(None)
    }
}

#[tactic(auto, unfolding(crate::specs::Buckets::u64_bytes))]
fn number_of(bytes: &[u8; 8]) -> u64
    ensures { bytes.now ≡ u64_bytes result }
{
    BigEndian::read_u64(bytes)
}

/// Reads the footer of a file.
pub(crate) fn read_tail<R: SealedReader>(
    alloc: Global,
    reader: &mut R,
    number: u64,
) -> Result<IndexFooter, ReadFault>
    ensures footer { IfOk result (λ footer. KnowsFooter (R.view reader.old) footer) }
    ensures numbered { IfOk result (λ footer. length footer.buckets ≡ buckets_for footer.entries) }
    ensures only { IfOk result (λ footer. OnFile (R.view reader.old) (λ file. (other : IndexFooter) → HasFooter other file → footer ≡ other)) }
    ensures damaged { IfErr result (λ e. OnDamage e (IsDamage number part.Footer (λ shown. OnFile (R.view reader.old) (λ file. FooterShown file shown)))) }
    ensures reading { Reading 2 (R.view reader.old) (R.view reader.new) result }
{
    let size = reader.length();
    let Some(len) = footer_length(reader)? else {
        return Err(fault_of(number, Part::Footer, PartFault::Damaged(Shown::Form)));
    };
    let end = size - 8 - len;
    let bytes = read_piece(alloc, reader, end, len as usize)?;
    match footer_of_bytes(alloc, end, len as usize - 32, &bytes) {
        Ok(footer) => Ok(footer),
        Err(fault) => Err(fault_of(number, Part::Footer, fault)),
    }
}
