ghost use Rattle.std.specs.Prelude.{◌≡◌, ◌<◌, ◌^◌, IfErr, IfOk, IsTrue, ◌↔◌, length};
ghost use Rattle.sha2.specs.Sha256.{sha256};
ghost use Rattle.column_page.specs.declared.footers.FooterFields.{FooterFields};
ghost use Rattle.column_page.specs.Footers.{footer_body, footer_bytes};
ghost use Rattle.column_page.specs.FooterReading.{FooterFits, IsSegmentFooter};

use crate::faults::FooterFault;
use crate::footer_fits::is_footer;
use crate::footer_reads::only_footer;
use crate::footer_writes::put_body;
use crate::footers::{Footer, FooterFields};
use sha2::{Digest, Sha256};
use std::alloc::{AllocError, Global};

// The bytes of a footer without its digest.
fn body_of(alloc: Global, fields: &FooterFields) -> Result<Vec<u8>, AllocError>
    requires { length fields.now.blocks < 2 ^ 32 }
    ensures { IfOk result (λ body. body.items ≡ footer_body fields.now) }
{
    let mut body = Vec::new(alloc);
    put_body(&mut body, fields)?;
    Ok(body)
}

// Whether the footer has these bytes without its digest.
fn has_body(alloc: Global, fields: &FooterFields, body: &[u8]) -> Result<bool, FooterFault>
    requires { length fields.now.blocks < 2 ^ 32 }
    ensures same { IfOk result (λ same. IsTrue same ↔ (footer_body fields.now ≡ body.now)) }
    ensures memory { IfErr result (λ e. e ≡ FooterFault.Memory) }
{
    match body_of(alloc, fields) {
        Ok(written) => Ok(written.as_slice() == body),
        Err(_) => Err(FooterFault::Memory),
    }
}

// The footer of the fields, where they are those of a segment.
fn footer_of(alloc: Global, fields: FooterFields) -> Result<Footer, FooterFault>
    requires { FooterFits fields }
    ensures footer { IfOk result (λ footer. footer ≡ fields) }
    ensures none { IfErr result (λ e. e ≡ FooterFault.NotAFooter → IsSegmentFooter fields → ⊥) }
{
    if !is_footer(&fields) {
        return Err(FooterFault::NotAFooter);
    }
    match Footer::new(alloc, fields) {
        Ok(footer) => Ok(footer),
        Err(_) => Err(FooterFault::Memory),
    }
}

/// The footer of a segment that has these bytes before its digest, for a caller that compares the
/// digest itself.
///
/// # Errors
/// `NotAFooter` exactly where no segment's footer has these bytes; `Memory`.
pub fn read_footer_body(alloc: Global, body: &[u8]) -> Result<Footer, FooterFault>
    ensures body { IfOk result (λ found. footer_body found ≡ body.now) }

    // No other footer has them.
    ensures only { IfOk result (λ found. (f : FooterFields) → FooterFits f → footer_body f ≡ body.now → found ≡ f) }
    ensures none { IfErr result (λ e. e ≡ FooterFault.NotAFooter → (f : FooterFields) → IsSegmentFooter f → footer_body f ≡ body.now → ⊥) }
{
    let fields = only_footer(alloc, body)?;
    if !has_body(alloc, &fields, body)? {
        return Err(FooterFault::NotAFooter);
    }
    footer_of(alloc, fields)
}

// Whether a digest stands behind the bytes whose digest it is.
fn has_digest(body: &[u8], digest: &[u8]) -> bool
    ensures { IsTrue result ↔ (digest.now ≡ sha256 body.now) }
{
    let found: [u8; 32] = Sha256::digest(body);
    digest == found.as_slice()
}

/// The footer of a segment that has these bytes, which `write_footer` tells.
///
/// # Errors
/// `NotAFooter` exactly where no segment's footer has these bytes; `Memory`.
pub fn read_footer(alloc: Global, bytes: &[u8]) -> Result<Footer, FooterFault>
    ensures bytes { IfOk result (λ found. footer_bytes found ≡ bytes.now) }

    // No other footer has them.
    ensures only { IfOk result (λ found. (f : FooterFields) → FooterFits f → footer_bytes f ≡ bytes.now → found ≡ f) }
    ensures none { IfErr result (λ e. e ≡ FooterFault.NotAFooter → (f : FooterFields) → IsSegmentFooter f → footer_bytes f ≡ bytes.now → ⊥) }
{
    if bytes.len() < 32 {
        return Err(FooterFault::NotAFooter);
    }
    let (body, digest) = bytes.split_at(bytes.len() - 32);
    if !has_digest(body, digest) {
        return Err(FooterFault::NotAFooter);
    }
    let footer = read_footer_body(alloc, body)?;
    Ok(footer)
}
