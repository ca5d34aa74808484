//! How the texts of the office stand in a page: so that no markup comes of them, and as parts of addresses.
ghost use Rattle.std.specs.{List.list_all, Prelude.{◌≡◌, ◌++◌, OnOk, string_bytes}};
ghost use Rattle.office_reports.specs.{Fields.field_text, Markup.is_plain};
ghost use Rattle.office_pages.specs.Addresses.{part};

use office_reports::field_text;
use percent_encoding::{NON_ALPHANUMERIC, percent_encode};
use std::alloc::{AllocError, Global};

/// Appends a text, written so that no markup comes of it; one of plain characters only is appended as it is.
#[tactic(auto, using(crate::proofs::Plain::plain_field))]
pub(crate) fn push_text(alloc: Global, page: &mut String, text: &str) -> Result<(), AllocError>
    ensures { OnOk result (string_bytes page.new ≡ string_bytes page.old ++ field_text text.now) }
{
    if are_plain(text.as_bytes()) {
        page.push_str(text)
    } else {
        push_field(alloc, page, text.as_bytes())
    }
}

fn are_plain(bytes: &[u8]) -> bool
    ensures { result ≡ list_all is_plain bytes.now }
{
    bytes.iter().all(|byte| is_plain(*byte))
}

/// A character of ASCII that needs no other form in a page.
fn is_plain(byte: u8) -> bool
    ensures { result ≡ is_plain byte }
{
    byte < 128 && byte != b'&' && byte != b'<' && byte != b'>' && byte != b'"' && byte != b'\''
}

/// Appends bytes, written so that no markup comes of them.
pub(crate) fn push_field(alloc: Global, page: &mut String, bytes: &[u8]) -> Result<(), AllocError>
    ensures { OnOk result (string_bytes page.new ≡ string_bytes page.old ++ field_text bytes.now) }
{
    let field = field_text(alloc, bytes)?;
    page.push_str(field.as_str())
}

/// Appends a part of a path: letters and digits as they are, another byte is written as `%` and two digits.
pub(crate) fn push_part(text: &mut String, bytes: &[u8]) -> Result<(), AllocError>
    ensures { OnOk result (string_bytes text.new ≡ string_bytes text.old ++ part bytes.now) }
{
    percent_encode(bytes, NON_ALPHANUMERIC).append_to(text)
}
