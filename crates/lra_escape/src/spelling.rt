//! Writers that add text to HTML.

ghost use Rattle.std.specs.Prelude.{◌≡◌, ◌++◌, OnOk};
ghost use Rattle.lra_escape.specs.Escapes.{spelled, escaped};

use std::alloc::AllocError;

/// Adds a byte to a page, escaped for HTML.
fn push_spelled(page: &mut Vec<u8>, byte: u8) -> Result<(), AllocError>
    ensures { OnOk result (page.new.items ≡ page.old.items ++ spelled byte) }
{
    match byte {
        b'<' => page.extend_from_slice(b"&lt;"),
        b'>' => page.extend_from_slice(b"&gt;"),
        b'&' => page.extend_from_slice(b"&amp;"),
        b'"' => page.extend_from_slice(b"&quot;"),
        b'\'' => page.extend_from_slice(b"&#39;"),
        _ => page.extend_from_slice(&[byte]),
    }
}

/// Adds a text to a page of HTML, escaped for an element or a quoted value of an attribute. If memory fails, the first
/// bytes of it may have been added.
pub fn escape(page: &mut Vec<u8>, text: &str) -> Result<(), AllocError>
    ensures { OnOk result (page.new.items ≡ page.old.items ++ escaped text.now) }
{
    for byte in text.as_bytes() {
        push_spelled(page, *byte)?;
    }
    Ok(())
}
