//! Labels: any bytes, as text between quotes.
ghost use Rattle.std.specs.Prelude.{◌≡◌, ◌++◌, OnOk};
ghost use Rattle.std.specs.List.{flat_map};
ghost use Rattle.tg_draw.specs.Promise.Label.{byte_text, label_text, plain_text};

use std::alloc::{AllocError, Global};

/// Writes any bytes as rows of a label, one for each line feed.
pub(crate) fn put_label(out: &mut Vec<u8>, alloc: Global, label: &[u8]) -> Result<(), AllocError>
    ensures { OnOk result (out.new.items ≡ out.old.items ++ label_text label.now) }
{
    let text = String::from_utf8_lossy(alloc, label)?;
    let bytes = text.as_bytes();
    put_bytes(out, bytes)
}

fn put_bytes(out: &mut Vec<u8>, bytes: &[u8]) -> Result<(), AllocError>
    ensures { OnOk result (out.new.items ≡ out.old.items ++ flat_map byte_text bytes.now) }
{
    for byte in bytes {
        put_byte(out, *byte)?;
    }
    Ok(())
}

/// Writes a byte as it stands between quotes.
fn put_byte(out: &mut Vec<u8>, byte: u8) -> Result<(), AllocError>
    ensures { OnOk result (out.new.items ≡ out.old.items ++ byte_text byte) }
{
    if byte == b'\n' {
        out.extend_from_slice(b"\\l")
    } else if byte == b'"' {
        out.extend_from_slice(b"\\\"")
    } else if byte == b'\\' {
        out.extend_from_slice(b"\\\\")
    } else if byte == b'&' {
        out.extend_from_slice(b"&amp;")
    } else {
        put_plain(out, byte)
    }
}

/// Writes a byte without a meaning between quotes.
fn put_plain(out: &mut Vec<u8>, byte: u8) -> Result<(), AllocError>
    ensures { OnOk result (out.new.items ≡ out.old.items ++ plain_text byte) }
{
    if byte == 127 {
        out.extend_from_slice(&[226, 144, 161])
    } else if byte < 32 {
        out.extend_from_slice(&[226, 144, 128 + byte])
    } else {
        out.push(byte)?;
        Ok(())
    }
}
