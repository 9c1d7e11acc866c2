ghost use Rattle.std.specs.Prelude.{◌≡◌, IfOk};
ghost use Rattle.lsp_frames.specs.Frames.{frame_text};

use itoa::Buffer;
use std::alloc::{AllocError, Global};

/// The text of the frame with this body: the header line `Content-Length` with its length in bytes, an empty line,
/// and the body, which is copied once. The one error is want of memory.
pub fn frame_text(alloc: Global, body: &[u8]) -> Result<Vec<u8>, AllocError>
    ensures { IfOk result (λ text. text.items ≡ frame_text body.now) }
{
    let mut buffer = Buffer::new();
    let mut text = Vec::from_slice(alloc, b"Content-Length: ")?;
    text.extend_from_slice(buffer.format(body.len()).as_bytes())?;
    text.extend_from_slice(b"\r\n\r\n")?;
    text.extend_from_slice(body)?;
    Ok(text)
}
