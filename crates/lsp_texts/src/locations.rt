//! Parts of documents as editors are told of them.
ghost use Rattle.std.specs.{Prelude.{◌≡◌, IfOk}, Option.{option_copied}};
ghost use Rattle.lsp_texts.specs.{Places.{location_in, location_with, position_at}, Texts.{texts_in, uri_under}};

use crate::{OpenText, OpenTexts};
use graph_nodes::Span;
use lsp_wire::{Location, Position, Text, uri_of_path};
use std::alloc::{AllocError, Global};

/// The part of the document at a path that a span tells, and its beginning where there is no span: with the document's
/// URI under the root, and its places counted in the text that stands there. Where there is none each character is 0.
/// The one error is want of memory. Its time follows the lengths of the path and of two lines.
pub fn location(
    alloc: Global,
    root: &[u8],
    texts: &OpenTexts,
    path: &str,
    span: Option<Span>,
) -> Result<Location, AllocError>
    ensures { IfOk result (λ l. l ≡ location_in root.now (texts_in texts.now) path.now span) }
{
    location_with(alloc, root, path, texts.at(path), span)
}

/// The same, given the text at the path where there is one.
fn location_with(
    alloc: Global,
    root: &[u8],
    path: &str,
    text: Option<&OpenText>,
    span: Option<Span>,
) -> Result<Location, AllocError>
    ensures { IfOk result
        (λ l. l ≡ location_with root.now path.now (option_copied text.entry) span) }
{
    let uri = uri_under(alloc, root, path)?;
    match span {
        Some(span) => Ok(Location {
            uri,
            start: position_at(text, span.from_line, span.from_column),
            end: position_at(text, span.to_line, span.to_column),
        }),
        None => Ok(Location {
            uri,
            start: position_at(text, 0, 0),
            end: position_at(text, 0, 0),
        }),
    }
}

/// The place in a text. Without one, as of a file that isn't open, its character is 0: the units of a column can't be
/// counted.
fn position_at(text: Option<&OpenText>, line: u32, column: u32) -> Position
    ensures { result ≡ position_at (option_copied text.entry) line column }
{
    match text {
        Some(text) => text.position(line, column),
        None => Position { line, character: 0 },
    }
}

/// The URI of the document at the path of the project.
fn uri_under(alloc: Global, root: &[u8], path: &str) -> Result<Text, AllocError>
    ensures { IfOk result (λ uri. uri ≡ uri_under root.now path.now) }
{
    let mut bytes = Vec::from_slice(alloc, root)?;
    bytes.push(b'/')?;
    bytes.extend_from_slice(path.as_bytes())?;
    Ok(Text::from_string(uri_of_path(alloc, &bytes)?))
}
