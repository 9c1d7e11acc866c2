//! The bytes that the texts of rows stand for, and how bytes are shown.
ghost use Rattle.std.specs.Prelude.{◌≤◌, IfOk};

use aux_graph_text::{TextFault, files_of};
use graph_json::print_graph;
use graph_nodes::FileGraph;
use std::alloc::{AllocError, Global};

/// How many bytes are shown at most.
const SHOWN: usize = 160;

/// The first place at which two lists of bytes differ.
pub fn first_difference(one: &[u8], two: &[u8]) -> usize {
    match one.iter().zip(two).position(|(a, b)| a != b) {
        Some(at) => at,
        None => one.len().min(two.len()),
    }
}

/// Adds the bytes from a place on, as far as they are shown.
pub fn push_shown(text: &mut String, bytes: &[u8], from: usize) -> Result<(), AllocError> {
    for byte in bytes.iter().skip(from).take(SHOWN) {
        match *byte {
            b'\n' => text.push_str("\\n")?,
            b'\r' => text.push_str("\\r")?,
            byte if byte >= 32 && byte < 127 => text.push(char::from(byte))?,
            _ => text.push('?')?,
        }
    }
    if bytes.len() > from.saturating_add(SHOWN) {
        text.push_str("..")?;
    }
    Ok(())
}

/// The text of the graph file of the one graph that a short text stands for.
pub fn graph_file(alloc: Global, text: &str) -> Result<Vec<u8>, TextFault> {
    match files_of(alloc, text)?.pop() {
        Some(graph) => Ok(print_graph(alloc, &graph)?),
        None => Err(TextFault::Word),
    }
}

/// Adds the bytes of a text as a JSON text, between quotes.
pub fn push_quoted(alloc: Global, bytes: &mut Vec<u8>, text: &[u8]) -> Result<(), AllocError> {
    bytes.push(b'"')?;
    for byte in text {
        if *byte < 32 {
            let control = format!(in alloc; "\\u{:04x}", *byte)?;
            bytes.extend_from_slice(control.as_bytes())?;
            continue;
        }
        if *byte == b'"' || *byte == b'\\' {
            bytes.push(b'\\')?;
        }
        bytes.push(*byte)?;
    }
    Ok(bytes.push(b'"')?)
}

/// The JSON text of the graph file of a graph.
pub fn quoted_graph(alloc: Global, graph: &FileGraph) -> Result<Vec<u8>, AllocError> {
    let file = print_graph(alloc, graph)?;
    let mut bytes = Vec::new(alloc);
    push_quoted(alloc, &mut bytes, file.as_slice())?;
    Ok(bytes)
}

/// Adds what stands between the marks of a graph.
fn push_graph(alloc: Global, bytes: &mut Vec<u8>, text: &str) -> Result<(), TextFault> {
    match text.strip_prefix("text ") {
        Some(graph) => push_quoted(alloc, bytes, graph_file(alloc, graph)?.as_slice())?,
        None => bytes.extend_from_slice(graph_file(alloc, text)?.as_slice())?,
    }
    Ok(())
}

/// The bytes of a text, in which `«GRAPH»` stands for the graph file of the graph, and `«text GRAPH»` for the same
/// as a JSON text.
pub fn plain(alloc: Global, text: &str) -> Result<Vec<u8>, TextFault> {
    let mut bytes = Vec::new(alloc);
    for (place, part) in text.split('«').enumerate() {
        if place == 0 {
            bytes.extend_from_slice(part.as_bytes())?;
            continue;
        }
        let Some((graph, rest)) = part.split_once('»') else {
            return Err(TextFault::Word);
        };
        push_graph(alloc, &mut bytes, graph)?;
        bytes.extend_from_slice(rest.as_bytes())?;
    }
    Ok(bytes)
}

/// The value of a hexadecimal digit.
fn digit(byte: Option<&u8>) -> Result<u8, TextFault>
    ensures { IfOk result (λ value. value ≤ 15) }
{
    match byte {
        Some(byte) if *byte >= b'0' && *byte <= b'9' => Ok(*byte - b'0'),
        Some(byte) if *byte >= b'a' && *byte <= b'f' => Ok(*byte - b'a' + 10),
        _ => Err(TextFault::Word),
    }
}

/// Adds what a backslash and the bytes behind it stand for.
fn push_escaped(bytes: &mut Vec<u8>, part: &[u8]) -> Result<(), TextFault> {
    let mut used = 1;
    match part.first() {
        Some(b'n') => bytes.push(b'\n')?,
        Some(b'r') => bytes.push(b'\r')?,
        Some(b't') => bytes.push(b'\t')?,
        Some(b'x') => {
            bytes.push(digit(part.get(1))? * 16 + digit(part.get(2))?)?;
            used = 3;
        }
        _ => return Err(TextFault::Word),
    }
    for byte in part.iter().skip(used) {
        bytes.push(*byte)?;
    }
    Ok(())
}

/// The bytes of a text, in which `\n`, `\r` and `\t` stand for the end of a line, a carriage return and a tab,
/// and `\x5c` for the byte with those two digits.
pub fn escaped(alloc: Global, text: &str) -> Result<Vec<u8>, TextFault> {
    let mut bytes = Vec::new(alloc);
    for (place, part) in text.split('\\').enumerate() {
        if place == 0 {
            bytes.extend_from_slice(part.as_bytes())?;
        } else {
            push_escaped(&mut bytes, part.as_bytes())?;
        }
    }
    Ok(bytes)
}
