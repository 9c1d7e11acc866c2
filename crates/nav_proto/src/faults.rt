ghost use Rattle.std.specs.Prelude.{◌≡◌, codes, string_bytes, IfOk};
ghost use Rattle.nav_proto.specs.{Faults.{fault_alone, number_inside, part_text, bad_file_text}, Numbered.{numbered}};

use crate::reply::{FileError, ShapePart};
use json_values::quoted_text;
use std::alloc::{AllocError, Global};

/// Where a fault's number stands: before `error`, between `fault` and `path`, or after `path`.
#[derive(Clone, Copy)]
pub(crate) enum Stands {
    First,
    Inside,
    Last,
}

use Stands::{First, Inside, Last};

/// The reply on a bad file. Members stand in the order of their names' bytes, so a number's place hangs on its name.
pub fn bad_file_text(alloc: Global, path: &str, fault: &FileError) -> Result<String, AllocError>
    ensures { IfOk result (λ s. string_bytes s ≡ bad_file_text path.now fault.now) }
{
    match *fault {
        FileError::Kind => fault_alone(alloc, "kind", path),
        FileError::Large(n) => numbered(alloc, First, "bytes", n, "large", path),
        FileError::Json => fault_alone(alloc, "json", path),
        FileError::Shape(part) => part_text(alloc, "shape", path, part),
        FileError::TooManyNodes(n) => {
            numbered(alloc, Inside, "nodes", u64::from(n), "too_many_nodes", path)
        }
        FileError::TooManyEdges(n) => {
            numbered(alloc, First, "edges", u64::from(n), "too_many_edges", path)
        }
        FileError::BadEnd(n) => part_text(alloc, "bad_end", path, ShapePart::Edge(n)),
        FileError::JumpSource(n) => part_text(alloc, "jump_source", path, ShapePart::Edge(n)),
        FileError::BadScope(n) => part_text(alloc, "bad_scope", path, ShapePart::Node(n)),
        FileError::NotAscii(n) => line_text(alloc, "not_ascii", path, n),
        FileError::BadIndent(n) => line_text(alloc, "bad_indent", path, n),
        FileError::BadToken(n) => line_text(alloc, "bad_token", path, n),
        FileError::Unsupported(n) => line_text(alloc, "unsupported", path, n),
        FileError::Expected(n) => line_text(alloc, "expected", path, n),
        FileError::TooDeep(n) => line_text(alloc, "too_deep", path, n),
        FileError::BadName => fault_alone(alloc, "bad_name", path),
        FileError::Heavy(n) => numbered(alloc, Last, "weight", u64::from(n), "heavy", path),
        FileError::SameName(n) => part_text(alloc, "same_name", path, ShapePart::Node(n)),
        FileError::UnknownName(part) => part_text(alloc, "unknown_name", path, part),
    }
}

/// A fault of a part of a graph file.
fn part_text(alloc: Global, fault: &str, path: &str, part: ShapePart) -> Result<String, AllocError>
    ensures { IfOk result (λ s. string_bytes s ≡ part_text fault.now path.now part) }
{
    match part {
        ShapePart::Top => fault_alone(alloc, fault, path),
        ShapePart::Node(n) => numbered(alloc, Inside, "node", u64::from(n), fault, path),
        ShapePart::Edge(n) => numbered(alloc, First, "edge", u64::from(n), fault, path),
    }
}

/// A fault of a line.
fn line_text(alloc: Global, fault: &str, path: &str, line: u32) -> Result<String, AllocError>
    ensures { IfOk result (λ s. string_bytes s
        ≡ number_inside (codes "line") line fault.now path.now) }
{
    numbered(alloc, Inside, "line", u64::from(line), fault, path)
}

/// A fault with no further member.
fn fault_alone(alloc: Global, fault: &str, path: &str) -> Result<String, AllocError>
    ensures { IfOk result (λ s. string_bytes s ≡ fault_alone fault.now path.now) }
{
    let path = quoted_text(alloc, path)?;
    format!(in alloc; "{{\"error\":\"bad_file\",\"fault\":\"{fault}\",\"path\":{path}}}")
}

/// A fault with a number of this name.
fn numbered(
    alloc: Global,
    stands: Stands,
    name: &str,
    n: u64,
    fault: &str,
    path: &str,
) -> Result<String, AllocError>
    ensures { IfOk result (λ s. string_bytes s ≡ numbered stands name.now n fault.now path.now) }
{
    let path = quoted_text(alloc, path)?;
    match stands {
        First => format!(in alloc;
            "{{\"{name}\":{n},\"error\":\"bad_file\",\"fault\":\"{fault}\",\"path\":{path}}}"
        ),
        Inside => format!(in alloc;
            "{{\"error\":\"bad_file\",\"fault\":\"{fault}\",\"{name}\":{n},\"path\":{path}}}"
        ),
        Last => format!(in alloc;
            "{{\"error\":\"bad_file\",\"fault\":\"{fault}\",\"path\":{path},\"{name}\":{n}}}"
        ),
    }
}
