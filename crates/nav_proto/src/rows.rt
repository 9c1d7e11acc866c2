ghost use Rattle.std.specs.Prelude.{◌≡◌, ◌++◌, codes, decimal, string_bytes, IfOk, OnOk};
ghost use Rattle.nav_proto.specs.Rows.{answer_text, callers_text, flag_text, rows_text, row_text, span_text};

use graph_nodes::Span;
use itoa::Buffer;
use json_values::quoted_text;
use std::alloc::{AllocError, Global};
use version_tree::{Answer, Row, Rows};

/// So many bytes a row has whose path is of usual length, and an answer without rows.
const ROW_ROOM: usize = 96;

/// The answer to a query.
pub fn answer_text(alloc: Global, answer: &Answer) -> Result<String, AllocError>
    ensures { IfOk result (λ s. string_bytes s ≡ answer_text answer.now) }
{
    let rows = answer.rows.items();
    let mut text = String::with_capacity(alloc, room_for(rows))?;
    text.push_str("{\"limit\":")?;
    text.push_str(flag_text(answer.limit))?;
    text.push_str(",\"rows\":[")?;
    put_rows(alloc, rows, &mut text)?;
    text.push_str("]}")?;
    Ok(text)
}

/// The rows that `callers` finds.
pub fn callers_text(alloc: Global, rows: &Rows) -> Result<String, AllocError>
    ensures { IfOk result (λ s. string_bytes s ≡ callers_text rows.now) }
{
    let rows = rows.items();
    let mut text = String::with_capacity(alloc, room_for(rows))?;
    text.push_str("{\"rows\":[")?;
    put_rows(alloc, rows, &mut text)?;
    text.push_str("]}")?;
    Ok(text)
}

/// How many bytes an answer of these rows has, about, so that its text seldom grows.
fn room_for(rows: &[Row]) -> usize {
    rows.len().saturating_add(1).saturating_mul(ROW_ROOM)
}

/// The flag as JSON.
fn flag_text(flag: bool) -> &'static str
    ensures { result.now ≡ flag_text flag }
{
    if flag { "true" } else { "false" }
}

/// Adds the rows with a comma between each and the next.
fn put_rows(alloc: Global, rows: &[Row], text: &mut String) -> Result<(), AllocError>
    ensures { OnOk result
        (string_bytes text.new ≡ string_bytes text.old ++ rows_text rows.now) }
{
    let Some((first, rest)) = rows.split_first() else {
        return Ok(());
    };
    put_row(alloc, first, text)?;
    for row in rest {
        text.push_str(",")?;
        put_row(alloc, row, text)?;
    }
    Ok(())
}

/// Adds one row.
fn put_row(alloc: Global, row: &Row, text: &mut String) -> Result<(), AllocError>
    ensures { OnOk result (string_bytes text.new ≡ string_bytes text.old ++ row_text row.now) }
{
    text.push_str("{\"node\":")?;
    put_number(row.node, text)?;
    text.push_str(",\"path\":")?;
    text.push_str(quoted_text(alloc, row.path.as_str())?.as_str())?;
    text.push_str(",\"span\":")?;
    put_span(row.span, text)?;
    text.push_str("}")?;
    Ok(())
}

/// Adds a span, or `null`.
fn put_span(span: Option<Span>, text: &mut String) -> Result<(), AllocError>
    ensures { OnOk result (string_bytes text.new ≡ string_bytes text.old ++ span_text span) }
{
    let Some(span) = span else {
        text.push_str("null")?;
        return Ok(());
    };
    put_place("[", span.from_line, span.from_column, text)?;
    put_place(",", span.to_line, span.to_column, text)?;
    text.push_str("]")?;
    Ok(())
}

/// Adds a line and a column behind what comes before them.
fn put_place(before: &str, line: u32, column: u32, text: &mut String) -> Result<(), AllocError>
    ensures { OnOk result (string_bytes text.new ≡ string_bytes text.old
        ++ (before.now ++ (decimal line ++ (codes "," ++ decimal column)))) }
{
    text.push_str(before)?;
    put_number(line, text)?;
    text.push_str(",")?;
    put_number(column, text)
}

/// Adds the number in decimal digits.
fn put_number(n: u32, text: &mut String) -> Result<(), AllocError>
    ensures { OnOk result (string_bytes text.new ≡ string_bytes text.old ++ decimal n) }
{
    let mut buffer = Buffer::new();
    text.push_str(buffer.format(n))?;
    Ok(())
}
