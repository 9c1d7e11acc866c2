//! Tables: rows of a line and, behind an arrow, what is told of it.
use std::alloc::Global;
use std::test::Fail;

/// What is told of the lines of a table, one after the other.
pub(crate) trait Telling {
    fn told(&mut self, alloc: Global, line: &str) -> Result<String, Fail>;
}

/// The rows of which something else is told than what stands behind the arrow, each with what is told; nothing where all
/// rows hold. A row that begins with `#` says what those behind it are about.
pub(crate) fn others<T: Telling>(
    alloc: Global,
    telling: &mut T,
    table: &str,
) -> Result<String, Fail> {
    let mut others = String::new(alloc);
    for row in table.split('\n') {
        if !row.starts_with('#') {
            others.push_str(other(alloc, telling, row)?.as_str())?;
        }
    }
    Ok(others)
}

/// The row with what is told of it, as a line; nothing where it holds.
fn other<T: Telling>(alloc: Global, telling: &mut T, row: &str) -> Result<String, Fail> {
    let Some((line, wanted)) = row.split_once(" => ") else {
        return Ok(format!(in alloc; "{row} has no arrow\n")?);
    };
    let told = telling.told(alloc, line)?;
    if told.as_str() == wanted {
        Ok(String::new(alloc))
    } else {
        Ok(format!(in alloc; "{line} => {told}\n")?)
    }
}
