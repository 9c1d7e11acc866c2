//! What the replies to the queries of a made tree add up to.
ghost use Rattle.std.specs.Prelude.{◌≡◌, ◌<◌, IfOk, string_bytes};
ghost use Rattle.nav_demo.specs.Summary.{is_crowded, is_crowded_error, is_limited, rows_of, digit_at, number_in, file_with, nothing, sum_with, sum_of_rows, counted_if, totals_with, first_members, summary_text};

use crate::graph::path;
use nav_proto::{PlainError, Reply};
use std::alloc::{AllocError, Global};
use version_tree::Row;

/// What the replies to queries add up to, one query a file. Each count stays at the end of its type.
#[derive(Clone, Copy, Debug, PartialEq, Eq)]
pub struct Totals {
    /// How many say that the reference is crowded.
    pub crowded: u64,
    /// How many say that a run was left out for its length or depth.
    pub limited: u64,
    /// How many there are.
    pub references: u64,
    /// How many rows they have together.
    pub rows: u64,
    /// Over all rows, the number of the file that asks and one, times the number of the row's file and one, modulo
    /// 2^32. A row in a file that is none of the tree's adds nothing.
    pub sum: u32,
}

/// Whether the reply says that the reference is crowded.
fn is_crowded(reply: &Reply) -> bool
    ensures { result ≡ is_crowded reply.now }
{
    match reply {
        Reply::Plain(error) => is_crowded_error(*error),
        _ => false,
    }
}

fn is_crowded_error(error: PlainError) -> bool
    ensures { result ≡ is_crowded_error error }
{
    matches!(error, PlainError::Crowded)
}

/// Whether the reply says that a run was left out.
fn is_limited(reply: &Reply) -> bool
    ensures { result ≡ is_limited reply.now }
{
    match reply {
        Reply::Rows(answer) => answer.limit,
        _ => false,
    }
}

/// The rows of the reply.
fn rows_of(reply: &Reply) -> &[Row]
    ensures { result.now ≡ rows_of reply.now }
{
    match reply {
        Reply::Rows(answer) => answer.rows.items(),
        Reply::Callers(rows) => rows.items(),
        _ => &[],
    }
}

/// The digit at this position of a path, as a number.
fn digit_at(path: &[u8], n: usize) -> u32
    ensures value { result ≡ digit_at path.now n }
    ensures below { result < 256 }
{
    match path.get(n) {
        Some(byte) => u32::from(byte.saturating_sub(48)),
        None => 0,
    }
}

/// The number in four digits behind the first byte of a path.
fn number_in(path: &[u8]) -> u32
    ensures { result ≡ number_in path.now }
{
    digit_at(path, 1) * 1000 + digit_at(path, 2) * 100 + digit_at(path, 3) * 10 + digit_at(path, 4)
}

/// Which of so many files has this path. The one error is want of memory.
fn file_with(alloc: Global, files: u32, text: &str) -> Result<Option<u32>, AllocError>
    ensures { IfOk result (λ file. file ≡ file_with files text.now) }
{
    let n = number_in(text.as_bytes());
    let made = path(alloc, n)?;
    if n < files && text == made.as_str() {
        Ok(Some(n))
    } else {
        Ok(None)
    }
}

/// The sum with a row in that file, asked for by file k.
fn sum_with(k: u32, sum: u32, file: Option<u32>) -> u32
    ensures { result ≡ sum_with k sum file }
{
    match file {
        Some(n) => sum.wrapping_add(k.wrapping_add(1).wrapping_mul(n.wrapping_add(1))),
        None => sum,
    }
}

/// The sum with these rows, asked for by file k. The one error is want of memory.
fn sum_of_rows(alloc: Global, files: u32, k: u32, sum: u32, rows: &[Row]) -> Result<u32, AllocError>
    ensures { IfOk result (λ all. all ≡ sum_of_rows files k sum rows.now) }
{
    let mut all = sum;
    for row in rows {
        let file = file_with(alloc, files, row.path.as_str())?;
        all = sum_with(k, all, file);
    }
    Ok(all)
}

/// One more where it is told so.
fn counted_if(told: bool, n: u64) -> u64
    ensures { result ≡ counted_if told n }
{
    if told { n.saturating_add(1) } else { n }
}

impl Totals {
    /// Before the first reply.
    pub(crate) fn nothing() -> Totals
        ensures { result ≡ nothing }
    {
        Totals {
            crowded: 0,
            limited: 0,
            references: 0,
            rows: 0,
            sum: 0,
        }
    }

    /// With the reply to the query of file k, of so many. The one error is want of memory.
    pub(crate) fn with(
        self,
        alloc: Global,
        files: u32,
        k: u32,
        reply: &Reply,
    ) -> Result<Totals, AllocError>
        ensures { IfOk result (λ totals. totals ≡ totals_with files k self reply.now) }
    {
        let rows = rows_of(reply);
        let sum = sum_of_rows(alloc, files, k, self.sum, rows)?;
        Ok(Totals {
            crowded: counted_if(is_crowded(reply), self.crowded),
            limited: counted_if(is_limited(reply), self.limited),
            references: self.references.saturating_add(1),
            rows: self.rows.saturating_add(rows.len() as u64),
            sum,
        })
    }

    // The first members of the line that tells them.
    fn first_members(self, alloc: Global, files: u32) -> Result<String, AllocError>
        ensures { IfOk result (λ text. string_bytes text ≡ first_members files self) }
    {
        let Totals {
            crowded,
            limited,
            ..
        } = self;
        format!(in alloc; "{{\"crowded\":{crowded},\"files\":{files},\"limited\":{limited}")
    }

    /// The line that tells them of so many files, without its newline. The one error is want of memory.
    pub(crate) fn text(self, alloc: Global, files: u32) -> Result<String, AllocError>
        ensures { IfOk result (λ text. string_bytes text ≡ summary_text files self) }
    {
        let first = self.first_members(alloc, files)?;
        let Totals {
            references,
            rows,
            sum,
            ..
        } = self;
        format!(in alloc; "{first},\"references\":{references},\"rows\":{rows},\"sum\":{sum}}}")
    }
}
