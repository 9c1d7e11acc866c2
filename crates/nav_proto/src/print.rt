ghost use Rattle.std.specs.Prelude.{◌≡◌, string_bytes, IfOk};
ghost use Rattle.nav_proto.specs.Replies.{plain_word, reply_text, IsOneLine};

use crate::faults::bad_file_text;
use crate::rows::{answer_text, callers_text};
use crate::{PlainError, Reply, ReplyText};
use json_values::quoted_text;
use std::alloc::{AllocError, Global};

/// The reply's text, without a newline; the one error is want of memory. Its time follows the text's
/// length.
pub fn print_reply(alloc: Global, reply: &Reply) -> Result<ReplyText, AllocError>
    ensures text { IfOk result (λ text. text ≡ reply_text reply.now) }
    ensures one_line { IfOk result (λ text. IsOneLine text) }
{
    Ok(ReplyText::from_string(text_of(alloc, reply)?))
}

/// The reply's text as a string.
fn text_of(alloc: Global, reply: &Reply) -> Result<String, AllocError>
    ensures { IfOk result (λ s. string_bytes s ≡ reply_text reply.now) }
{
    match reply {
        Reply::Version(n) => format!(in alloc; "{{\"version\":{n}}}"),
        Reply::Done => String::from_str(alloc, "{\"ok\":true}"),
        Reply::Rows(answer) => answer_text(alloc, answer),
        Reply::Callers(rows) => callers_text(alloc, rows),
        Reply::Plain(error) => {
            let word = plain_word(*error);
            format!(in alloc; "{{\"error\":\"{word}\"}}")
        }
        Reply::BadRequest(field) => {
            let field = quoted_text(alloc, field.as_str())?;
            format!(in alloc; "{{\"error\":\"bad_request\",\"field\":{field}}}")
        }
        Reply::Stale(n) => format!(in alloc; "{{\"error\":\"stale\",\"head\":{n}}}"),
        Reply::Twice(path) => {
            let path = quoted_text(alloc, path.as_str())?;
            format!(in alloc; "{{\"error\":\"twice\",\"path\":{path}}}")
        }
        Reply::AbsentFile(path) => {
            let path = quoted_text(alloc, path.as_str())?;
            format!(in alloc; "{{\"error\":\"absent\",\"path\":{path}}}")
        }
        Reply::AbsentGrant(user, prefix) => {
            let prefix = quoted_text(alloc, prefix.as_str())?;
            let user = quoted_text(alloc, user.as_str())?;
            format!(in alloc; "{{\"error\":\"absent\",\"prefix\":{prefix},\"user\":{user}}}")
        }
        Reply::TooManyFiles(n) => format!(in alloc;
            "{{\"error\":\"too_many_files\",\"files\":{n}}}"
        ),
        Reply::TooHeavy(n) => format!(in alloc; "{{\"error\":\"too_heavy\",\"weight\":{n}}}"),
        Reply::BadFile { path, fault } => bad_file_text(alloc, path.as_str(), fault),
    }
}

/// The word of an error that carries nothing.
fn plain_word(error: PlainError) -> &'static str
    ensures { result.now ≡ plain_word error }
{
    match error {
        PlainError::BadJson => "bad_json",
        PlainError::NoUser => "no_user",
        PlainError::Forbidden => "forbidden",
        PlainError::Spent => "spent",
        PlainError::NoFile => "no_file",
        PlainError::NoReference => "no_reference",
        PlainError::NoDefinition => "no_definition",
        PlainError::Crowded => "crowded",
    }
}
