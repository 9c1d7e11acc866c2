use std::alloc::{AllocError, Global};
use std::marker::Model;

/// A path's text. A contract sees its bytes, which are UTF-8. The type itself holds any text; that
/// it has the form of a path is the reader's to see.
#[derive(Debug, Drop)]
pub struct PathText {
    text: String,
}

impl Model for PathText {
    ghost use Rattle.std.specs.{Prelude.{ℕ, List}, String.{string_bytes}};

    ghost Value = { List ℕ };

    ghost view = { λ p. string_bytes p.text };
}

impl PathText {
    ghost use Rattle.std.specs.{Prelude.{◌≡◌, IfOk}, Str.{IsUtf8}};

    /// A path of this text; the one error is want of memory.
    pub fn of(alloc: Global, text: &str) -> Result<PathText, AllocError>
        ensures { IfOk result (λ path. path ≡ text.now) }
    {
        Ok(PathText {
            text: String::from_str(alloc, text)?,
        })
    }

    /// The same text once more; the one error is want of memory.
    pub fn copy(&self, alloc: Global) -> Result<PathText, AllocError>
        ensures { IfOk result (λ path. path ≡ self.now) }
    {
        PathText::of(alloc, self.as_str())
    }

    /// The path as text.
    pub fn as_str(&self) -> &str
        ensures value { result.now ≡ self.now }
        ensures utf8 { IsUtf8 self.now }
    {
        self.text.as_str()
    }
}

/// A user's text. A contract sees its bytes, which are UTF-8. The type itself holds any text; that
/// it has the form of a user is the reader's to see.
#[derive(Debug, Drop)]
pub struct UserText {
    text: String,
}

impl Model for UserText {
    ghost use Rattle.std.specs.{Prelude.{ℕ, List}, String.{string_bytes}};

    ghost Value = { List ℕ };

    ghost view = { λ u. string_bytes u.text };
}

impl UserText {
    ghost use Rattle.std.specs.{Prelude.{◌≡◌, IfOk}, Str.{IsUtf8}};

    /// A user of this text; the one error is want of memory.
    pub fn of(alloc: Global, text: &str) -> Result<UserText, AllocError>
        ensures { IfOk result (λ user. user ≡ text.now) }
    {
        Ok(UserText {
            text: String::from_str(alloc, text)?,
        })
    }

    /// The same text once more; the one error is want of memory.
    pub fn copy(&self, alloc: Global) -> Result<UserText, AllocError>
        ensures { IfOk result (λ user. user ≡ self.now) }
    {
        UserText::of(alloc, self.as_str())
    }

    /// The user as text.
    pub fn as_str(&self) -> &str
        ensures value { result.now ≡ self.now }
        ensures utf8 { IsUtf8 self.now }
    {
        self.text.as_str()
    }
}
