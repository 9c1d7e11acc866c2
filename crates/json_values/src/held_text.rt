use std::alloc::{AllocError, Global};
use std::marker::Model;

/// A text that was read, or that is to be written. A contract sees its bytes, which are UTF-8.
#[derive(Debug, Drop)]
pub struct Text {
    text: String,
}

impl Model for Text {
    ghost use Rattle.std.specs.{Prelude.{ℕ, List}, String.{string_bytes}};

    ghost Value = { List ℕ };

    ghost view = { λ t. string_bytes t.text };
}

impl Text {
    ghost use Rattle.std.specs.{Prelude.{◌≡◌, IfOk}, Str.{IsUtf8}, String.{string_bytes}};

    /// A text with these characters; the one error is want of memory.
    pub fn of(alloc: Global, text: &str) -> Result<Text, AllocError>
        ensures { IfOk result (λ made. made ≡ text.now) }
    {
        Ok(Text::from_string(String::from_str(alloc, text)?))
    }

    /// Takes the string over; no byte is copied. It takes no memory, so a text can be made in room that was reserved
    /// before.
    pub fn from_string(text: String) -> Text
        ensures { result ≡ string_bytes text }
    {
        Text { text }
    }

    /// The text.
    pub fn as_str(&self) -> &str
        ensures value { result.now ≡ self.now }
        ensures utf8 { IsUtf8 self.now }
    {
        self.text.as_str()
    }

    /// Gives the string back.
    pub fn into_string(self) -> String
        ensures { string_bytes result ≡ self }
    {
        self.text
    }
}
