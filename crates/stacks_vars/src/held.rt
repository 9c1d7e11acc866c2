use std::alloc::{AllocError, Global};
use std::marker::Model;

/// A value behind a pointer, for a field that is mostly empty. A contract sees it as the value.
#[derive(Debug, Drop)]
pub struct Held<T> {
    inner: Box<T>,
}

impl<T> Model for Held<T> {
    ghost Value = { T };

    ghost coded = { T.code };

    ghost view = { λ it. it.inner.value };
}

impl<T> Held<T> {
    ghost use Rattle.std.specs.Prelude.{◌≡◌};

    /// The value that is held. It takes no memory.
    pub fn get(&self) -> &T
        ensures { result.now ≡ self.now }
    {
        self.inner.as_ref()
    }

    /// The value, and its memory is given back.
    pub fn into_value(self) -> T
        ensures { result ≡ self }
    {
        Box::into_inner(self.inner)
    }
}

impl<T: Drop> Held<T> {
    ghost use Rattle.std.specs.Prelude.{◌≡◌, IfOk};

    /// This value held; the one error is want of memory, and the value is gone with it.
    pub fn of(alloc: Global, value: T) -> Result<Held<T>, AllocError>
        ensures { IfOk result (λ held. held ≡ value) }
    {
        Ok(Held {
            inner: Box::new(alloc, value)?,
        })
    }
}
