ghost use Rattle.std.specs.Prelude.{◌≡◌, IfOk};

use scm_text::OutOfMemory;
use std::alloc::Global;
use std::marker::Model;
use std::ops::Deref;

/// A value in memory of its own, so that whatever holds one is small. Contracts see the value.
#[derive(Drop)]
pub struct Apart<T> {
    value: Box<T>,
}

impl<T> Model for Apart<T> {
    ghost Value = { T };

    ghost view = { λ a. a.value.value };
}

impl<T> Apart<T> {
    pub fn new(alloc: Global, value: T) -> Result<Self, OutOfMemory>
    where
        T: Drop,
        ensures { IfOk result (λ apart. apart ≡ value) }
    {
        match Box::new(alloc, value) {
            Ok(value) => Ok(Apart { value }),
            Err(_) => Err(OutOfMemory),
        }
    }

    /// Gives the value back, and frees the memory that it was in.
    pub fn into_inner(self) -> T
        ensures { result ≡ self }
    {
        Box::into_inner(self.value)
    }
}

impl<T> Deref for Apart<T> {
    type Target = T;

    ghost deref_gives = { λ apart value. value ≡ apart };

    fn deref(&self) -> &T {
        &self.value
    }
}
