// A value with memory of its own.
ghost use Rattle.std.specs.Prelude.{◌≡◌, IfOk};

use std::alloc::{AllocError, Global};
use std::marker::Model;

/// A value with memory of its own, so that what holds it is small. Contracts see the value.
#[derive(Drop)]
pub struct Apart<T> {
    value: Box<T>,
}

impl<T> Model for Apart<T> {
    ghost use Rattle.std.specs.Prelude.{box_value};

    ghost Value = { T };

    ghost view = { λ s. box_value s.value };
}

impl<T: Drop> Apart<T> {
    /// This value in memory of its own. Its error is want of memory.
    pub fn new(alloc: Global, value: T) -> Result<Apart<T>, AllocError>
        ensures { IfOk result (λ a. a ≡ value) }
    {
        let value = Box::new(alloc, value)?;
        Ok(Apart { value })
    }

    /// The value.
    pub fn get(&self) -> &T
        ensures { result.now ≡ self.now }
    {
        &self.value
    }
}
