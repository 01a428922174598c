//! Lists of values that contracts see as the lists of their items: `Items`, and `Grouped`, which has them in rows by
//! their keys.
#![tactic(auto)]

mod rows;

ghost use Rattle.std.specs.Prelude.{◌≡◌};

pub use rows::Grouped;
use std::marker::Model;

/// Items in their order. It is made from a `Vec` and gives it back, and neither takes memory.
#[derive(Drop)]
pub struct Items<T> {
    values: Vec<T>,
}

impl<T> Model for Items<T> {
    ghost use Rattle.std.specs.Prelude.{List};

    ghost Value = { List T };

    ghost view = { λ s. s.values.items };
}

impl<T> Items<T> {
    /// These values in their order.
    pub fn new(values: Vec<T>) -> Items<T>
        ensures { result ≡ values.items }
    {
        Items { values }
    }

    /// The items in their order.
    pub fn as_slice(&self) -> &[T]
        ensures { result.now ≡ self.now }
    {
        self.values.as_slice()
    }

    /// The values again, in their order.
    pub fn into_vec(self) -> Vec<T>
        ensures { result.items ≡ self }
    {
        let Items { values } = self;
        values
    }
}
