// The names of layers.
ghost use Rattle.std.specs.Prelude.{◌≡◌, true, Some, None, if◌then◌else◌};
ghost use Rattle.std.specs.List.{list_all};
ghost use Rattle.dpl_lex.specs.Classes as classes;
ghost use Rattle.dpl_lex.specs.Name.{is_name};

use crate::classes::is_name_byte;
use std::marker::Model;

const LONGEST: usize = 32;

/// 1 to 32 digits and upper-case letters. Contracts see these bytes.
#[derive(Drop)]
pub struct Name {
    bytes: [u8; LONGEST],
    count: usize,
}

impl Model for Name {
    ghost use Rattle.std.specs.Prelude.{List, ℕ, take, ◌≤◌, ◌≡◌, true};
    ghost use Rattle.dpl_lex.specs.Name.{is_name};

    ghost Value = { List ℕ };

    ghost view = { λ s. take s.count s.bytes };

    ghost invariant = { λ s. (s.count ≤ 32) × (is_name (take s.count s.bytes) ≡ true) };
}

impl Name {
    /// `None` exactly where these are not 1 to 32 digits and upper-case letters.
    pub fn new(bytes: &[u8]) -> Option<Name>
        ensures { result ≡ (if is_name bytes.now then Some bytes.now else None) }
    {
        if !is_name_text(bytes) {
            return None;
        }
        let count = bytes.len();
        let mut held = [0u8; LONGEST];
        held[..count].copy_from_slice(bytes);
        Some(Name { bytes: held, count })
    }

    /// The bytes of the name: 1 to 32 digits and upper-case letters.
    pub fn bytes(&self) -> &[u8]
        ensures value { result.now ≡ self.now }
        ensures name { is_name self.now ≡ true }
    {
        &self.bytes[..self.count]
    }
}

fn is_name_text(bytes: &[u8]) -> bool
    ensures { result ≡ is_name bytes.now }
{
    !bytes.is_empty() && bytes.len() <= LONGEST && is_all_name(bytes)
}

fn is_all_name(bytes: &[u8]) -> bool
    ensures { result ≡ list_all classes.is_name_byte bytes.now }
{
    bytes.iter().all(|b| is_name_byte(*b))
}
