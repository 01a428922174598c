// A shelf in memory.
ghost use Rattle.std.specs.Prelude.{◌≡◌, ◌+◌, ◌-◌, ◌^◌, ◌<◌, ◌≤◌, ◌↔◌, ◌⊎◌, min, List, [], length, vec_len, drop, map, string_bytes, true, false, IfOk, IsErr, Contains, Ok, Err, Some, None, OnErr, OnOk, option_map};
ghost use Rattle.std.specs.Io.{ReadsAtMost};
ghost use Rattle.std.specs.Io.KnownBytes.{ReadConsumes};
ghost use Rattle.dpl_ext.specs.Device.{HasCause, CountsGiven, RoseBy, Seen, AnswersOpen, first_text};
ghost use Rattle.dpl_ext.specs.Memory.{HeldShelf, texts_of};

use crate::devices::{Failed, Shelf, Source};
use crate::opening::OpenEnd;
use std::alloc::{AllocError, Global};
use std::marker::Model;

/// Texts in memory as a shelf, which tells everything.
#[derive(Drop)]
pub struct MemShelf {
    alloc: Global,
    files: Vec<(String, Vec<u8>)>,
    text: Vec<u8>,
    at: usize,
    is_open: bool,
    piece: usize,
    fails: Vec<u64>,
    calls: u64,
    faults: u64,
    given: u64,
    reads: u64,
    asked: Vec<String>,
}

impl Model for MemShelf {
    ghost Value = { HeldShelf };

    ghost view = { λ s. record {
      texts = texts_of s.files.items;
      left = drop s.at s.text.items;
      is_open = s.is_open;
      piece = s.piece;
      fails = s.fails.items;
      calls = s.calls;
      faults = s.faults;
      given = s.given;
      reads = s.reads;
      asked = map string_bytes s.asked.items;
    } };

    ghost invariant = { λ s. (s.at ≤ vec_len s.text) × (0 < s.piece) ×
        (s.is_open ≡ false → s.text.items ≡ []) };
}

impl MemShelf {
    /// Of two texts of one name the first counts. Opens, and reads while a text is open, are counted together
    /// from 0, and those whose numbers are in `fails` fail. Each read gives at most `piece` bytes.
    pub fn new(
        alloc: Global,
        files: Vec<(String, Vec<u8>)>,
        piece: usize,
        fails: Vec<u64>,
    ) -> MemShelf
        requires { 0 < piece }
        ensures { result ≡ record {
          texts = texts_of files.items;
          left = [];
          is_open = false;
          piece = piece;
          fails = fails.items;
          calls = 0;
          faults = 0;
          given = 0;
          reads = 0;
          asked = [];
        } }
    {
        MemShelf {
            alloc,
            files,
            text: Vec::new(alloc),
            at: 0,
            is_open: false,
            piece,
            fails,
            calls: 0,
            faults: 0,
            given: 0,
            reads: 0,
            asked: Vec::new(alloc),
        }
    }
}

impl Source for MemShelf {
    ghost seen = { λ s. record {
      left = Some s.left;
      faults = s.faults;
      given = s.given;
      asked = s.asked;
    } };

    ghost reads = { λ s. s.reads };

    fn read(&mut self, into: &mut [u8]) -> Result<usize, Failed>
        ensures bound { ReadsAtMost result into.new }
        ensures bytes { ReadConsumes (Some self.old.left) (Some self.new.left) result into.new }
        ensures counted { CountsGiven self.old.given self.new.given result }
        ensures cause { HasCause self.old.faults self.new.faults result }
        ensures same { self.new.asked ≡ self.old.asked }
        ensures reads { RoseBy 1 self.old.reads self.new.reads }
        ensures closed { self.old.is_open ≡ false → (result ≡ Ok 0) ×
            (self.new.left ≡ self.old.left) × (self.new.calls ≡ self.old.calls) }
        ensures fails { self.old.is_open ≡ true →
            IsErr result ↔ Contains self.old.fails self.old.calls }
        ensures count { IfOk result (λ n.
            n ≡ min self.old.piece (min (length into.old) (length self.old.left))) }
        ensures calls { self.old.is_open ≡ true →
            self.new.calls ≡ min (self.old.calls + 1) (2 ^ 64 - 1) }
        ensures kept { (self.new.piece ≡ self.old.piece) × (self.new.fails ≡ self.old.fails) ×
            (self.new.texts ≡ self.old.texts) × (self.new.is_open ≡ self.old.is_open) }
    {
        let given = self.given;
        self.reads = self.reads.saturating_add(1);
        if !self.is_open {
            return Ok(0);
        }
        let call = self.calls;
        self.calls = call.saturating_add(1);
        if self.fails.contains(&call) {
            self.faults = self.faults.saturating_add(1);
            return Err(Failed);
        }
        let count = self.piece.min(into.len()).min(self.text.len() - self.at);
        let end = self.at + count;
        into[..count].copy_from_slice(&self.text[self.at..end]);
        self.at = end;
        self.given = given.saturating_add(count as u64);
        Ok(count)
    }
}

/// A copy of the first text of a name.
fn copy_of(
    alloc: Global,
    files: &[(String, Vec<u8>)],
    name: &str,
) -> Result<Option<Vec<u8>>, AllocError>
    ensures { IfOk result (λ r. option_map (λ v. v.items) r
        ≡ first_text name.now (texts_of files.now)) }
{
    for (key, text) in files {
        if key.as_str() == name {
            return Ok(Some(Vec::from_slice(alloc, text.as_slice())?));
        }
    }
    Ok(None)
}

impl Shelf for MemShelf {
    ghost texts = { λ s. Some s.texts };

    fn open(&mut self, name: &str) -> Result<(), OpenEnd>
        ensures answer { AnswersOpen (record {
          left = Some self.old.left;
          faults = self.old.faults;
          given = self.old.given;
          asked = self.old.asked;
        })
            (record {
              left = Some self.new.left;
              faults = self.new.faults;
              given = self.new.given;
              asked = self.new.asked;
            }) (Some self.old.texts) name.now result }
        ensures texts { Some self.new.texts ≡ Some self.old.texts }
        ensures reads { self.new.reads ≡ self.old.reads }
        ensures fails { (result ≡ Err OpenEnd.NoMemory) ⊎
            (IsErr result ↔ (Contains self.old.fails self.old.calls ⊎
            (first_text name.now self.old.texts ≡ None))) }
        ensures calls { (result ≡ Err OpenEnd.NoMemory → self.new.calls ≡ self.old.calls) ×
            ((result ≡ Err OpenEnd.NoMemory → ⊥) →
            self.new.calls ≡ min (self.old.calls + 1) (2 ^ 64 - 1)) }
        ensures kept { (self.new.piece ≡ self.old.piece) × (self.new.fails ≡ self.old.fails) }
        ensures state { (OnOk result (self.new.is_open ≡ true)) ×
            (OnErr result (self.new.is_open ≡ false)) }
    {
        self.is_open = false;
        self.text = Vec::new(self.alloc);
        self.at = 0;
        let Ok(held) = String::from_str(self.alloc, name) else {
            return Err(OpenEnd::NoMemory);
        };
        let Ok(copy) = copy_of(self.alloc, self.files.as_slice(), name) else {
            return Err(OpenEnd::NoMemory);
        };
        if self.asked.push(held).is_err() {
            return Err(OpenEnd::NoMemory);
        }
        let call = self.calls;
        self.calls = call.saturating_add(1);
        match copy {
            Some(text) if !self.fails.contains(&call) => {
                self.text = text;
                self.is_open = true;
                Ok(())
            }
            _ => {
                self.faults = self.faults.saturating_add(1);
                Err(OpenEnd::Failed)
            }
        }
    }
}
