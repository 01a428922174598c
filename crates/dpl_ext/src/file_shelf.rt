// Files as a shelf.
ghost use Rattle.std.specs.Prelude.{◌≡◌, [], map, string_bytes, Ok, Some, None};
ghost use Rattle.std.specs.Io.{ReadsAtMost};
ghost use Rattle.std.specs.Io.KnownBytes.{ReadConsumes};
ghost use Rattle.dpl_ext.specs.Device.{HasCause, CountsGiven, RoseBy};
ghost use Rattle.dpl_ext.specs.Memory.{left_of_file};

use crate::devices::{Failed, Shelf, Source};
use crate::interrupted::read_again;
use crate::opening::OpenEnd;
use std::alloc::Global;
use std::fs;
use std::rt::Files;

/// The files that a runtime reaches, as a shelf that tells nothing of their texts. Each error is a fault, but for
/// interrupted reads, which are made again.
#[derive(Drop)]
pub struct FileShelf<'a, R: Files> {
    rt: &'a R,
    alloc: Global,
    file: Option<R::File>,
    faults: u64,
    given: u64,
    reads: u64,
    asked: Vec<String>,
}

impl<'a, R: Files> FileShelf<'a, R> {
    /// A shelf that was asked for no name and has no file open; nothing is counted yet.
    pub fn new(rt: &'a R, alloc: Global) -> FileShelf<'a, R>
        ensures counts { (result.faults ≡ 0) × (result.given ≡ 0) × (result.reads ≡ 0) }
        ensures asked { result.asked.items ≡ [] }
        ensures closed { result.file ≡ None }
    {
        FileShelf {
            rt,
            alloc,
            file: None,
            faults: 0,
            given: 0,
            reads: 0,
            asked: Vec::new(alloc),
        }
    }
}

impl<'a, R: Files> Source for FileShelf<'a, R> {
    ghost seen = { λ s. record {
      left = left_of_file s.file;
      faults = s.faults;
      given = s.given;
      asked = map string_bytes s.asked.items;
    } };

    ghost reads = { λ s. s.reads };

    fn read(&mut self, into: &mut [u8]) -> Result<usize, Failed>
        ensures bound { ReadsAtMost result into.new }
        ensures bytes { ReadConsumes (left_of_file self.old.file) (left_of_file self.new.file)
            result into.new }
        ensures counted { CountsGiven self.old.given self.new.given result }
        ensures cause { HasCause self.old.faults self.new.faults result }
        ensures same { self.new.asked.items ≡ self.old.asked.items }
        ensures reads { RoseBy 1 self.old.reads self.new.reads }
        ensures closed { self.old.file ≡ None → result ≡ Ok 0 }
    {
        let given = self.given;
        self.reads = self.reads.saturating_add(1);
        let Some(file) = &mut self.file else {
            return Ok(0);
        };
        match read_again(file, into) {
            Ok(count) => {
                self.given = given.saturating_add(count as u64);
                Ok(count)
            }
            Err(_) => {
                self.faults = self.faults.saturating_add(1);
                Err(Failed)
            }
        }
    }
}

impl<'a, R: Files> Shelf for FileShelf<'a, R> {
    ghost texts = { λ _. None };

    fn open(&mut self, name: &str) -> Result<(), OpenEnd> {
        self.file = None;
        let Ok(held) = String::from_str(self.alloc, name) else {
            return Err(OpenEnd::NoMemory);
        };
        if self.asked.push(held).is_err() {
            return Err(OpenEnd::NoMemory);
        }
        match fs::open(self.rt, name) {
            Ok(file) => {
                self.file = Some(file);
                Ok(())
            }
            Err(_) => {
                self.faults = self.faults.saturating_add(1);
                Err(OpenEnd::Failed)
            }
        }
    }
}
