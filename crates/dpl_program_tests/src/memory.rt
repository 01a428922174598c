ghost use Rattle.std.specs.Prelude.{[], None, Some};

use crate::edits::EDIT;
use crate::runs::{CHECK, TWO};
use dpl_ext::{Failed, MemSink, MemSource, OpenEnd, Shelf, Source};
use dpl_run::{Status, run};
use std::alloc::Global;
use std::test::Fail;

/// A shelf of no text, that wants memory wherever it is to open one.
#[derive(Drop)]
struct Cramped {
    reads: u64,
}

impl Source for Cramped {
    ghost seen = { λ _. record { left = Some []; faults = 0; given = 0; asked = [] } };

    ghost reads = { λ s. s.reads };

    fn read(&mut self, _into: &mut [u8]) -> Result<usize, Failed> {
        self.reads = self.reads.saturating_add(1);
        Ok(0)
    }
}

impl Shelf for Cramped {
    ghost texts = { λ _. None };

    fn open(&mut self, _name: &str) -> Result<(), OpenEnd> {
        Err(OpenEnd::NoMemory)
    }
}

/// Words of a command line.
fn words_of(alloc: Global, line: &str) -> Result<Vec<String>, Fail> {
    let mut words = Vec::new(alloc);
    for word in line.split_whitespace() {
        words.push(String::from_str(alloc, word)?)?;
    }
    Ok(words)
}

/// Want of memory has an exit status and a line of its own, and nothing is written.
#[test]
fn want_of_memory_is_told(rt: HostRuntime) -> Result<(), Fail> {
    let alloc = rt.alloc();
    for line in [CHECK, EDIT] {
        let words = words_of(alloc, line)?;
        let text = Vec::from_slice(alloc, TWO)?;
        let mut layout = MemSource::new(text, 10, Vec::new(alloc));
        let mut out = MemSink::new(alloc, 1000, 40, Vec::new(alloc))?;
        let mut err = MemSink::new(alloc, 1000, 40, Vec::new(alloc))?;
        let mut second = Cramped { reads: 0 };
        let words = words.as_slice();
        let status = run(alloc, words, &mut layout, &mut second, &mut out, &mut err);
        assert_eq!(rt; status, Status::NoMemory);
        assert_eq!(rt; status.code(), 7u8);
        assert_eq!(rt; err.bytes(), b"dpl: no memory\n".as_slice());
        assert_eq!(rt; out.bytes().len(), 0);
    }
    Ok(())
}
