// A lexer as a taker.
ghost use Rattle.dpl_limits.specs.declared.TheConstants.{MOST_LAYOUT_BYTES};

use dpl_ext::{NoMemory, Taker};
use dpl_lex::Lexer;

/// Feeds a lexer with what it takes.
#[derive(Drop)]
pub struct Feeder {
    pub lexer: Lexer,
}

impl Taker for Feeder {
    ghost got = { λ s. s.lexer };

    ghost room = { λ _. MOST_LAYOUT_BYTES };

    fn take(&mut self, piece: &[u8]) -> Result<(), NoMemory> {
        self.lexer.feed(piece)
    }
}
