// What is handed a text in pieces.
ghost use Rattle.std.specs.Prelude.{◌≡◌, ℕ, ◌+◌, ◌^◌, ◌≤◌, ◌++◌, List, length, OnOk, OnErr};

use std::alloc::AllocError as NoMemory;

/// Takes a text piece by piece.
pub trait Taker {
    // The bytes taken so far.
    ghost got: { Self → List ℕ };
    // How many bytes it has room for.
    ghost room: { Self → ℕ };

    /// Takes the next piece, or nothing of it.
    fn take(&mut self, piece: &[u8]) -> Result<(), NoMemory>
        requires { length (got self.old) + length piece.now ≤ room self.old }
        ensures taken { OnOk result (got self.new ≡ got self.old ++ piece.now) }
        ensures same { OnErr result (got self.new ≡ got self.old) }
        ensures room { room self.new ≡ room self.old };
}

impl Taker for Vec<u8> {
    ghost got = { λ s. s.items };

    ghost room = { λ _. 2 ^ 32 };

    fn take(&mut self, piece: &[u8]) -> Result<(), NoMemory> {
        self.extend_from_slice(piece)
    }
}
