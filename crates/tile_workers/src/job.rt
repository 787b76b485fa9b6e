ghost use Rattle.std.specs.Prelude.{◌≡◌, ◌<◌, ◌↔◌, ℕ, IfOk, IfSome, IsSome};

use memory_core::Memory;
use std::alloc::Global;

/// A job of pieces that may be run on several threads, each piece by itself, also while the job's owner goes on. Pieces are
/// numbered from 0.
pub trait Job: Send + Sync {
    /// What a piece gives. It names the work that it is the result of.
    type Out: Send + Sync + Drop;

    /// How many pieces there are.
    ghost pieces: { Self → ℕ };

    /// The number of the tile that a piece is about.
    ghost tiles: { Self → ℕ → ℕ };

    /// What the result of a piece is.
    ghost gives: { Self → ℕ → Self.Out → Type 0 };

    /// Whether the work that a result names is that of a piece.
    ghost names: { Self → ℕ → Self.Out → Type 0 };

    /// The number of pieces.
    fn count(&self) -> u32
        ensures { result ≡ pieces self.now };

    /// The number of the tile that a piece is about, which a gate may be told.
    fn tile(&self, i: u32) -> u32
        requires { i < pieces self.now }
        ensures { result ≡ tiles self.now i };

    /// The result of a piece; `Memory` where there is none for it.
    fn run(&self, alloc: Global, i: u32) -> Result<Self::Out, Memory>
        requires { i < pieces self.now }
        ensures gives { IfOk result (gives self.now i) }
        ensures names { IfOk result (names self.now i) };

    /// The result of a piece once more, where `out` names the work of that piece; `out` may be what another piece gave, also one
    /// of another job. `Memory` where there is none for it.
    fn again(&self, alloc: Global, i: u32, out: &Self::Out) -> Result<Option<Self::Out>, Memory>
        requires { i < pieces self.now }
        ensures names { IfOk result (λ again. IsSome again ↔ names self.now i out.now) }
        ensures gives { IfOk result (λ again. IfSome again (gives self.now i)) };
}
