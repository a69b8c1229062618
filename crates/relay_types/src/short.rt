//! Short texts, held inline.
ghost use Rattle.std.specs.Prelude.{◌≡◌, ◌≤◌, ◌↔◌, length, IsTrue, bytes_eq};

use std::marker::Model;

/// Up to `N` bytes, held in the value itself. A contract sees the list of the bytes.
#[derive(Clone, Copy, PartialEq, Eq)]
pub struct Short<const N: usize> {
    cells: [u8; N],
    len: usize,
}

impl<const N: usize> Model for Short<N> {
    ghost use Rattle.std.specs.Prelude.{◌≡◌, ◌≤◌, ◌-◌, ◌++◌, ℕ, List, length, take, drop, replicate};
    ghost use Rattle.std.proofs.Common.{◌∙◌, ap, sym, arith, take-append-drop, length-take-le};

    ghost Value = { List ℕ };

    ghost view = { λ s. take s.len s.cells };

    ghost invariant = { λ s. (s.len ≤ N) × (length s.cells ≡ N) × (drop s.len s.cells ≡ replicate (N - s.len) 0) };

    ghost inverse = { λ bytes. record {
      cells = bytes ++ replicate (N - length bytes) 0;
      len = length bytes;
    } };

    ghost inverse_ok = { λ s h i. record {
      cells = (ap (λ n. take s.len s.cells ++ replicate (N - n) 0) (length-take-le s.len s.cells (omega (arith, h.0, h.1)))
          ∙ ap (λ rest. take s.len s.cells ++ rest) (sym h.2) ∙ take-append-drop s.len s.cells) i;
      len = length-take-le s.len s.cells (omega (arith, h.0, h.1)) i;
    } };
}

impl<const N: usize> Short<N> {
    /// The bytes of the slice.
    pub fn of(bytes: &[u8]) -> Short<N>
        requires { length bytes.now ≤ N }
        ensures { result ≡ bytes.now }
    {
        let mut cells = [0; N];
        cells[..bytes.len()].copy_from_slice(bytes);
        Short {
            cells,
            len: bytes.len(),
        }
    }

    /// The bytes.
    pub fn as_slice(&self) -> &[u8]
        ensures bytes { result.now ≡ self.now }
        ensures room { length self.now ≤ N }
    {
        &self.cells[..self.len]
    }
}
