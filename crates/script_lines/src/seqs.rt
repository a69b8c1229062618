//! The numbers of the records of one call.
ghost use Rattle.std.specs.Prelude.{◌≡◌, Some};
ghost use Rattle.script_lines.specs.Replies.{numbers_text};

use std::fmt;
use std::marker::Model;

/// Numbers of records. They print with a comma between each two.
#[derive(Drop)]
pub struct Seqs {
    numbers: Vec<u64>,
}

impl Model for Seqs {
    ghost use Rattle.std.specs.Prelude.{ℕ, List};

    ghost Value = { List ℕ };

    ghost view = { λ s. s.numbers.items };
}

impl Seqs {
    /// It doesn't allocate.
    pub fn of(numbers: Vec<u64>) -> Seqs
        ensures { result ≡ numbers.items }
    {
        Seqs { numbers }
    }
}

impl fmt::Display for Seqs {
    ghost output = { λ seqs. Some (numbers_text seqs) };

    fn fmt<W: fmt::Write>(&self, f: &mut fmt::Formatter<W>) -> fmt::Result {
        if let [first, others @ ..] = self.numbers.as_slice() {
            write!(f, "{first}")?;
            for seq in others {
                write!(f, ",{seq}")?;
            }
        }
        Ok(())
    }
}
