//! Lines that are answered one after another.
ghost use Rattle.std.specs.Prelude.{◌≡◌, List, ℕ, Some, Err, IfOk};
ghost use Rattle.text_lines.specs.Answers.{AnswersFrom, AnswersTo, Gives};
ghost use Rattle.text_lines.specs.Ends.{Ends, EndsLine, IsBetweenLines};
ghost use Rattle.text_lines.specs.WordFaults.{line_fault};
ghost use Rattle.text_lines.specs.declared.answering.LineFault.TheVariants.{OutOfMemory};

use crate::fault::StreamFault;
use crate::lines::Lines;
use crate::output::write_line;
use crate::words::WordFault;
use std::alloc::{AllocError, Global};
use std::fmt::Display;
use std::io::{Read, Write};

/// Why a line wasn't answered.
#[derive(Clone, Copy, PartialEq, Eq, Debug)]
pub enum LineFault {
    /// It isn't in the form of a line.
    Bad,
    /// What lies below the answerer was lost.
    Lost,
    /// Memory was refused.
    OutOfMemory,
}

impl From<WordFault> for LineFault {
    ghost from_gives = { λ word fault. fault ≡ line_fault word };

    fn from(fault: WordFault) -> LineFault {
        match fault {
            WordFault::Bad => LineFault::Bad,
            WordFault::OutOfMemory => LineFault::OutOfMemory,
        }
    }
}

impl From<AllocError> for LineFault {
    ghost from_gives = { λ _ fault. fault ≡ OutOfMemory };

    fn from(_: AllocError) -> LineFault {
        LineFault::OutOfMemory
    }
}

/// What answers lines, one after another.
pub trait Answerer {
    /// What a line is answered by.
    type Reply: Display + Drop;

    // From the first to the second, it answers the line by this text.
    ghost Answers: { Self → List ℕ → List ℕ → Self → Type 0 };

    // The text is no line for it.
    ghost IsNoLine: { List ℕ → Type 0 };

    // What lies below it did what it promised, until now.
    ghost IsClean: { Self → Type 0 };

    // What lies below it may be lost.
    ghost MayLose: { Type 0 };

    /// Answers the line.
    fn answer(&mut self, alloc: Global, line: &[u8]) -> Result<Self::Reply, LineFault>
        ensures answers { IsClean self.new → IfOk result (λ reply.
            (text : List ℕ) × (Self.Reply.output reply ≡ Some text) × Answers self.old line.now text self.new) }
        ensures bad { result ≡ Err LineFault.Bad → IsNoLine line.now }
        ensures unchanged { result ≡ Err LineFault.Bad → self.new ≡ self.old }
        ensures lost { result ≡ Err LineFault.Lost → MayLose }
        ensures clean { IsClean self.new → IsClean self.old };
}

/// Answers each line of the reader, in its turn, by a line.
pub fn answer_lines<A: Answerer, R: Read, O: Write>(
    alloc: Global,
    answerer: &mut A,
    input: &mut R,
    output: &mut O,
) -> Result<(), StreamFault>
    ensures ends { A.IsClean answerer.new → Ends (AnswersFrom A.Answers answerer.old) A.IsNoLine
        (R.remaining input.old) (O.contents output.old) (O.contents output.new) result }

    // between two lines, the answerer is where the lines that are answered led
    ensures leads { A.IsClean answerer.new → IsBetweenLines result
        → Ends (AnswersTo A.Answers answerer.old answerer.new) A.IsNoLine
        (R.remaining input.old) (O.contents output.old) (O.contents output.new) result }
    ensures lost { result ≡ Err StreamFault.Lost → A.MayLose }
    ensures clean { A.IsClean answerer.new → A.IsClean answerer.old }
{
    let mut lines = Lines::new(alloc)?;
    while lines.advance(input)? {
        answer_line(alloc, answerer, &lines, output)?;
    }
    Ok(())
}

// Answers the line that was read.
fn answer_line<A: Answerer, O: Write>(
    alloc: Global,
    answerer: &mut A,
    lines: &Lines,
    output: &mut O,
) -> Result<(), StreamFault>
    ensures ends { A.IsClean answerer.new
        → EndsLine (Gives A.Answers answerer.old lines.now.line answerer.new) A.IsNoLine
        lines.now (O.contents output.old) (O.contents output.new) result }
    ensures bad { (number : ℕ) → result ≡ Err (StreamFault.BadLine number) → answerer.new ≡ answerer.old }
    ensures lost { result ≡ Err StreamFault.Lost → A.MayLose }
    ensures clean { A.IsClean answerer.new → A.IsClean answerer.old }
{
    let reply = match answerer.answer(alloc, lines.line()) {
        Ok(reply) => reply,
        Err(LineFault::Bad) => return Err(StreamFault::BadLine(lines.number())),
        Err(LineFault::Lost) => return Err(StreamFault::Lost),
        Err(LineFault::OutOfMemory) => return Err(StreamFault::OutOfMemory),
    };
    write_line(alloc, output, &reply)
}
