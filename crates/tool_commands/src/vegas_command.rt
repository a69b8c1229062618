//! `relayd vegas`: the limit after each of some samples.
ghost use Rattle.std.specs.Prelude.{◌≡◌, ◌<◌, ◌≤◌, Bool, [], ◌∷◌, Some, IfSome, IfOk};
ghost use Rattle.text_lines.specs.Parts.{line};
ghost use Rattle.vegas.specs.declared.sample.Sample.{Sample as Taken};
ghost use Rattle.vegas.specs.Estimators.{sample_of};
ghost use Rattle.tool_commands.specs.Traces.{Traces, WritesTrace, ReportsTrace};
ghost use Rattle.tool_commands.specs.Traces.{AnswersSample, ReadsSample, IsNoSample};
ghost use Rattle.tool_commands.specs.Traces.{HasThreeWords, IsSample, answer_words, end_word, estimator_words};

use command_interface::{CommandFault, end};
use relay_types::MaxLimit;
use std::alloc::Global;
use std::fmt;
use std::io::{Read, Write};
use text_lines::{
    Answerer, LineFault, StreamFault, WordFault, answer_lines, count_words, is_word, read_max,
    read_number, split,
};
use vegas::{Estimator, State};

/// The most posts in flight of a sample.
pub const MAX_IN_FLIGHT: u64 = 1000;

/// The longest round trip of a sample, in microseconds.
pub const MAX_ROUND_TRIP: u64 = (1 << 63) - 1;

// What a line says of a post.
#[derive(Clone, Copy)]
struct Sample {
    rtt: u64,
    inflight: u32,
    dropped: bool,
    ghost room: { inflight ≤ 1000 },
}

/// The numbers before the last samples, and how many these are.
#[derive(Clone, Copy)]
pub struct Base {
    state: State,
    count: usize,
}

/// A limit, and a no-load time in microseconds, with what explains them where that is asked for.
#[derive(Clone, Copy)]
pub struct LimitLine {
    limit: u32,
    noload: u64,
    base: Option<Base>,
}

impl fmt::Display for LimitLine {
    ghost output = { λ n. Some (line (answer_words n)) };

    fn fmt<W: fmt::Write>(&self, f: &mut fmt::Formatter<W>) -> fmt::Result {
        let LimitLine {
            limit,
            noload,
            base,
        } = self;
        match base {
            None => write!(f, "{limit} {noload}"),
            Some(Base { state, count }) => {
                let State {
                    limit: first,
                    noload: without_load,
                    probes,
                } = state;
                write!(
                    f,
                    "{limit} {noload} from {first} {without_load} {probes} by {count}"
                )
            }
        }
    }
}

/// The limit that follows the samples of lines, and whether each answer explains it.
#[derive(Drop)]
pub struct Follower {
    estimator: Estimator,
    explains: bool,
}

impl Follower {
    // What is told after the last sample.
    fn numbers(&self) -> LimitLine
        ensures { estimator_words self.now.explains self.now.estimator ≡ answer_words result }
    {
        let (state, last) = self.estimator.explain();
        let base = Base {
            state,
            count: last.len(),
        };
        LimitLine {
            limit: self.estimator.limit(),
            noload: self.estimator.noload(),
            base: if self.explains { Some(base) } else { None },
        }
    }
}

impl Answerer for Follower {
    type Reply = LimitLine;

    ghost Answers = { AnswersSample };

    ghost IsNoLine = { IsNoSample };

    ghost IsClean = { λ _. Unit {0} };

    ghost MayLose = { ⊥ };

    fn answer(&mut self, alloc: Global, line: &[u8]) -> Result<LimitLine, LineFault> {
        let sample = read_sample(alloc, line)?;
        self.estimator
            .sample(sample.rtt, sample.inflight, sample.dropped);
        Ok(self.numbers())
    }
}

/// Takes a sample from each line of the reader, and writes the limit, which is at most the maximum,
/// and the no-load time after it: 0 done, 1 no maximum, 2 what was read, 3 every other fault. To
/// explain them it also writes the limit, the no-load time and the probe count before the last
/// samples, and how many these are.
pub fn vegas<R: Read, O: Write, E: Write>(
    alloc: Global,
    max: &str,
    explains: bool,
    input: &mut R,
    output: &mut O,
    errors: &mut E,
) -> u8
    ensures traces { ReportsTrace explains max.now (R.remaining input.old)
        (O.contents output.old) (O.contents output.new) (E.contents errors.old) (E.contents errors.new) result }
    ensures status { result ≤ 3 }
{
    end(errors, follow_samples(alloc, max, explains, input, output))
}

fn follow_samples<R: Read, O: Write>(
    alloc: Global,
    max: &str,
    explains: bool,
    input: &mut R,
    output: &mut O,
) -> Result<(), CommandFault>
    ensures { WritesTrace explains max.now (R.remaining input.old)
        (O.contents output.old) (O.contents output.new) result }
{
    let max = read_max(max.as_bytes())?;
    Ok(trace(alloc, max, explains, input, output)?)
}

// Reads a sample from each line, `RTT INFLIGHT ok` or `RTT INFLIGHT drop`, and writes what is told after it.
fn trace<R: Read, O: Write>(
    alloc: Global,
    max: MaxLimit,
    explains: bool,
    input: &mut R,
    output: &mut O,
) -> Result<(), StreamFault>
    ensures { Traces explains max (R.remaining input.old) (O.contents output.old) (O.contents output.new) result }
{
    let mut follower = Follower {
        estimator: Estimator::new(alloc, max)?,
        explains,
    };
    answer_lines(alloc, &mut follower, input, output)
}

// The sample that a line stands for.
fn read_sample(alloc: Global, text: &[u8]) -> Result<Sample, WordFault>
    ensures stands { IfOk result (λ x. ReadsSample text.now (sample_of x.rtt x.inflight x.dropped)) }
    ensures bad { result ≡ Err WordFault.Bad → IsNoSample text.now }
    ensures lacked { result ≡ Err WordFault.OutOfMemory → HasThreeWords text.now }
{
    if count_words(text) != 3 {
        return Err(WordFault::Bad);
    }
    let words = split(alloc, text)?;
    match words.as_slice() {
        [rtt, inflight, end] => read_words(rtt, inflight, end).ok_or(WordFault::Bad),
        _ => Err(WordFault::Bad),
    }
}

// The sample that has these words.
fn read_words(rtt: &[u8], inflight: &[u8], end: &[u8]) -> Option<Sample>
    ensures some { IfSome result
        (λ x. IsSample (rtt.now ∷ inflight.now ∷ end.now ∷ []) (sample_of x.rtt x.inflight x.dropped)) }
    ensures none { result ≡ None
        → (x : Taken) → IsSample (rtt.now ∷ inflight.now ∷ end.now ∷ []) x → ⊥ }
{
    let rtt = read_number(rtt)?;
    let inflight = read_number(inflight)?;
    let dropped = read_end(end)?;
    if rtt > MAX_ROUND_TRIP || inflight == 0 || inflight > MAX_IN_FLIGHT {
        return None;
    }
    Some(Sample {
        rtt,
        inflight: inflight as u32,
        dropped,
    })
}

// Whether the post was dropped.
fn read_end(word: &[u8]) -> Option<bool>
    ensures some { IfSome result (λ dropped. word.now ≡ end_word dropped) }
    ensures none { result ≡ None → (dropped : Bool) → word.now ≡ end_word dropped → ⊥ }
{
    if is_word(word, "ok") {
        Some(false)
    } else if is_word(word, "drop") {
        Some(true)
    } else {
        None
    }
}
