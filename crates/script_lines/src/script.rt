//! The lines of a script, and which calls they are.
ghost use Rattle.std.specs.Prelude.{◌≡◌, ℕ, List, [], ◌∷◌, ◌<◌, ◌^◌, ◌&&◌, false, IsTrue, IfErr, IfOk, IsErr, codes};
ghost use Rattle.std.specs.Prelude.{decimal};
ghost use Rattle.relay_types.specs.Values.{is_between, is_moment, is_msg_id, is_name, is_target};
ghost use Rattle.text_lines.specs.Parts.{texts};
ghost use Rattle.script_lines.specs.Script.{IsLineOfCall, IsLine, HasOneLineAtMost, HasFewWords, IsCall, MayAllocate};
ghost use Rattle.script_lines.specs.Script.{call_word, AreArguments};
ghost use Rattle.script_lines.specs.Script.{MayAllocateForPut, MayAllocateForSecrets, MayAllocateForSubmit};
ghost use Rattle.script_lines.specs.Script.{AreArgumentsOfPut, AreArgumentsOfSecrets, AreArgumentsOfSubscribed};
ghost use Rattle.script_lines.specs.Script.{AreArgumentsOfSubmit, AreArgumentsOfPublish};
ghost use Rattle.script_lines.specs.Script.{AreArgumentsOfSpend};
ghost use Rattle.script_lines.specs.Script.{AreArgumentsOfShow, IsNamed, IsSubmit, IsTold, IsMoment, IsResult};
ghost use Rattle.script_lines.specs.Script.{AreArgumentsOfNoPut, AreArgumentsOfNoSecrets, AreArgumentsOfNoSubmit};
ghost use Rattle.script_lines.specs.Script.{AreArgumentsOfNoSpend, AreWordsOfNoResult};
ghost use Rattle.script_lines.specs.Script.{AreArgumentsOfNoName, AreArgumentsOfNoTopic, AreArgumentsOfNoEvent};
ghost use Rattle.script_lines.specs.declared.call.Call.{Call};
ghost use Rattle.script_lines.specs.declared.call.Line.{Line};

use crate::call::{Call, Line};
use relay_types::{Body, Moment, MsgId, Name, ReadFault, Target};
use retry_table::{PostResult, Status};
use std::alloc::Global;
use text_lines::{
    WordFault, count_words, is_secrets_word, is_word, read_body, read_max, read_moment,
    read_number, read_secrets, split,
};

// The most words of a call.
const MAX_WORDS: usize = 5;

/// The call or stop that a line is. A stop doesn't allocate.
pub fn read_line(alloc: Global, line: &[u8]) -> Result<Line, WordFault>
    ensures stands { IfOk result (λ read. IsLine line.now read) }
    ensures stop { line.now ≡ codes "stop" → result ≡ Ok Line.Stop }
    ensures bad { result ≡ Err WordFault.Bad → (other : Line) → ¬ IsLine line.now other }
    ensures lacked { result ≡ Err WordFault.OutOfMemory → HasFewWords line.now }
{
    if is_word(line, "stop") {
        return Ok(Line::Stop);
    }
    Ok(Line::Call(read_call(alloc, line)?))
}

/// A law of scripts: a text is at most one line.
pub fn one_line_at_most()
    ensures { HasOneLineAtMost }
{}

/// The call that a line is. Only a line of few words allocates.
pub fn read_call(alloc: Global, line: &[u8]) -> Result<Call, WordFault>
    ensures stands { IfOk result (λ call. IsLineOfCall line.now call) }
    ensures bad { result ≡ Err WordFault.Bad → (call : Call) → ¬ IsLineOfCall line.now call }
    ensures lacked { result ≡ Err WordFault.OutOfMemory → HasFewWords line.now }
{
    if count_words(line) > MAX_WORDS {
        return Err(WordFault::Bad);
    }
    let words = split(alloc, line)?;
    read_words(alloc, words.as_slice())
}

// The call that has these words.
fn read_words(alloc: Global, words: &[&[u8]]) -> Result<Call, WordFault>
    ensures stands { IfOk result (λ call. IsCall (texts words.now) call) }
    ensures bad { result ≡ Err WordFault.Bad → (call : Call) → ¬ IsCall (texts words.now) call }
    ensures lacked { result ≡ Err WordFault.OutOfMemory
        → (word : List ℕ) × (others : List (List ℕ)) × (texts words.now ≡ word ∷ others) × MayAllocate word others }
{
    match words.split_first() {
        Some((word, arguments)) => read_worded(alloc, word, arguments),
        None => Err(WordFault::Bad),
    }
}

// The call of this word and the words after it.
fn read_worded(alloc: Global, word: &[u8], arguments: &[&[u8]]) -> Result<Call, WordFault>
    ensures stands { IfOk result (λ call. (word.now ≡ call_word call) × AreArguments (texts arguments.now) call) }
    ensures bad { result ≡ Err WordFault.Bad
        → (call : Call) → word.now ≡ call_word call → ¬ AreArguments (texts arguments.now) call }
    ensures lacked { result ≡ Err WordFault.OutOfMemory → MayAllocate word.now (texts arguments.now) }
{
    if is_word(word, "put") {
        read_put(alloc, arguments)
    } else if is_word(word, "secrets") {
        read_new_secrets(alloc, arguments)
    } else if is_word(word, "enable") {
        Ok(Call::Enabled {
            name: read_name(arguments)?,
            flag: true,
        })
    } else if is_word(word, "disable") {
        Ok(Call::Enabled {
            name: read_name(arguments)?,
            flag: false,
        })
    } else if is_word(word, "subscribe") {
        read_subscribed(arguments, true)
    } else if is_word(word, "unsubscribe") {
        read_subscribed(arguments, false)
    } else if is_word(word, "purge") {
        Ok(Call::Purge {
            before: read_one_moment(arguments)?,
        })
    } else if is_word(word, "submit") {
        read_submit(alloc, arguments)
    } else if is_word(word, "publish") {
        read_publish(alloc, arguments)
    } else if is_word(word, "told") {
        Ok(Call::Told {
            seq: read_seq(arguments)?,
        })
    } else if is_word(word, "claim") {
        Ok(Call::Claim {
            now: read_one_moment(arguments)?,
        })
    } else if is_word(word, "spend") {
        read_spend(arguments)
    } else if is_word(word, "limits") {
        Ok(Call::Limits {
            name: read_name(arguments)?,
        })
    } else if is_word(word, "show") {
        read_show(arguments)
    } else if is_word(word, "seal") {
        read_alone(arguments, Call::Seal)
    } else if is_word(word, "commit") {
        read_alone(arguments, Call::Commit)
    } else if is_word(word, "settle") {
        read_alone(arguments, Call::Settle)
    } else if is_word(word, "unseal") {
        read_alone(arguments, Call::Unseal)
    } else if is_word(word, "halt") {
        read_alone(arguments, Call::Halt)
    } else {
        Err(WordFault::Bad)
    }
}

// The call of a word after which there is none.
fn read_alone(arguments: &[&[u8]], call: Call) -> Result<Call, WordFault>
    ensures stands { IfOk result (λ same. (same ≡ call) × (texts arguments.now ≡ [])) }
    ensures bad { IsErr result → texts arguments.now ≡ [] → ⊥ }
    ensures fault { IfErr result (λ fault. fault ≡ WordFault.Bad) }
{
    if arguments.is_empty() {
        Ok(call)
    } else {
        Err(WordFault::Bad)
    }
}

fn read_put(alloc: Global, arguments: &[&[u8]]) -> Result<Call, WordFault>
    ensures stands { IfOk result (λ call. AreArgumentsOfPut (texts arguments.now) call) }
    ensures bad { result ≡ Err WordFault.Bad → AreArgumentsOfNoPut (texts arguments.now) }
    ensures lacked { result ≡ Err WordFault.OutOfMemory → MayAllocateForPut (texts arguments.now) }
{
    match arguments {
        [name, url, max, secrets] => read_put_words(alloc, name, url, max, secrets),
        _ => Err(WordFault::Bad),
    }
}

fn read_put_words(
    alloc: Global,
    name: &[u8],
    url: &[u8],
    max: &[u8],
    secrets: &[u8],
) -> Result<Call, WordFault>
    ensures stands { IfOk result (λ call. AreArgumentsOfPut (name.now ∷ url.now ∷ max.now ∷ secrets.now ∷ []) call) }
    ensures bad { result ≡ Err WordFault.Bad → AreArgumentsOfNoPut (name.now ∷ url.now ∷ max.now ∷ secrets.now ∷ []) }
    ensures lacked { result ≡ Err WordFault.OutOfMemory
        → MayAllocateForPut (name.now ∷ url.now ∷ max.now ∷ secrets.now ∷ []) }
{
    let name = Name::read(name)?;
    let max = read_max(max)?;
    if !is_secrets_word(secrets) {
        return Err(WordFault::Bad);
    }
    Ok(Call::Put {
        name,
        target: read_target(alloc, url)?,
        max,
        secrets: read_secrets(alloc, secrets)?,
    })
}

fn read_target(alloc: Global, url: &[u8]) -> Result<Target, WordFault>
    ensures value { IfOk result (λ target. target ≡ url.now) }
    ensures valid { IfOk result (λ _. IsTrue (is_target url.now)) }
    ensures bad { result ≡ Err WordFault.Bad → is_target url.now ≡ false }
    ensures lacked { result ≡ Err WordFault.OutOfMemory → IsTrue (is_target url.now) }
{
    match Target::read(alloc, url) {
        Ok(target) => Ok(target),
        Err(ReadFault::OutOfMemory) => Err(WordFault::OutOfMemory),
        Err(_) => Err(WordFault::Bad),
    }
}

fn read_new_secrets(alloc: Global, arguments: &[&[u8]]) -> Result<Call, WordFault>
    ensures stands { IfOk result (λ call. AreArgumentsOfSecrets (texts arguments.now) call) }
    ensures bad { result ≡ Err WordFault.Bad → AreArgumentsOfNoSecrets (texts arguments.now) }
    ensures lacked { result ≡ Err WordFault.OutOfMemory → MayAllocateForSecrets (texts arguments.now) }
{
    match arguments {
        [name, secrets] => read_new_secrets_words(alloc, name, secrets),
        _ => Err(WordFault::Bad),
    }
}

fn read_new_secrets_words(alloc: Global, name: &[u8], secrets: &[u8]) -> Result<Call, WordFault>
    ensures stands { IfOk result (λ call. AreArgumentsOfSecrets (name.now ∷ secrets.now ∷ []) call) }
    ensures bad { result ≡ Err WordFault.Bad → AreArgumentsOfNoSecrets (name.now ∷ secrets.now ∷ []) }
    ensures lacked { result ≡ Err WordFault.OutOfMemory → MayAllocateForSecrets (name.now ∷ secrets.now ∷ []) }
{
    Ok(Call::Secrets {
        name: Name::read(name)?,
        secrets: read_secrets(alloc, secrets)?,
    })
}

// The one argument of a call that names an endpoint.
fn read_name(arguments: &[&[u8]]) -> Result<Name, WordFault>
    ensures stands { IfOk result (λ name. IsNamed (texts arguments.now) name) }
    ensures bad { IsErr result → AreArgumentsOfNoName (texts arguments.now) }
    ensures fault { IfErr result (λ fault. fault ≡ WordFault.Bad) }
{
    match arguments {
        [name] => Ok(Name::read(name)?),
        _ => Err(WordFault::Bad),
    }
}

// The endpoint that is subscribed to a topic, or not.
fn read_subscribed(arguments: &[&[u8]], flag: bool) -> Result<Call, WordFault>
    ensures stands { IfOk result (λ call. AreArgumentsOfSubscribed (texts arguments.now) flag call) }
    ensures bad { IsErr result → AreArgumentsOfNoTopic (texts arguments.now) }
    ensures fault { IfErr result (λ fault. fault ≡ WordFault.Bad) }
{
    match arguments {
        [topic, name] => Ok(Call::Subscribed {
            topic: Name::read(topic)?,
            name: Name::read(name)?,
            flag,
        }),
        _ => Err(WordFault::Bad),
    }
}

// The one argument of a call that names a ticket.
fn read_seq(arguments: &[&[u8]]) -> Result<u64, WordFault>
    ensures stands { IfOk result (λ seq. IsTold (texts arguments.now) seq) }
    ensures bad { IsErr result → (seq : ℕ) → ¬ IsTold (texts arguments.now) seq }
    ensures fault { IfErr result (λ fault. fault ≡ WordFault.Bad) }
{
    match arguments {
        [seq] => read_number(seq).ok_or(WordFault::Bad),
        _ => Err(WordFault::Bad),
    }
}

fn read_submit(alloc: Global, arguments: &[&[u8]]) -> Result<Call, WordFault>
    ensures stands { IfOk result (λ call. AreArgumentsOfSubmit (texts arguments.now) call) }
    ensures bad { result ≡ Err WordFault.Bad → AreArgumentsOfNoSubmit (texts arguments.now) }
    ensures lacked { result ≡ Err WordFault.OutOfMemory → MayAllocateForSubmit (texts arguments.now) }
{
    let Event {
        now,
        name,
        id,
        body,
    } = read_event(alloc, arguments)?;
    Ok(Call::Submit {
        now,
        name,
        id,
        body,
    })
}

fn read_publish(alloc: Global, arguments: &[&[u8]]) -> Result<Call, WordFault>
    ensures stands { IfOk result (λ call. AreArgumentsOfPublish (texts arguments.now) call) }
    ensures bad { result ≡ Err WordFault.Bad → AreArgumentsOfNoSubmit (texts arguments.now) }
    ensures lacked { result ≡ Err WordFault.OutOfMemory → MayAllocateForSubmit (texts arguments.now) }
{
    let Event {
        now,
        name: topic,
        id,
        body,
    } = read_event(alloc, arguments)?;
    Ok(Call::Publish {
        now,
        topic,
        id,
        body,
    })
}

// The arguments of a call that takes an event: `name` is that of an endpoint or a topic.
struct Event {
    now: Moment,
    name: Name,
    id: MsgId,
    body: Body,
}

fn read_event(alloc: Global, arguments: &[&[u8]]) -> Result<Event, WordFault>
    ensures stands { IfOk result (λ event.
        IsSubmit (texts arguments.now) event.now event.name event.id event.body) }
    ensures bad { result ≡ Err WordFault.Bad → AreArgumentsOfNoSubmit (texts arguments.now) }
    ensures lacked { result ≡ Err WordFault.OutOfMemory → MayAllocateForSubmit (texts arguments.now) }
{
    match arguments {
        [now, name, id, body] => read_event_words(alloc, now, name, id, body),
        _ => Err(WordFault::Bad),
    }
}

fn read_event_words(
    alloc: Global,
    now: &[u8],
    name: &[u8],
    id: &[u8],
    body: &[u8],
) -> Result<Event, WordFault>
    ensures stands { IfOk result (λ event.
        IsSubmit (now.now ∷ name.now ∷ id.now ∷ body.now ∷ []) event.now event.name event.id event.body) }
    ensures bad { result ≡ Err WordFault.Bad → AreArgumentsOfNoSubmit (now.now ∷ name.now ∷ id.now ∷ body.now ∷ []) }
    ensures lacked { result ≡ Err WordFault.OutOfMemory → (moment : ℕ) × (now.now ≡ decimal moment)
        × IsTrue (is_moment moment && (is_name name.now && is_msg_id id.now)) }
{
    Ok(Event {
        now: read_moment(now)?,
        name: Name::read(name)?,
        id: MsgId::read(id)?,
        body: read_body(alloc, body)?,
    })
}

// The one argument of a call that is a moment.
fn read_one_moment(arguments: &[&[u8]]) -> Result<Moment, WordFault>
    ensures stands { IfOk result (λ moment. IsMoment (texts arguments.now) moment) }
    ensures bad { IsErr result → (moment : ℕ) → ¬ IsMoment (texts arguments.now) moment }
    ensures fault { IfErr result (λ fault. fault ≡ WordFault.Bad) }
{
    match arguments {
        [moment] => Ok(read_moment(moment)?),
        _ => Err(WordFault::Bad),
    }
}

fn read_spend(arguments: &[&[u8]]) -> Result<Call, WordFault>
    ensures stands { IfOk result (λ call. AreArgumentsOfSpend (texts arguments.now) call) }
    ensures bad { IsErr result → AreArgumentsOfNoSpend (texts arguments.now) }
    ensures fault { IfErr result (λ fault. fault ≡ WordFault.Bad) }
{
    match arguments {
        [delivery, now, post @ ..] => read_spend_words(delivery, now, post),
        _ => Err(WordFault::Bad),
    }
}

fn read_spend_words(delivery: &[u8], now: &[u8], post: &[&[u8]]) -> Result<Call, WordFault>
    ensures stands { IfOk result (λ call. AreArgumentsOfSpend (delivery.now ∷ now.now ∷ texts post.now) call) }
    ensures bad { IsErr result → AreArgumentsOfNoSpend (delivery.now ∷ now.now ∷ texts post.now) }
    ensures fault { IfErr result (λ fault. fault ≡ WordFault.Bad) }
{
    Ok(Call::Spend {
        delivery: read_number(delivery).ok_or(WordFault::Bad)?,
        now: read_moment(now)?,
        post: read_post(post)?,
    })
}

// The result of a post.
fn read_post(words: &[&[u8]]) -> Result<PostResult, WordFault>
    ensures stands { IfOk result (λ post. IsResult (texts words.now) post) }
    ensures bad { IsErr result → AreWordsOfNoResult (texts words.now) }
    ensures fault { IfErr result (λ fault. fault ≡ WordFault.Bad) }
{
    match words {
        [word] => read_unmeasured(word),
        [word, rtt] => read_measured(word, rtt),
        _ => Err(WordFault::Bad),
    }
}

fn read_unmeasured(word: &[u8]) -> Result<PostResult, WordFault>
    ensures stands { IfOk result (λ post. IsResult (word.now ∷ []) post) }
    ensures bad { IsErr result → AreWordsOfNoResult (word.now ∷ []) }
    ensures fault { IfErr result (λ fault. fault ≡ WordFault.Bad) }
{
    if is_word(word, "unreached") {
        Ok(PostResult::Unreached)
    } else if is_word(word, "unsent") {
        Ok(PostResult::Unsent)
    } else {
        Err(WordFault::Bad)
    }
}

fn read_measured(word: &[u8], rtt: &[u8]) -> Result<PostResult, WordFault>
    ensures stands { IfOk result (λ post. IsResult (word.now ∷ rtt.now ∷ []) post) }
    ensures bad { IsErr result → AreWordsOfNoResult (word.now ∷ rtt.now ∷ []) }
    ensures fault { IfErr result (λ fault. fault ≡ WordFault.Bad) }
{
    let rtt = read_round_trip(rtt)?;
    if is_word(word, "timeout") {
        return Ok(PostResult::TimedOut { rtt });
    }
    Ok(PostResult::Answered {
        status: read_status(word)?,
        rtt,
    })
}

// A round trip in microseconds, below 2^63.
fn read_round_trip(word: &[u8]) -> Result<u64, WordFault>
    ensures value { IfOk result (λ rtt. (word.now ≡ decimal rtt) × (rtt < 2 ^ 63)) }
    ensures each { (rtt : ℕ) → rtt < 2 ^ 63 → word.now ≡ decimal rtt → result ≡ Ok rtt }
    ensures fault { IfErr result (λ fault. fault ≡ WordFault.Bad) }
{
    match read_number(word) {
        Some(rtt) if rtt < 1 << 63 => Ok(rtt),
        _ => Err(WordFault::Bad),
    }
}

// A status, 100 to 999.
fn read_status(word: &[u8]) -> Result<Status, WordFault>
    ensures value { IfOk result (λ status. (word.now ≡ decimal status) × IsTrue (is_between 100 999 status)) }
    ensures each { (status : ℕ) → IsTrue (is_between 100 999 status) → word.now ≡ decimal status → result ≡ Ok status }
    ensures fault { IfErr result (λ fault. fault ≡ WordFault.Bad) }
{
    match read_number(word) {
        Some(number) if number <= 999 => Status::of(number as u16).ok_or(WordFault::Bad),
        _ => Err(WordFault::Bad),
    }
}

// The endpoint or the event that is shown.
fn read_show(arguments: &[&[u8]]) -> Result<Call, WordFault>
    ensures stands { IfOk result (λ call. AreArgumentsOfShow (texts arguments.now) call) }
    ensures endpoint { IsErr result → AreArgumentsOfNoName (texts arguments.now) }
    ensures bad { IsErr result → AreArgumentsOfNoEvent (texts arguments.now) }
    ensures fault { IfErr result (λ fault. fault ≡ WordFault.Bad) }
{
    match arguments {
        [name, id] => read_show_words(name, id),
        _ => Ok(Call::ShowEndpoint {
            name: read_name(arguments)?,
        }),
    }
}

fn read_show_words(name: &[u8], id: &[u8]) -> Result<Call, WordFault>
    ensures stands { IfOk result (λ call. AreArgumentsOfShow (name.now ∷ id.now ∷ []) call) }
    ensures bad { IsErr result → AreArgumentsOfNoEvent (name.now ∷ id.now ∷ []) }
    ensures fault { IfErr result (λ fault. fault ≡ WordFault.Bad) }
{
    Ok(Call::Show {
        name: Name::read(name)?,
        id: MsgId::read(id)?,
    })
}
