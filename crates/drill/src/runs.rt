//! Runs: calls of the core, one after another.
ghost use Rattle.std.specs.Prelude.{◌≡◌, ◌+◌, ◌≤◌, ◌++◌, ◌∷◌, [], All, length, IfErr, IfOk, IsPermutation, OnOk};
ghost use Rattle.std.specs.Prelude.{vec_capacity, vec_len};
ghost use Rattle.desk.specs.Desks.{HasNothingOut, IsAllOut, StandsFor};
ghost use Rattle.desk.specs.World as model;
ghost use Rattle.drill.specs.Cores.{HasRoom, IsCore, TakesRoom};
ghost use Rattle.drill.specs.Memory.{HasRunMemory, IsPrepared, all_tickets, events_of};
ghost use Rattle.drill.specs.Tickets.{KeepsTickets};
ghost use Rattle.drill.specs.Worlds.{IsOpening, IsRunFrom, AnswersEvents, session_of};
ghost use Rattle.recovery.specs.Left.{IsCleanAt, VaultStandsFor};

use crate::calls::Core;
use crate::events::{Event, Reply};
use crate::held::Held;
use crate::prepared::{Prepared, most_tickets_of, seqs_of};
use crate::tickets::Tickets;
use desk::Desk;
use permits::Permit;
use spool::{Receipt, Vault};
use sqlite::Alter;
use std::alloc::{AllocError, Global};
use std::sync::ledger::Ledger;

/// What a run leaves: the desk and the store, what they handed out and didn't take back, and a
/// reply to each event. `Desk::close` takes all but the store and the replies.
pub struct World<L: Ledger, S: Alter> {
    pub desk: Desk<L>,
    pub vault: Vault<S>,
    pub permits: Vec<Permit<L>>,
    pub receipt: Option<Receipt>,
    pub held: group_commit::Held,
    pub replies: Vec<Reply>,
}

/// Makes the calls one after another, from an opening: desk and vault of one mark, and nothing
/// handed out. What a call hands out is kept and goes to the call that takes it: a batch to
/// `commit`, `unseal` or `halt`, a receipt to `settle`, a doubt to `halt`, a permit to the spend
/// that names its delivery, a ticket's number to `told`. It allocates all of its own memory first.
/// If that fails, nothing was done.
pub fn run<L: Ledger, S: Alter>(
    alloc: Global,
    desk: Desk<L>,
    vault: Vault<S>,
    events: &[Event],
) -> Result<World<L, S>, (Desk<L>, Vault<S>, AllocError)>
    requires out { HasNothingOut desk }
    requires mark { desk.waiting.mark ≡ vault.mark }
    ensures runs { IfOk result (λ to. IsCleanAt S.Store to.vault.conn
        → (w : model.World) → IsOpening w → StandsFor desk w → VaultStandsFor S.Store vault w
        → IsRunFrom S.Store (session_of w) events.now to) }
    ensures replies { IfOk result (λ to. length to.replies.items ≡ length events.now) }
    ensures permits { IfOk result (λ to. IsPermutation to.permits.items to.desk.live) }
    ensures out { IfOk result (λ to. IsAllOut to.desk.waiting to.receipt to.held) }
    ensures clean { IfOk result (λ to. IsCleanAt S.Store to.vault.conn → IsCleanAt S.Store vault.conn) }
    ensures undone { IfErr result (λ back. (back.0 ≡ desk) × (back.1 ≡ vault)) }
{
    match RunMemory::of(alloc, events) {
        Ok(memory) => Ok(run_in(memory, desk, vault)),
        Err(fault) => Err((desk, vault, fault)),
    }
}

// The memory that a run allocates: its calls, which share all texts and bodies, and room for their
// replies, tickets and permits.
struct RunMemory<L: Ledger> {
    calls: Vec<Prepared>,
    replies: Vec<Reply>,
    tickets: Tickets,
    permits: Vec<Permit<L>>,
}

impl<L: Ledger> RunMemory<L> {
    fn of(alloc: Global, events: &[Event]) -> Result<RunMemory<L>, AllocError>
        ensures events { IfOk result (λ memory. events_of memory.calls.items ≡ events.now) }
        ensures tickets { IfOk result (λ memory. KeepsTickets memory.tickets []) }
        ensures room { IfOk result HasRunMemory }
        ensures empty { IfOk result (λ memory. (memory.replies.items ≡ []) × (memory.permits.items ≡ [])) }
    {
        let calls = prepare_all(alloc, events)?;
        let replies = Vec::with_capacity(alloc, events.len())?;
        let mut tickets = Tickets::new(alloc);
        tickets.reserve(all_tickets(events)?)?;
        let permits = Vec::with_capacity(alloc, events.len())?;
        Ok(RunMemory {
            calls,
            replies,
            tickets,
            permits,
        })
    }
}

fn prepare_all(alloc: Global, events: &[Event]) -> Result<Vec<Prepared>, AllocError>
    ensures events { IfOk result (λ calls. events_of calls.items ≡ events.now) }
    ensures seqs { IfOk result (λ calls. All IsPrepared calls.items) }
{
    let mut calls = Vec::with_capacity(alloc, events.len())?;
    for event in events {
        calls.push_reserved(Prepared {
            event: event.share()?,
            seqs: seqs_of(alloc, event)?,
        });
    }
    Ok(calls)
}

// The most tickets that the calls can get. More than can be counted are more than memory has.
fn all_tickets(events: &[Event]) -> Result<usize, AllocError>
    ensures { IfOk result (λ count. count ≡ all_tickets events.now) }
{
    let mut count = 0usize;
    for event in events {
        count = count.checked_add(most_tickets_of(event)).ok_or(AllocError)?;
    }
    Ok(count)
}

// Makes the calls in the memory that was allocated for them.
fn run_in<L: Ledger, S: Alter>(memory: RunMemory<L>, desk: Desk<L>, vault: Vault<S>) -> World<L, S>
    requires out { HasNothingOut desk }
    requires mark { desk.waiting.mark ≡ vault.mark }
    requires room { HasRunMemory memory }
    requires tickets { KeepsTickets memory.tickets [] }
    requires empty { (memory.replies.items ≡ []) × (memory.permits.items ≡ []) }
    ensures runs { IsCleanAt S.Store result.vault.conn
        → (w : model.World) → IsOpening w → StandsFor desk w → VaultStandsFor S.Store vault w
        → IsRunFrom S.Store (session_of w) (events_of memory.calls.items) result }
    ensures replies { length result.replies.items ≡ length memory.calls.items }
    ensures permits { IsPermutation result.permits.items result.desk.live }
    ensures out { IsAllOut result.desk.waiting result.receipt result.held }
    ensures clean { IsCleanAt S.Store result.vault.conn → IsCleanAt S.Store vault.conn }
{
    let RunMemory {
        calls,
        mut replies,
        tickets,
        permits,
    } = memory;
    let mut vault = vault;
    let mut core = Core {
        desk,
        held: Held::Nothing,
        permits,
        tickets,
    };
    make_calls(&mut core, &mut vault, calls, &mut replies);
    let Core {
        desk,
        held,
        permits,
        tickets: _,
    } = core;
    let (receipt, held) = held.parts();
    World {
        desk,
        vault,
        permits,
        receipt,
        held,
        replies,
    }
}

// Makes the calls one after another, and adds the reply to each.
fn make_calls<L: Ledger, S: Alter>(
    core: &mut Core<L>,
    vault: &mut Vault<S>,
    calls: Vec<Prepared>,
    replies: &mut Vec<Reply>,
)
    requires core { IsCore core.old }
    requires room { HasRoom core.old (all_tickets (events_of calls.items)) (length calls.items) }
    requires seqs { All IsPrepared calls.items }
    requires places { length calls.items ≤ vec_capacity replies.old }
    requires empty { replies.old.items ≡ [] }
    ensures runs { IsCleanAt S.Store vault.new.conn
        → AnswersEvents S.Store core.old vault.old (events_of calls.items) replies.new.items core.new vault.new }
    ensures replies { length replies.new.items ≡ length calls.items }
    ensures core { IsCore core.new }
    ensures clean { IsCleanAt S.Store vault.new.conn → IsCleanAt S.Store vault.old.conn }
{
    for call in calls {
        let Prepared { event, seqs } = call;
        let reply = core.take(vault, event, seqs);
        replies.push_reserved(reply);
    }
}
