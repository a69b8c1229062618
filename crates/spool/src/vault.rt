//! The one writer of a store.
ghost use Rattle.std.specs.Prelude.{◌≡◌, ◌⊎◌, ◌↔◌, ◌+◌, false, List, [], length, IsTrue, IfOk, IfErr, IsErr};
ghost use Rattle.std.specs.Prelude.{MatchResult, cond, is_ok};
ghost use Rattle.sqlite.specs.State.{HasCleanDisk};
ghost use Rattle.sqlite.specs.Held.{state};
ghost use Rattle.relay_types.specs.declared.record.Record.{Record};
ghost use Rattle.relay_types.specs.Records.{records_of};
ghost use Rattle.spool_sql.specs.Steps.{IfClean, IsBegun, SurvivesAs};
ghost use Rattle.spool_sql.specs.Tables.{IsOwn, no_schema, relay_schema};
ghost use Rattle.sound_tables.specs.Keys.{has_first_tables, has_meta, has_tables};
ghost use Rattle.spool.specs.Adopting.{FailsIfOfStore, HaveFirstHistory, HaveHistory, IsAdopted, IsForeign};
ghost use Rattle.spool.specs.Adopting.{IsOfStore, IsOldOrOfStore, IsOnlyRead, IsUnadopted, LeavesRead};
ghost use Rattle.spool.specs.Migrating.{IsMigrated, IsUnmade, IsUnmigrated, LeavesMigrated, MayMigrate, Migrated};
ghost use Rattle.spool.specs.Opening.{has_ours, IsBack, IsRefusedFor, LeavesAt};
ghost use Rattle.spool.specs.Books.{AreBooksOf, AreSettled, IsLoadRefusal, IsSeen, LeavesHeld};
ghost use Rattle.spool.specs.Commits.{HoldsOnDisk, IsNext, HandsBack, IsDoubt, IsRefused, answer_of, LeavesRows};
ghost use Rattle.spool.specs.Commits.{LeavesHistory, IsDoubtedFor, IsIllegal};
ghost use Rattle.spool.specs.Vaults.{Holds};

use crate::adopt::adopt_tables;
use crate::batch::{Batch, Receipt};
use crate::create::create_store;
use crate::doubt::Doubt;
use crate::faults::{CommitEnd, LoadFault, OpenFault, Unchanged};
use crate::load::{Books, load_books};
use crate::migrate::migrate_tables;
use crate::transaction::{WriteEnd, write_steps};
use sqlite::{Alter, Connection};
use std::alloc::Global;
use std::marker::Model;

/// The store of one opening. It alone writes.
#[derive(Drop)]
pub struct Vault<S: Alter> {
    conn: Connection<S>,
    mark: u64,
    next: u64,
    closed: bool,
}

impl<S: Alter> Model for Vault<S> {
    ghost use Rattle.std.specs.Prelude.{◌≡◌, false};
    ghost use Rattle.spool.specs.Vaults.{VaultValue, vault_code};

    ghost Value = { VaultValue S };

    ghost coded = { vault_code S.code };

    ghost view = { λ v. record { conn = v.conn; mark = v.mark; next = v.next; closed = v.closed } };

    ghost invariant = { λ v. v.conn.in_transaction ≡ false };
}

impl<S: Alter> Vault<S> {
    /// Makes the tables in one transaction, with the rows of the history that has no record. The store's connection
    /// comes back with each refusal. A store where a table, an index or a view already has the name of one of these
    /// tables is `NotOurs`, and it isn't touched. The caller sees by `is_autocommit` that the connection is outside a
    /// transaction.
    pub fn create(conn: Connection<S>, mark: u64) -> Result<Vault<S>, (Connection<S>, OpenFault)>
        requires { conn.in_transaction ≡ false }
        ensures opened { IfOk result (λ v. (v.mark ≡ mark) × (v.next ≡ 0) × (v.closed ≡ false)) }
        ensures empty { IfOk result (λ v. IfClean S.Store conn v.conn
            (λ a _. IsBegun no_schema a.now → HoldsOnDisk S.Store v [])) }
        ensures free { IfOk result (λ _. has_ours (state S.Store conn).now.schema ≡ false) }
        ensures cause { IfErr result (λ e. IsRefusedFor (state S.Store conn).now.schema e.1) }
        ensures untouched { IfErr result (λ e. e.1 ≡ OpenFault.NotOurs → e.0 ≡ conn) }
        ensures refused { IfErr result (λ e. IfClean S.Store conn e.0 (λ a b. LeavesAt a b e.1)) }
        ensures clean { MatchResult result (λ v. IfClean S.Store conn v.conn (λ a _. HasCleanDisk a))
            (λ e. IfClean S.Store conn e.0 (λ a _. HasCleanDisk a)) }
        ensures mode { IfErr result (λ e. e.0.in_transaction ≡ false) }
    {
        let mut conn = conn;
        match create_store(&mut conn) {
            Ok(()) => Ok(Vault {
                conn,
                mark,
                next: 0,
                closed: false,
            }),
            Err(fault) => Err((conn, fault)),
        }
    }

    /// The vault of the tables in the store, whoever wrote them. It reads each table once, row by row, and writes
    /// nothing. It passes over tables of others, as `create` makes its own beside them. Refusals come in the order of
    /// `OpenFault`, `OldVersion` after `NewerVersion`, but a fault of the store or running out of memory comes at the
    /// call that was refused. Each gives the connection back. `is_autocommit` tests that the connection is outside a
    /// transaction.
    pub fn adopt(
        conn: Connection<S>,
        mark: u64,
        alloc: Global,
    ) -> Result<Vault<S>, (Connection<S>, OpenFault)>
        requires { conn.in_transaction ≡ false }
        ensures opened { IfOk result (λ v. (v.mark ≡ mark) × (v.closed ≡ false)) }
        ensures ours { has_meta (state S.Store conn).now.schema ≡ false
            → MatchResult result (λ _. ⊥) (λ e. IsForeign e.1) }
        ensures foreign { has_meta (state S.Store conn).now.schema ≡ false
            → IfErr result (λ e. IfClean S.Store conn e.0 (λ _ b. FailsIfOfStore b e.1)) }
        ensures whole { has_tables (state S.Store conn).now.schema ≡ false → IsErr result }
        ensures adopted { IfOk result (λ v. IfClean S.Store conn v.conn
            (λ a _. a.now.schema ≡ relay_schema → IsAdopted S.Store a.now v)) }
        ensures refused { IfErr result (λ e. IfClean S.Store conn e.0
            (λ a b. IsOwn a.now.schema → IsUnadopted a b e.1)) }
        ensures sound { IfErr result (λ e. IfClean S.Store conn e.0 (λ a b. HaveHistory a.now → IsOfStore a b e.1)) }
        ensures first { IfErr result (λ e. IfClean S.Store conn e.0
            (λ a b. HaveFirstHistory a.now → IsOldOrOfStore a b e.1)) }
        ensures read { MatchResult result (λ v. IfClean S.Store conn v.conn IsOnlyRead)
            (λ e. IfClean S.Store conn e.0 (λ a b. LeavesRead a b e.1)) }
        ensures survives { IfOk result (λ v. SurvivesAs S.Store conn v.conn (λ _ _. ⊥)) }
        ensures clean { MatchResult result (λ v. IfClean S.Store conn v.conn (λ a _. HasCleanDisk a))
            (λ e. IfClean S.Store conn e.0 (λ a _. HasCleanDisk a)) }
        ensures mode { IfErr result (λ e. e.0.in_transaction ≡ false) }
    {
        let mut conn = conn;
        match adopt_tables(&mut conn, alloc) {
            Ok(records) => Ok(Vault {
                conn,
                mark,
                next: records,
                closed: false,
            }),
            Err(fault) => Err((conn, fault)),
        }
    }

    /// The vault of the tables in the store, which are of version 2 from then on. It checks tables of version 1 as
    /// `adopt` checks those of version 2. One transaction then makes the table of topics and sets the version, and the
    /// vault holds the same history. On version 2 it is `adopt`. Refusals are those of `adopt`, except `OldVersion`.
    /// Tables of version 1 are also `NotOurs` if another table, index or view has the name of the table of topics or of
    /// its index. Nothing is written to tables that are `NotOurs`, `NewerVersion` or `Damaged`. A statement of the
    /// transaction is refused as `Store` or `OutOfMemory`. If the store is still open after a refusal, its tables are
    /// as they were.
    pub fn migrate(
        conn: Connection<S>,
        mark: u64,
        alloc: Global,
    ) -> Result<Vault<S>, (Connection<S>, OpenFault)>
        requires { conn.in_transaction ≡ false }
        ensures opened { IfOk result (λ v. (v.mark ≡ mark) × (v.closed ≡ false)) }
        ensures ours { has_meta (state S.Store conn).now.schema ≡ false
            → MatchResult result (λ _. ⊥) (λ e. IsForeign e.1) }
        ensures foreign { has_meta (state S.Store conn).now.schema ≡ false
            → IfErr result (λ e. IfClean S.Store conn e.0 (λ _ b. FailsIfOfStore b e.1)) }
        ensures whole { IfOk result (λ v. IfClean S.Store conn v.conn
            (λ a _. IsTrue (has_first_tables a.now.schema))) }
        ensures migrated { IfOk result (λ v. IfClean S.Store conn v.conn
            (λ a _. IsOwn a.now.schema → IsMigrated S.Store a.now v)) }
        ensures refused { IfErr result (λ e. IfClean S.Store conn e.0
            (λ a b. IsOwn a.now.schema → IsUnmigrated a b e.1)) }
        ensures sound { IfErr result (λ e. IfClean S.Store conn e.0 (λ a b. HaveHistory a.now → IsOfStore a b e.1)) }
        ensures first { IfErr result (λ e. IfClean S.Store conn e.0
            (λ a b. HaveFirstHistory a.now → IsUnmade a b e.1)) }
        ensures left { MatchResult result (λ v. IfClean S.Store conn v.conn MayMigrate)
            (λ e. IfClean S.Store conn e.0 (λ a b. LeavesMigrated a b e.1)) }
        ensures back { IfErr result (λ e. IfClean S.Store conn e.0 (λ a b. IsTrue b.is_open → IsBack a b)) }
        ensures survives { IfOk result (λ v. SurvivesAs S.Store conn v.conn Migrated) }
        ensures clean { MatchResult result (λ v. IfClean S.Store conn v.conn (λ a _. HasCleanDisk a))
            (λ e. IfClean S.Store conn e.0 (λ a _. HasCleanDisk a)) }
        ensures mode { IfErr result (λ e. e.0.in_transaction ≡ false) }
    {
        let mut conn = conn;
        match migrate_tables(&mut conn, alloc) {
            Ok(records) => Ok(Vault {
                conn,
                mark,
                next: records,
                closed: false,
            }),
            Err(fault) => Err((conn, fault)),
        }
    }

    /// Writes the batch in one transaction, all of it or nothing. Refusals come in the order of `Unchanged`, but want
    /// of memory and a doubtful end may come before `Illegal`.
    pub fn commit(&mut self, batch: Batch) -> Result<Receipt, CommitEnd>
        ensures closed { (result ≡ Err (CommitEnd.Unchanged batch Unchanged.Closed)) ↔ IsTrue self.old.closed }
        ensures out_of_turn { (result ≡ Err (CommitEnd.Unchanged batch Unchanged.OutOfTurn))
            ↔ ((self.old.closed ≡ false) × (¬ IsNext self.old batch)) }
        ensures receipt { IfOk result (λ receipt. receipt ≡ batch) }
        ensures handed_back { IfErr result (HandsBack batch) }
        ensures untouched { IfErr result (λ end. IsRefused end → self.new ≡ self.old) }
        ensures mark { self.new.mark ≡ self.old.mark }
        ensures next { self.new.next
            ≡ cond (is_ok result) (self.old.next + length (records_of batch.steps)) self.old.next }
        ensures doubt { IsTrue self.new.closed ↔ (IsTrue self.old.closed ⊎ IsDoubt result) }
        ensures rows { IfClean S.Store self.old.conn self.new.conn
            (λ _ _. LeavesRows S.Store self.old self.new batch result) }
        ensures history { IfClean S.Store self.old.conn self.new.conn
            (λ _ _. LeavesHistory S.Store self.old self.new batch result) }
        ensures cause { IfClean S.Store self.old.conn self.new.conn (λ a b. IsDoubtedFor a b result) }
        ensures illegal { IfClean S.Store self.old.conn self.new.conn (λ _ _.
            result ≡ Err (CommitEnd.Unchanged batch Unchanged.Illegal) → IsIllegal S.Store self.old batch) }
        ensures clean { IfClean S.Store self.old.conn self.new.conn (λ a _. HasCleanDisk a) }
    {
        if self.closed {
            return Err(CommitEnd::Unchanged(batch, Unchanged::Closed));
        }
        if batch.mark() != self.mark || batch.from() != self.next {
            return Err(CommitEnd::Unchanged(batch, Unchanged::OutOfTurn));
        }
        let end = write_steps(&mut self.conn, self.next, batch.steps());
        self.end_commit(batch, end)
    }

    // What is answered of the next batch, whose write ended so, and the vault after it.
    fn end_commit(&mut self, batch: Batch, end: WriteEnd) -> Result<Receipt, CommitEnd>
        requires { batch.from ≡ self.old.next }
        ensures answer { result ≡ answer_of batch end }
        ensures conn { self.new.conn ≡ self.old.conn }
        ensures mark { self.new.mark ≡ self.old.mark }
        ensures next { self.new.next
            ≡ cond (is_ok result) (self.old.next + length (records_of batch.steps)) self.old.next }
        ensures doubt { IsTrue self.new.closed ↔ (IsTrue self.old.closed ⊎ IsDoubt result) }
    {
        match end {
            WriteEnd::Committed => {
                self.next = batch.upto();
                Ok(batch.into_receipt())
            }
            WriteEnd::Illegal => Err(CommitEnd::Unchanged(batch, Unchanged::Illegal)),
            WriteEnd::OutOfMemory => Err(CommitEnd::Unchanged(batch, Unchanged::OutOfMemory)),
            WriteEnd::Doubtful(cause) => {
                self.closed = true;
                Err(CommitEnd::Doubtful(Doubt::over(batch), cause))
            }
        }
    }

    /// The books of the history that the vault holds, all of it settled, and its clock. A closed vault answers `Closed`
    /// before anything else: nobody knows what it holds. Nothing is written. Beside the books, memory is taken for one
    /// page of rows at a time.
    pub fn load(&mut self, alloc: Global) -> Result<Books, LoadFault>
        ensures closed { (result ≡ Err LoadFault.Closed) ↔ IsTrue self.old.closed }
        ensures books { IfClean S.Store self.old.conn self.new.conn
            (λ _ _. IfOk result (AreBooksOf S.Store self.old)) }
        ensures settled { IfOk result AreSettled }
        ensures sound { IfClean S.Store self.old.conn self.new.conn (λ a b. IfErr result (λ fault.
            (history : List Record) → Holds S.Store self.old history → IsLoadRefusal a b fault)) }
        ensures untouched { result ≡ Err LoadFault.Closed → self.new ≡ self.old }
        ensures mark { self.new.mark ≡ self.old.mark }
        ensures next { self.new.next ≡ self.old.next }
        ensures doubt { self.new.closed ≡ self.old.closed }
        ensures history { IfClean S.Store self.old.conn self.new.conn
            (λ _ _. LeavesHeld S.Store self.old self.new result) }
        ensures read { IfClean S.Store self.old.conn self.new.conn IsOnlyRead }
        ensures seen { IfClean S.Store self.old.conn self.new.conn (λ _ b. IsSeen result → IsTrue b.is_open) }
        ensures clean { IfClean S.Store self.old.conn self.new.conn (λ a _. HasCleanDisk a) }
    {
        if self.closed {
            return Err(LoadFault::Closed);
        }
        load_books(&mut self.conn, alloc)
    }

    /// Whether a commit was doubtful. From then on no batch is taken.
    pub fn is_closed(&self) -> bool
        ensures { result ≡ self.now.closed }
    {
        self.closed
    }

    /// The number of the next record.
    pub fn next(&self) -> u64
        ensures { result ≡ self.now.next }
    {
        self.next
    }

    /// The connection, outside a transaction.
    pub fn release(self) -> Connection<S>
        ensures same { result ≡ self.conn }
        ensures mode { result.in_transaction ≡ false }
    {
        self.conn
    }
}
