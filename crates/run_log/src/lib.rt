//! The log of a run: the records that its committer has committed, in their order. One writer
//! appends to it, and everybody else knows a prefix of it. It is in the proofs alone; what is left
//! of it in the program is one word that is stored and loaded.
#![tactic(auto)]

ghost use Rattle.std.specs.Prelude.{◌≡◌, ◌++◌, [], IfOk, List};
ghost use Rattle.relay_types.specs.declared.record.Record.{Record};
ghost use Rattle.relay_types.specs.Records.{records_of};
ghost use mathlib.Core.List.{IsPrefix};
ghost use Rattle.run_log.specs.Prefixes.{Agree};
ghost use Rattle.run_log.specs.Seats.{IsOneWord};

use atomic_table::{Join, Play, Seat, Split, Table, TableRule};
use relay_types::Record;
use spool::Receipt;
use std::alloc::{AllocError, Global};
use std::collections::LinkedList;
use std::marker::{Brand, Model, PhantomData};

/// What a seat at the table knows. No value of it is made.
pub struct View {
    pub writes: bool,
    pub seen: LinkedList<Record>,
    pub other: LinkedList<Record>,
}

/// The rule of the table: one seat writes, and what any seat has seen is a prefix of the log.
pub struct OneWriter;

impl TableRule<(), View, ()> for OneWriter {
    ghost use Rattle.std.specs.Prelude.{[]};
    ghost use Rattle.run_log.specs.Seats.{KeepsRule, writing};

    ghost holds = { λ _ s. KeepsRule s };

    ghost first = { λ _. writing [] };
}

/// Which records a step appends. Each call picks them.
pub trait Appending {
    ghost use Rattle.std.specs.Prelude.{List};
    ghost use Rattle.relay_types.specs.declared.record.Record.{Record};

    ghost records: { List Record };
}

impl Appending for Brand {
    ghost use Rattle.std.specs.Prelude.{[]};

    ghost records = { [] };
}

struct Append<N: Appending> {
    of: PhantomData<N>,
}

impl<N: Appending> Play<(), View> for Append<N> {
    ghost use Rattle.run_log.specs.Seats.{Appends};

    ghost then = { Appends N.records };
}

struct Compare;

impl Play<(), View> for Compare {
    ghost use Rattle.run_log.specs.Seats.{Compares};

    ghost then = { Compares };
}

// A new seat has seen as much, and doesn't write.
struct Copy;

impl Split<View> for Copy {
    ghost use Rattle.run_log.specs.Seats.{reading};

    ghost left = { λ v. v };

    ghost right = { λ v. reading v.seen };
}

impl Join<View> for Copy {
    ghost use Rattle.std.specs.Prelude.{[]};
    ghost use Rattle.run_log.specs.Seats.{reading, with_other};

    ghost both = { with_other };

    ghost spent = { reading [] };
}

/// Which log it is, and which histories it goes on from. Each run picks them.
pub trait LogId {
    ghost use Rattle.std.specs.Prelude.{ℕ, List};
    ghost use Rattle.relay_types.specs.declared.record.Record.{Record};
    ghost use Rattle.atomic_table.specs.Seated.{TableId};

    ghost table: { TableId };

    // whether the log goes on from this history
    ghost is_base: { List Record → Type 0 };

    // the number of the first record that is appended
    ghost start: { ℕ };

    // the table of the log of staged records
    ghost staged: { TableId };
}

impl LogId for Brand {
    ghost use Rattle.run_log.specs.Seats.{no_table};

    ghost table = { no_table };

    ghost is_base = { λ _. Unit {0} };

    ghost start = { 0 };

    ghost staged = { no_table };
}

/// The log of the records that were staged in a run, whether or not they were committed. It goes on
/// from the same histories.
pub struct Staged<I: LogId> {
    of: PhantomData<I>,
}

impl<I: LogId> LogId for Staged<I> {
    ghost use Rattle.run_log.specs.Seats.{no_table};

    ghost table = { I.staged };

    ghost is_base = { I.is_base };

    ghost start = { I.start };

    ghost staged = { no_table };
}

/// An empty log that has no id yet, with its writer. Contracts see it as its table.
#[derive(Drop)]
pub struct NewLog {
    table: Table<(), View, (), OneWriter, Global>,
    seat: Seat<(), View>,
}

impl Model for NewLog {
    ghost use Rattle.std.specs.Prelude.{◌≡◌, []};
    ghost use Rattle.atomic_table.specs.Seated.{TableId, table_id_coded};
    ghost use Rattle.run_log.specs.Seats.{writing};

    ghost Value = { TableId };

    ghost coded = { table_id_coded };

    ghost view = { λ n. n.table.shared.table_id };

    ghost invariant = { λ n. (n.seat.table_id ≡ n.table.shared.table_id)
        × (n.table.shared.table_id.words ≡ 1) × (n.seat.me ≡ (writing [], [])) };
}

impl NewLog {
    /// An empty log. It takes two small allocations.
    pub fn new(alloc: Global) -> Result<NewLog, AllocError>
        ensures { IfOk result IsOneWord }
    {
        let (table, seat) = Table::of_words(alloc, &[0], &())?;
        Ok(NewLog { table, seat })
    }

    /// The log under an id, and its only writer.
    pub fn named<I: LogId>(self) -> (Log<I>, LogWriter<I>)
        requires { self ≡ I.table }
        ensures { result.1 ≡ [] }
    {
        let NewLog { table, seat } = self;
        (
            Log {
                table,
                of: PhantomData,
            },
            LogWriter {
                seat,
                of: PhantomData,
            },
        )
    }
}

/// The log, which threads share. Contracts see it as its table.
#[derive(Drop)]
pub struct Log<I: LogId> {
    table: Table<(), View, (), OneWriter, Global>,
    of: PhantomData<I>,
}

impl<I: LogId> Model for Log<I> {
    ghost use Rattle.std.specs.Prelude.{◌≡◌};
    ghost use Rattle.atomic_table.specs.Seated.{TableId, table_id_coded};

    ghost Value = { TableId };

    ghost coded = { table_id_coded };

    ghost view = { λ l. l.table.shared.table_id };

    ghost invariant = { λ l. (l.table.shared.table_id ≡ I.table) × (l.table.shared.table_id.words ≡ 1) };
}

/// Who appends to the log. There is one of each log. Contracts see it as all records of the log.
#[derive(Drop)]
pub struct LogWriter<I: LogId> {
    seat: Seat<(), View>,
    of: PhantomData<I>,
}

impl<I: LogId> Model for LogWriter<I> {
    ghost use Rattle.std.specs.Prelude.{◌≡◌, [], List};
    ghost use Rattle.relay_types.specs.declared.record.Record.{Record};
    ghost use Rattle.run_log.specs.Seats.{writing};

    ghost Value = { List Record };

    ghost view = { λ w. w.seat.me.0.seen };

    ghost invariant = { λ w. (w.seat.table_id ≡ I.table) × (w.seat.me ≡ (writing w.seat.me.0.seen, [])) };
}

/// A prefix of the log. Contracts see it as its records.
#[derive(Drop)]
pub struct Prefix<I: LogId> {
    seat: Seat<(), View>,
    of: PhantomData<I>,
}

impl<I: LogId> Model for Prefix<I> {
    ghost use Rattle.std.specs.Prelude.{◌≡◌, [], List};
    ghost use Rattle.relay_types.specs.declared.record.Record.{Record};
    ghost use Rattle.run_log.specs.Seats.{reading};

    ghost Value = { List Record };

    ghost view = { λ p. p.seat.me.0.seen };

    ghost invariant = { λ p. (p.seat.table_id ≡ I.table) × (p.seat.me ≡ (reading p.seat.me.0.seen, [])) };
}

impl<I: LogId> LogWriter<I> {
    /// Appends the records of a batch that was committed.
    pub fn append(&mut self, log: &Log<I>, receipt: &Receipt)
        ensures { self.new ≡ self.old ++ records_of receipt.now.steps }
    {
        self.append_receipt::<Brand>(log, receipt);
    }

    fn append_receipt<N: Appending>(&mut self, log: &Log<I>, receipt: &Receipt)
        requires { N.records ≡ records_of receipt.now.steps }
        ensures { self.new ≡ self.old ++ records_of receipt.now.steps }
    {
        self.append_as::<N>(log);
    }

    /// Appends the records that the call picks.
    pub fn append_as<N: Appending>(&mut self, log: &Log<I>)
        ensures { self.new ≡ self.old ++ N.records }
    {
        log.table.shared.store::<Append<N>>(&mut self.seat, 0, 0);
    }

    /// All records so far, as a prefix of what the log will be.
    pub fn prefix(&mut self, log: &Log<I>) -> Prefix<I>
        ensures prefix { result ≡ self.old }
        ensures same { self.new ≡ self.old }
    {
        let seat = log.table.shared.split_seat::<Copy>(&mut self.seat);
        Prefix {
            seat,
            of: PhantomData,
        }
    }

    /// Every prefix is one of all records so far.
    pub fn compare(&mut self, log: &Log<I>, prefix: Prefix<I>)
        ensures begins { IsPrefix prefix self.old }
        ensures same { self.new ≡ self.old }
    {
        let Prefix { seat, of: _ } = prefix;
        log.table.shared.join_seat::<Copy>(&mut self.seat, seat);
        log.table.shared.load::<Compare>(&mut self.seat, 0);
    }
}

impl<I: LogId> Prefix<I> {
    /// A copy.
    pub fn copy(&mut self, log: &Log<I>) -> Prefix<I>
        ensures copy { result ≡ self.old }
        ensures same { self.new ≡ self.old }
    {
        let seat = log.table.shared.split_seat::<Copy>(&mut self.seat);
        Prefix {
            seat,
            of: PhantomData,
        }
    }

    /// Of two prefixes, one is a prefix of the other.
    pub fn compare(&mut self, log: &Log<I>, prefix: Prefix<I>)
        ensures agree { Agree self.old prefix }
        ensures same { self.new ≡ self.old }
    {
        let Prefix { seat, of: _ } = prefix;
        log.table.shared.join_seat::<Copy>(&mut self.seat, seat);
        log.table.shared.load::<Compare>(&mut self.seat, 0);
    }
}
