//! What loads tell of a store that stands.
use crate::desks::adopted;
use relay_types::Name;
use spool::{Books, LoadFault, Vault};
use sqlite::{Alter, Connection};
use std::alloc::Global;
use std::io;

/// What books have of endpoint `a` and of the event with number 1; nothing of it where there is no such event.
#[derive(Clone, Copy)]
struct LoadedCounts {
    records: u64,
    clock: u64,
    enabled: bool,
    secrets: usize,
    attempts: u64,
    due: u64,
}

/// Loads a store that stands twice, and prints what each load tells: its fault, or what the books
/// have. Whether the store was opened.
pub(crate) fn print_loads<S: Alter + Drop>(
    rt: &HostRuntime,
    conn: Connection<S>,
) -> io::Result<bool> {
    let Some((first, second)) = loaded_twice(rt.alloc(), conn) else {
        return Ok(false);
    };
    print_load(rt, &first)?;
    print_load(rt, &second)?;
    Ok(true)
}

fn loaded_twice<S: Alter + Drop>(
    alloc: Global,
    conn: Connection<S>,
) -> Option<
    (
        Result<LoadedCounts, LoadFault>,
        Result<LoadedCounts, LoadFault>,
    ),
> {
    match adopted(alloc, conn) {
        Some(mut vault) => Some((load(alloc, &mut vault), load(alloc, &mut vault))),
        None => None,
    }
}

fn load<S: Alter>(alloc: Global, vault: &mut Vault<S>) -> Result<LoadedCounts, LoadFault> {
    match vault.load(alloc) {
        Ok(books) => Ok(told_of(&books)),
        Err(fault) => Err(fault),
    }
}

fn told_of(books: &Books) -> LoadedCounts {
    let mut told = LoadedCounts {
        records: books.records,
        clock: books.clock.seconds(),
        enabled: false,
        secrets: 0,
        attempts: 0,
        due: 0,
    };
    if let Ok(name) = Name::read(b"a") {
        told.enabled = books.endpoints.is_enabled(name);
        told.secrets = books.endpoints.secrets(name).map_or(0, |all| all.count());
    }
    if let Some(row) = books.deliveries.settled(1) {
        told.attempts = row.attempts;
        told.due = row.due.unwrap_or(0);
    }
    told
}

fn print_load(rt: &HostRuntime, load: &Result<LoadedCounts, LoadFault>) -> io::Result<()> {
    match load {
        Ok(told) => println!(rt;
            "records {} clock {} enabled {} secrets {} attempts {} due {}",
            told.records,
            told.clock,
            u8::from(told.enabled),
            told.secrets,
            told.attempts,
            told.due
        ),
        Err(fault) => println!(rt; "{fault}"),
    }
}
