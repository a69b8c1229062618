//! Which tables a store has of the relay's, by their names and their keys.
ghost use Rattle.std.specs.Prelude.{◌≡◌};
ghost use Rattle.std.specs.List.{list_any};
ghost use Rattle.sound_tables.specs.Keys.{has_first_names, has_first_tables, is_attempts, is_deliveries, is_endpoints};
ghost use Rattle.sound_tables.specs.Keys.{is_numbered, is_reference, is_secrets, is_topics, is_unique, refers};
ghost use Rattle.sound_tables.specs.Versions.{has_names_of, has_tables_of};

use crate::version::Version;
use sqlite_schema::names::same_name;
use sqlite_schema::schema::{Reference, Schema, Table};

/// Whether there is a table of each name of this version.
pub(crate) fn has_names(schema: &Schema, version: Version) -> bool
    ensures { result ≡ has_names_of version schema.now }
{
    match version {
        Version::First => has_first_names(schema),
        Version::Second => has_first_names(schema) && schema.table_named(b"topics").is_some(),
    }
}

/// Whether the tables of this version are there, with their keys.
pub(crate) fn has_tables(schema: &Schema, version: Version) -> bool
    ensures { result ≡ has_tables_of version schema.now }
{
    match version {
        Version::First => has_first_tables(schema),
        Version::Second => has_first_tables(schema) && has_topics(schema.tables.as_slice()),
    }
}

// Whether there is a table of each of the five names.
fn has_first_names(schema: &Schema) -> bool
    ensures { result ≡ has_first_names schema.now }
{
    schema.table_named(b"meta").is_some()
        && schema.table_named(b"endpoints").is_some()
        && schema.table_named(b"secrets").is_some()
        && schema.table_named(b"deliveries").is_some()
        && schema.table_named(b"attempts").is_some()
}

// Whether the five tables are there, with their keys.
fn has_first_tables(schema: &Schema) -> bool
    ensures { result ≡ has_first_tables schema.now }
{
    let tables = schema.tables.as_slice();
    schema.table_named(b"meta").is_some()
        && has_endpoints(tables)
        && has_secrets(tables)
        && has_deliveries(tables)
        && has_attempts(tables)
}

fn has_endpoints(tables: &[Table]) -> bool
    ensures { result ≡ list_any is_endpoints tables.now }
{
    tables.iter().any(|t| is_endpoints(t))
}

fn has_secrets(tables: &[Table]) -> bool
    ensures { result ≡ list_any is_secrets tables.now }
{
    tables.iter().any(|t| is_secrets(t))
}

fn has_deliveries(tables: &[Table]) -> bool
    ensures { result ≡ list_any is_deliveries tables.now }
{
    tables.iter().any(|t| is_deliveries(t))
}

fn has_attempts(tables: &[Table]) -> bool
    ensures { result ≡ list_any is_attempts tables.now }
{
    tables.iter().any(|t| is_attempts(t))
}

fn has_topics(tables: &[Table]) -> bool
    ensures { result ≡ list_any is_topics tables.now }
{
    tables.iter().any(|t| is_topics(t))
}

fn is_endpoints(table: &Table) -> bool
    ensures { result ≡ is_endpoints table.now }
{
    table.is_named(b"endpoints") && is_numbered(table.key) && is_unique(table, &[2])
}

fn is_secrets(table: &Table) -> bool
    ensures { result ≡ is_secrets table.now }
{
    table.is_named(b"secrets")
        && is_unique(table, &[1, 2])
        && refers(table, 1, b"endpoints", b"put")
}

fn is_deliveries(table: &Table) -> bool
    ensures { result ≡ is_deliveries table.now }
{
    table.is_named(b"deliveries")
        && is_numbered(table.key)
        && is_unique(table, &[2, 3])
        && refers(table, 2, b"endpoints", b"put")
}

fn is_attempts(table: &Table) -> bool
    ensures { result ≡ is_attempts table.now }
{
    table.is_named(b"attempts")
        && is_numbered(table.key)
        && is_unique(table, &[2, 3])
        && refers(table, 2, b"deliveries", b"seq")
}

fn is_topics(table: &Table) -> bool
    ensures { result ≡ is_topics table.now }
{
    table.is_named(b"topics") && is_unique(table, &[1, 2]) && refers(table, 2, b"endpoints", b"put")
}

// Whether the rowid is the first column.
fn is_numbered(key: Option<usize>) -> bool
    ensures { result ≡ is_numbered key }
{
    key == Some(0)
}

// Whether no two rows have the same values in the columns at these places.
fn is_unique(table: &Table, places: &[usize]) -> bool
    ensures { result ≡ is_unique table.now places.now }
{
    let uniques = table.uniques.as_slice();
    uniques.iter().any(|these| these.as_slice() == places)
}

// Whether the column at this place names a row of the parent, by this column of it.
fn refers(table: &Table, place: usize, parent: &[u8], column: &[u8]) -> bool
    ensures { result ≡ refers table.now place parent.now column.now }
{
    let references = table.references.as_slice();
    references
        .iter()
        .any(|r| is_reference(r, place, parent, column))
}

fn is_reference(reference: &Reference, place: usize, parent: &[u8], column: &[u8]) -> bool
    ensures { result ≡ is_reference reference.now place parent.now column.now }
{
    reference.columns.as_slice() == [place].as_slice()
        && same_name(reference.parent.as_slice(), parent)
        && match reference.parent_columns.as_slice() {
            [first] => same_name(first.as_slice(), column),
            _ => false,
        }
}
