//! What is told of a store whose rows don't obey the schema that it lists. `sqlite` opens no such store.
ghost use Rattle.std.specs.Prelude.{◌≡◌, ◌≢◌, ◌+◌, ◌<◌, ℕ, ℤ, pos, find, option_copied};
ghost use Rattle.std.specs.Prelude.{IfOk, IfErr, OnOk, IfSome, IsNone, MatchOption};
ghost use Rattle.sqlite_value.specs.declared.value.Value.TheVariants.{Int};
ghost use Rattle.sqlite_value.specs.Order.{column};
ghost use Rattle.sqlite_value.specs.Value.{owned};
ghost use Rattle.sqlite.specs.State.{store_error};
ghost use Rattle.sqlite_trees.specs.View.{IsClean};
ghost use Rattle.sound_tables.specs.Reading.{IsReadAs};
ghost use Rattle.sound_tables.specs.Shown.{ShowsMeta};
ghost use Rattle.sound_tables.specs.Tables.{meta_columns};
ghost use Rattle.sound_tables.specs.Unsound.{FindsMeta, IsOfStore, IsToldUnsound, ReadsMeta, ReadsRelay};
ghost use Rattle.sound_tables.specs.Unsound.{TellsFailed, is_meta_object, is_text};

use crate::fault::TableFault;
use crate::meta::Meta;
use crate::version::Version;
use sqlite::{Error, ErrorCode};
use sqlite_trees::error::StoreError;
use sqlite_trees::store::{Alter, Shape, Store};
use sqlite_value::row::Row;
use sqlite_value::value::ValueRef;
use std::alloc::{AllocError, Global};

/// What is told of a store of which `sqlite` said that its rows don't obey its schema: `Damaged`
/// where its `meta` names the relay, but `NewerVersion` where it names a later version, and
/// `NotOurs` where it doesn't name the relay. Nothing is written.
pub fn judge_unsound<S: Alter>(store: &mut S, alloc: Global) -> TableFault
    ensures rows { IsClean (S.Store.view store.new) → IsToldUnsound (S.Store.view store.old) result }
    ensures failed { TellsFailed (S.Store.blamed store.new) result }
{
    match read_relay(store, alloc) {
        Ok(Some(meta)) if meta.version > Version::Second.number() => TableFault::NewerVersion,
        Ok(Some(_)) => TableFault::Damaged,
        Ok(None) => TableFault::NotOurs,
        Err(error) => TableFault::Failed(error),
    }
}

// What `meta` tells, where it names the relay.
fn read_relay<S: Alter>(store: &mut S, alloc: Global) -> Result<Option<Meta>, Error>
    ensures relay { IfOk result
        (λ found. IsClean (S.Store.view store.new) → ReadsRelay (S.Store.view store.old) found) }
    ensures failed { IfErr result (IsOfStore (S.Store.blamed store.new)) }
{
    match find_meta(store, alloc)? {
        Some(tree) => read_meta_at(store, tree, alloc),
        None => Ok(None),
    }
}

// The tree of the table `meta`.
fn find_meta<S: Alter>(store: &S, alloc: Global) -> Result<Option<u32>, AllocError>
    ensures { IfOk result (λ found. IsClean (S.Store.view store.now) → FindsMeta (S.Store.view store.now) found) }
{
    let objects = store.objects(alloc)?;
    match meta_among(&objects) {
        Some(object) => Ok(tree_of(object)),
        None => Ok(None),
    }
}

fn meta_among(objects: &[Row]) -> Option<&Row>
    ensures { option_copied result ≡ find is_meta_object objects.now }
{
    objects.iter().find(|object| is_meta_object(object))
}

fn is_meta_object(object: &Row) -> bool
    ensures { result ≡ is_meta_object object.now }
{
    is_text(object.get(1), b"table") && is_text(object.get(2), b"meta")
}

fn is_text(value: ValueRef<'_>, text: &[u8]) -> bool
    ensures { result ≡ is_text (owned value.entry) text.now }
{
    match value {
        ValueRef::Text(own) => own == text,
        _ => false,
    }
}

// The tree of a listed object.
fn tree_of(object: &Row) -> Option<u32>
    ensures { MatchOption result ((tree : ℕ) → tree < 65536 → column object.now 0 ≢ Int (pos (tree + 1)))
        (λ tree. (tree < 65536) × (column object.now 0 ≡ Int (pos (tree + 1)))) }
{
    match object.get(0) {
        ValueRef::Int(id) if 1 <= id && id <= 65536 => Some((id - 1) as u32),
        _ => None,
    }
}

// What the row of `meta` tells, where it names the relay.
fn read_meta_at<S: Alter>(store: &mut S, tree: u32, alloc: Global) -> Result<Option<Meta>, Error>
    ensures meta { IfOk result (λ found. IsClean (S.Store.view store.new)
        → ReadsMeta (S.Store.view store.old) tree found) }
    ensures clean { OnOk result (IsClean (S.Store.view store.new) → IsClean (S.Store.view store.old)) }
    ensures failed { IfErr result (IsOfStore (S.Store.blamed store.new)) }
{
    if store.shape(tree) != Shape::Table {
        return Ok(None);
    }
    let mut row = Row::new(alloc);
    match store.get(tree, 1, &mut row) {
        Ok(true) => Ok(meta_in(&row)),
        Ok(false) => Ok(None),
        Err(error) => Err(error_of(error)),
    }
}

// What a row shows that the tree of `meta` has.
fn meta_in(row: &Row) -> Option<Meta>
    ensures { IsReadAs ShowsMeta (meta_columns row.now) result }
{
    if !is_text(row.get(2), b"webhook-relay") {
        return None;
    }
    Some(Meta {
        key: int_of(row.get(0))?,
        version: int_of(row.get(3))?,
        records: int_of(row.get(4))?,
    })
}

fn int_of(value: ValueRef<'_>) -> Option<i64>
    ensures found { IfSome result (λ n. owned value.entry ≡ Int n) }
    ensures other { IsNone result → (n : ℤ) → owned value.entry ≢ Int n }
{
    match value {
        ValueRef::Int(number) => Some(number),
        _ => None,
    }
}

// As what a failure of the store is told.
fn error_of(error: StoreError) -> Error
    ensures { result ≡ store_error error }
{
    Error::SqliteFailure(match error {
        StoreError::OutOfMemory => ErrorCode::OutOfMemory,
        StoreError::Io => ErrorCode::SystemIoFailure,
        StoreError::Corrupt => ErrorCode::DatabaseCorrupt,
        StoreError::Full => ErrorCode::DiskFull,
        StoreError::Broken => ErrorCode::Closed,
        StoreError::Unstorable => ErrorCode::TooBig,
    })
}
