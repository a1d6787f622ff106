//! The roster.
ghost use Rattle.std.specs.Prelude.{◌≡◌, ◌==◌, ◌≤◌, ◌<◌, ℕ, true, false, length, [], None, IfSome, map, filter, Some, is_some};
ghost use Rattle.std.specs.Option.{option_map, option_map_or};
ghost use Rattle.slab.specs.Slab.{get};
ghost use Rattle.dmc_types.specs.Limits.{max_clients};
ghost use Rattle.std.specs.List.{AllByRecursion};
ghost use Rattle.std.specs.Map.{lookup};
ghost use Rattle.dmc_client.specs.Record.{IsRecord, Rec};
ghost use Rattle.dmc_roster.specs.Entries as entries;
ghost use Rattle.dmc_roster.specs.internal.Entries.{slots_after_retain};
ghost use Rattle.dmc_roster.specs.contracts.roster.Roster.{the_row};
ghost use Rattle.dmc_client.specs.contracts.record.ClientRec.{the_row as record_row};
ghost use Rattle.std.specs.Borrow.{Lends, sem};

use crate::change::{RecordRule, RecordTest};
use dmc_client::record::ClientRec;
use dmc_tag::tag::Tag;
use dmc_types::ids::ClientId;
use indexmap::IndexMap;
use slab::Slab;
use std::alloc::{AllocError, Global};
use std::marker::Model;

/// The registered clients, in order of registration: an id, the key of its record, and the record. No two have one id or
/// one key, and there are at most 65,536.
#[derive(Drop)]
pub struct Roster<T: Tag> {
    ids: IndexMap<ClientId, usize>,
    records: Slab<ClientRec<T>>,
}

impl<T: Tag> Model for Roster<T> {
    ghost use Rattle.dmc_roster.specs.Entries.{Listing, entries_of, AreHeld};

    ghost Value = { Listing T };

    ghost view = { λ r. record { entries = entries_of r.ids.entries r.records.slots; next_key = r.records.vacant_key } };

    ghost invariant = { λ r. AreHeld r.ids.entries r.records.slots };
}

impl<T: Tag> Roster<T> {
    /// A roster of no clients. It does not allocate.
    pub fn new(alloc: Global) -> Roster<T>
        ensures { result.entries ≡ [] }
    {
        Roster {
            ids: IndexMap::new(alloc),
            records: Slab::new(alloc),
        }
    }

    /// The number of registered clients.
    pub fn len(&self) -> usize
        ensures value { result ≡ length self.now.entries }
        ensures bound { result ≤ max_clients }
        ensures distinct { entries.AreDistinct self.now.entries }
    {
        self.ids.len()
    }

    /// The key that the next client gets.
    pub fn next_key(&self) -> usize
        ensures { result ≡ self.now.next_key }
    {
        self.records.vacant_key()
    }

    /// The key of a client's record. If clients are numbered 0, 1, .. as they register, it is found without a hash.
    pub fn find(&self, id: ClientId) -> Option<usize>
        ensures key { result ≡ option_map (λ e. e.key) (entries.entry_named id self.now.entries) }
        ensures entry { IfSome result (λ key. entries.entry_keyed key self.now.entries ≡ entries.entry_named id self.now.entries) }
        ensures held { IfSome result (λ key. is_some (entries.entry_keyed key self.now.entries) ≡ true) }
        ensures distinct { entries.AreDistinct self.now.entries }
    {
        self.find_with_hint(id, id.0 as usize)
    }

    /// The key of a client's record, with a hint: the client may be the one at the index `hint`, in order of registration,
    /// counted from 0. That one is looked at first.
    pub fn find_with_hint(&self, id: ClientId, hint: usize) -> Option<usize>
        ensures key { result ≡ option_map (λ e. e.key) (entries.entry_named id self.now.entries) }
        ensures entry { IfSome result (λ key. entries.entry_keyed key self.now.entries ≡ entries.entry_named id self.now.entries) }
        ensures held { IfSome result (λ key. is_some (entries.entry_keyed key self.now.entries) ≡ true) }
        ensures distinct { entries.AreDistinct self.now.entries }
    {
        key_with_hint(&self.ids, id, hint)
    }

    /// The record under a key.
    pub fn at(&self, key: usize) -> &ClientRec<T>
        requires { is_some (entries.entry_keyed key self.now.entries) ≡ true }
        ensures value { entries.record_at key self.now.entries ≡ Some result.now }
        ensures distinct { entries.AreDistinct self.now.entries }
    {
        self.records.get(key).unwrap()
    }

    /// The record under a key, to be changed.
    pub fn at_mut(&mut self, key: usize) -> &mut ClientRec<T>
        requires { is_some (entries.entry_keyed key self.old.entries) ≡ true }
        ensures* writes_back { sem 𝓛 (Lends (the_row T.row (record { ops = T.ops; fraction = T.fraction; is_value = T.is_value; whole = T.whole }) (record { cmp = T.cmp }) (record { eq = T.eq }) (record { partial_cmp = T.partial_cmp })) (record_row T.row (record { ops = T.ops; fraction = T.fraction; is_value = T.is_value; whole = T.whole }) (record { cmp = T.cmp }) (record { eq = T.eq }) (record { partial_cmp = T.partial_cmp })) self.entry result (λ rec. entries.with_record_at self.old key rec)) }
        ensures value { entries.record_at key self.old.entries ≡ Some result.now }
    {
        &mut self.records[key]
    }

    /// Registers a client, and returns the key of its record. The caller knows that no client has this id yet. An allocation
    /// failure changes nothing.
    pub fn add(&mut self, id: ClientId, rec: ClientRec<T>) -> Result<usize, AllocError>
        requires new { entries.entry_named id self.old.entries ≡ None }
        requires room { length self.old.entries < max_clients }
        ensures { entries.Adds self.old self.new id rec result }
    {
        self.ids.reserve(1)?;
        let Ok(key) = self.records.insert(rec) else {
            return Err(AllocError);
        };
        if self.ids.insert(id, key).is_err() {
            unreachable!();
        }
        Ok(key)
    }

    /// Applies a rule that may change records and erase clients, in one pass. The others keep their order.
    pub fn retain<R: RecordRule<T>>(&mut self, rule: &R)
        ensures kept { AllByRecursion (λ e. IsRecord T.ops e.rec) self.new.entries }
        ensures value { self.new.entries ≡ map (λ e. entries.with_rec (R.changed rule.now e.key) e) (filter (λ e. R.keeps rule.now e.key e.rec) self.old.entries) }
    {
        apply_to_each(&mut self.records, rule);
        drop_vacant(&mut self.ids, &self.records);
    }

    /// Applies a rule that changes records and erases no client, in one pass over the records alone.
    pub fn change<R: RecordRule<T>>(&mut self, rule: &R)
        requires { (key : ℕ) (rec : Rec T) → R.keeps rule.now key rec ≡ true }
        ensures kept { AllByRecursion (λ e. IsRecord T.ops e.rec) self.new.entries }
        ensures value { self.new.entries ≡ map (λ e. entries.with_rec (R.changed rule.now e.key) e) self.old.entries }
    {
        apply_to_each(&mut self.records, rule);
    }

    /// The number of records that pass a test.
    pub fn count<R: RecordTest<T>>(&self, test: &R) -> usize
        ensures value { result ≡ length (filter (λ e. R.passes test.now e.rec) self.now.entries) }
        ensures bound { result ≤ max_clients }
    {
        count_passing(&self.ids, &self.records, test)
    }
}

/// The key of an id. It is looked for at an index first, and else by its hash.
fn key_with_hint(ids: &IndexMap<ClientId, usize>, id: ClientId, hint: usize) -> Option<usize>
    ensures { result ≡ lookup (λ other. id.0 == other.0) ids.now.entries }
{
    if let Some((other, key)) = ids.get_index(hint) {
        if *other == id {
            return Some(*key);
        }
    }
    ids.get(&id).copied()
}

/// Applies the rule to each record.
fn apply_to_each<T: Tag, R: RecordRule<T>>(records: &mut Slab<ClientRec<T>>, rule: &R)
    ensures slots { records.new.slots ≡ slots_after_retain (R.keeps rule.now) (R.changed rule.now) 0 records.old.slots }
    ensures kept { AllByRecursion (λ o. IfSome o (IsRecord T.ops)) records.new.slots }
{
    records.retain(
        |key: usize, rec: &mut ClientRec<T>| -> bool
            ensures { (result ≡ R.keeps rule.entry.now key rec.old) × (rec.new ≡ R.changed rule.entry.now key rec.old) × IsRecord T.ops rec.new }
        { rule.apply(key, rec) },
    );
}

/// The number of records that pass a test, of those that the ids have.
fn count_passing<T: Tag, R: RecordTest<T>>(
    ids: &IndexMap<ClientId, usize>,
    records: &Slab<ClientRec<T>>,
    test: &R,
) -> usize
    ensures { result ≡ length (filter (λ key. option_map_or (R.passes test.now) (get records.now key) false) (map (λ p. p.1) ids.now.entries)) }
{
    ids.values()
        .filter(|key| passes_at(records, **key, test))
        .count()
}

/// Whether there is a record, and it passes a test.
fn passes_at<T: Tag, R: RecordTest<T>>(records: &Slab<ClientRec<T>>, key: usize, test: &R) -> bool
    ensures { result ≡ option_map_or (R.passes test.now) (get records.now key) false }
{
    match records.get(key) {
        Some(rec) => test.test(rec),
        None => false,
    }
}

/// Removes the ids whose keys have no record.
fn drop_vacant<T: Tag>(ids: &mut IndexMap<ClientId, usize>, records: &Slab<ClientRec<T>>)
    ensures { ids.new.entries ≡ filter (λ p. is_some (get records.now p.1)) ids.old.entries }
{
    ids.retain(
        |_id: &ClientId, key: &mut usize| -> bool
            ensures { (result ≡ is_some (get records.entry.now key.old)) × (key.new ≡ key.old) }
        { records.contains(*key) },
    );
}
