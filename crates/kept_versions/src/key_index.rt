ghost use Rattle.std.specs.Prelude.{◌≡◌, ◌-◌, ◌≤◌, ◌<◌, OnOk, length};
ghost use Rattle.std.specs.FinMap as map;
ghost use Rattle.rowsets.specs.Indexing.{put, put_all};

use dev_traits::Memory;
use index_level0::{KeyBytes, Place};
use std::alloc::Global;
use std::collections::HashMap;
use std::marker::Model;

/// An index: the place of each key's live row, by the key's code. Contracts see the map, and for
/// how many new keys it has room.
#[derive(Drop)]
pub struct KeyIndex {
    places: HashMap<KeyBytes, Place>,
}

impl Model for KeyIndex {
    ghost use Rattle.std.specs.FinMap.{from_entries};
    ghost use Rattle.std.specs.HashMap.{spare};
    ghost use Rattle.kept_versions.specs.Indexes.{IndexRoom, coded_index_room};

    ghost Value = { IndexRoom };

    ghost coded = { coded_index_room };

    ghost view = { λ index. record { map = from_entries index.places.entries; spare = spare index.places } };
}

impl KeyIndex {
    /// No key. It takes no memory.
    pub fn new(alloc: Global) -> KeyIndex
        ensures { result.map ≡ map.empty }
    {
        KeyIndex {
            places: HashMap::new(alloc),
        }
    }

    /// Where a key stands, or None where it has no live row.
    pub fn get(&self, key: &KeyBytes) -> Option<Place>
        ensures { result ≡ map.get self.now.map key.now }
    {
        self.places.get(key).copied()
    }

    /// How many keys there are.
    pub fn len(&self) -> usize
        ensures { result ≡ map.len self.now.map }
    {
        self.places.len()
    }

    /// Makes room for so many new keys. Where memory is wanted, the index is as before.
    pub fn reserve(&mut self, more: usize) -> Result<(), Memory>
        ensures map { self.new.map ≡ self.old.map }
        ensures room { OnOk result (more ≤ self.new.spare) }
        ensures spare { self.old.spare ≤ self.new.spare }
    {
        self.places.reserve(more)?;
        Ok(())
    }

    // Gives a key a place, or takes it out.
    fn put(&mut self, key: KeyBytes, place: Option<Place>)
        requires { 0 < self.old.spare }
        ensures map { self.new.map ≡ put key place self.old.map }
        ensures spare { self.old.spare - 1 ≤ self.new.spare }
    {
        match place {
            Some(place) => self.insert(key, place),
            None => self.remove(&key),
        }
    }

    fn insert(&mut self, key: KeyBytes, place: Place)
        requires { 0 < self.old.spare }
        ensures map { self.new.map ≡ map.insert self.old.map key place }
        ensures spare { self.old.spare - 1 ≤ self.new.spare }
    {
        match self.places.insert(key, place) {
            Ok(_) => {}
            Err(_) => unreachable!(),
        }
    }

    fn remove(&mut self, key: &KeyBytes)
        ensures map { self.new.map ≡ map.remove self.old.map key.now }
        ensures spare { self.old.spare ≤ self.new.spare }
    {
        self.places.remove(key);
    }

    /// Gives keys their places, and takes out those with None, one after the other. It takes no
    /// memory, and uses up room for as many keys at most.
    pub fn put_all(&mut self, changes: Vec<(KeyBytes, Option<Place>)>)
        requires { length changes.items ≤ self.old.spare }
        ensures { self.new.map ≡ put_all changes.items self.old.map }
    {
        let mut left = changes.into_iter();
        while let Some((key, place)) = left.next() {
            self.put(key, place);
        }
    }
}
