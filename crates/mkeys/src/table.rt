//! The table of memory keys.
ghost use Rattle.std.specs.Prelude.{◌≡◌, ◌≢◌, ◌↔◌, IsOk, IsErr, IfOk, IfErr, OnOk, OnErr, Some};
ghost use Rattle.std.specs.FinMap as map;
ghost use Rattle.mkeys.specs.Keys.{index_of, variant_of, Names, Lives, Permits, IsLowestFree};
ghost use Rattle.mkeys.specs.Faults.{key_fault, use_fault, ok_unless};

use crate::fault::{KeyFault, NoFree};
use crate::free_places::FreePlaces;
use crate::region::{KeyRegion, Right};
use std::alloc::Global;
use std::marker::Model;
use verbs_types::{NoMemory, Rights};

/// How many keys may live at a time. Their indices are 0 to `PLACES` - 1.
pub const PLACES: usize = 4096;

/// The live memory keys: for each index a place, which has a region or none.
///
/// A key is the index of its place times 256 plus the variant of its region: the Programmer's Reference Manual
/// has the variant in the low 8 bits of a memory key. No call but `new` takes memory, and none goes through the
/// places: a key is looked up by its index, and the lowest free place by two looks at bits.
#[derive(Drop)]
pub struct KeyTable {
    places: Vec<Option<KeyRegion>>,
    free: FreePlaces,
}

impl Model for KeyTable {
    ghost use Rattle.std.specs.Coded.{coded_ℕ};
    ghost use Rattle.std.specs.FinMap as map;
    ghost use Rattle.mkeys.specs.Keys.{Keys};
    ghost use Rattle.mkeys.specs.contracts.region.KeyRegion as region;

    ghost Value = { Keys };

    ghost coded = { map.code coded_ℕ region.the_row.coded };

    ghost use Rattle.mkeys.specs.TableInside.{table_view, table_invariant};

    ghost view = { table_view };

    ghost invariant = { table_invariant };
}

impl KeyTable {
    /// A table in which no key lives. The error says that memory ran out.
    pub fn new(alloc: Global) -> Result<KeyTable, NoMemory>
        ensures { IfOk result (λ table. table ≡ map.empty) }
    {
        match vec![in alloc; None; PLACES] {
            Ok(places) => Ok(KeyTable {
                places,
                free: FreePlaces::new(),
            }),
            Err(_) => Err(NoMemory),
        }
    }

    /// Makes a key for the region of `len` bytes from `start` on in a protection domain. The key's index is the
    /// lowest that is free, and its variant, its low 8 bits, is the one that is given.
    ///
    /// `NoFree` says that `PLACES` keys live. Then nothing has changed.
    pub fn register(
        &mut self,
        pd: u32,
        start: u64,
        len: u64,
        rights: Rights,
        variant: u8,
    ) -> Result<u32, NoFree>
        requires { variant ≢ 0 }
        ensures lowest { IfOk result (λ key. IsLowestFree self.old (index_of key)) }
        ensures variant { IfOk result (λ key. variant_of key ≡ variant) }
        ensures made { IfOk result (λ key. self.new ≡ map.insert self.old (index_of key)
            (record { pd = pd; start = start; len = len; rights = rights; variant = variant })) }
        ensures no_free { IsErr result ↔ (map.len self.old ≡ PLACES) }
        ensures unchanged { OnErr result (self.new ≡ self.old) }
    {
        let Some(index) = self.free.lowest() else {
            return Err(NoFree);
        };
        self.free.take(index);
        self.places[index] = Some(KeyRegion {
            pd,
            start,
            len,
            rights,
            variant,
        });
        Ok(256 * index as u32 + u32::from(variant))
    }

    /// Drops a key: from now on it permits nothing, and its index is free.
    ///
    /// The fault is `Index` or `Variant`, and then nothing has changed.
    pub fn drop_key(&mut self, key: u32) -> Result<(), KeyFault>
        ensures lived { IsOk result ↔ Lives self.old key }
        ensures dropped { OnOk result (self.new ≡ map.remove self.old (index_of key)) }
        ensures first { result ≡ ok_unless (key_fault self.old key) }
        ensures unchanged { OnErr result (self.new ≡ self.old) }
    {
        self.region(key)?;
        let index = (key / 256) as usize;
        self.places[index] = None;
        self.free.give_back(index);
        Ok(())
    }

    /// Whether a key permits a protection domain the use of `len` bytes from `addr` on with this right.
    ///
    /// The fault is the first need that is not met, in the order of `KeyFault`.
    pub fn permits(
        &self,
        key: u32,
        pd: u32,
        addr: u64,
        len: u64,
        right: Right,
    ) -> Result<(), KeyFault>
        ensures permits { IsOk result ↔ Permits self.now key pd addr len right }
        ensures first { result ≡ ok_unless (use_fault self.now key pd addr len right) }
    {
        let region = self.region(key)?;
        if region.pd != pd {
            Err(KeyFault::Pd)
        } else if !right.is_in(region.rights) {
            Err(KeyFault::Right)
        } else if !region.contains(addr, len) {
            Err(KeyFault::Range)
        } else {
            Ok(())
        }
    }

    /// The region of a key. The fault is `Index` or `Variant`.
    fn region(&self, key: u32) -> Result<KeyRegion, KeyFault>
        ensures found { IfOk result (λ region. Names self.now key region) }
        ensures fault { IfErr result (λ fault. key_fault self.now key ≡ Some fault) }
    {
        match self.at(key / 256) {
            None => Err(KeyFault::Index),
            Some(region) if u32::from(region.variant) == key % 256 => Ok(region),
            Some(_) => Err(KeyFault::Variant),
        }
    }

    /// The region that lives at this index.
    fn at(&self, index: u32) -> Option<KeyRegion>
        ensures { result ≡ map.get self.now index }
    {
        self.places.get(index as usize).copied().flatten()
    }
}
