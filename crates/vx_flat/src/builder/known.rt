//! The written field tables that later tables may share.

use indexmap::IndexMap;
use std::alloc::{AllocError, Global};
use std::marker::Model;

/// How many field tables are compared before the hash map is asked.
const AT_ONCE: usize = 4;

/// The bytes of field tables with their places, in the order of writing.
#[derive(Drop)]
pub struct FieldTables {
    alloc: Global,
    places: IndexMap<Vec<u8>, usize>,
}

impl Model for FieldTables {
    ghost use Rattle.vx_flat.specs.KnownView.{known_of};
    ghost use Rattle.vx_flat.specs.BlockOffsets.{Known};

    ghost Value = { Known };

    ghost view = { λ t. known_of t.places };
}

impl FieldTables {
    ghost use Rattle.std.specs.Prelude.{◌≡◌, ◌++◌, ◌∷◌, [], true, OnOk, OnErr, None, ℕ, List, if◌then◌else◌};
    ghost use Rattle.vx_flat.specs.BlockOffsets.{Known, known_at};

    /// No field tables.
    pub fn new(alloc: Global) -> FieldTables
        ensures { result ≡ [] }
    {
        FieldTables {
            alloc,
            places: IndexMap::new(alloc),
        }
    }

    /// The place of the first field table with these bytes. The first few are compared directly,
    /// since most messages have few and hashing costs more.
    pub fn find(&self, bytes: &[u8]) -> Option<usize>
        ensures { result ≡ known_at self.now bytes.now }
    {
        for i in 0..AT_ONCE {
            if let Some((key, place)) = self.places.get_index(i)
                && key.as_slice() == bytes
            {
                return Some(*place);
            }
        }
        self.places.get(bytes).copied()
    }

    /// Adds a field table with new bytes, if `interns`.
    pub fn intern(&mut self, interns: bool, bytes: &[u8], place: usize) -> Result<(), AllocError>
        requires { interns ≡ true → known_at self.old bytes.now ≡ None }
        ensures interned { OnOk result
            (self.new ≡ (if interns then self.old ++ (bytes.now, place) ∷ [] else self.old)) }
        ensures unchanged { OnErr result (self.new ≡ self.old) }
    {
        if !interns {
            return Ok(());
        }
        let key = Vec::from_slice(self.alloc, bytes)?;
        self.places.insert(key, place)?;
        Ok(())
    }

    /// Removes the last field table, if `interned`.
    pub fn forget(&mut self, interned: bool)
        ensures { (before : Known) (last : List ℕ × ℕ)
            → self.old ≡ (if interned then before ++ last ∷ [] else before) → self.new ≡ before }
    {
        if interned {
            self.places.pop();
        }
    }
}
