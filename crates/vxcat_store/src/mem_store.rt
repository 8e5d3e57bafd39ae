//! Files in memory, as a store.

ghost use Rattle.std.specs.Prelude.{◌≡◌, ◌≢◌, ◌≤◌, ◌⊎◌, ℕ, List, [], ◌∷◌, ◌++◌, ◌==◌, Some, None, IsTrue, IsErr, IfOk, OnOk, OnErr, IsOkUnless, IsErrOf};
ghost use Rattle.std.specs.Option.{option_copied};
ghost use Rattle.std.specs.List.{list_any};
ghost use Rattle.vxcat_store.specs.MemCalls.{named_calls, calls_made, next_call, FailsNext};
ghost use Rattle.vxcat_store.specs.StoreState.{HasRisen};

use crate::store::{Store, StoreError};
use std::alloc::Global;
use std::collections::BTreeMap;
use vx_types::{Blob, Name};

/// Files in memory, for tests. Chosen calls of it fail.
#[derive(Drop)]
pub struct MemStore {
    files: BTreeMap<String, Vec<u8>>,
    asked: Vec<Name>,
    failing: Vec<u64>,
    calls: u64,
    load_faults: u64,
    save_faults: u64,
}

impl MemStore {
    /// A store without files, of which no call fails.
    pub fn new(alloc: Global) -> MemStore
        ensures tells { IsTrue (⟦<MemStore as Store>⟧.state result).tells }
        ensures files { (name : List ℕ) → (⟦<MemStore as Store>⟧.state result).file name ≡ None }
        ensures asked { (⟦<MemStore as Store>⟧.state result).asked ≡ [] }
        ensures load_faults { (⟦<MemStore as Store>⟧.state result).load_faults ≡ 0 }
        ensures save_faults { (⟦<MemStore as Store>⟧.state result).save_faults ≡ 0 }
        ensures named { named_calls result ≡ [] }
        ensures calls { calls_made result ≡ 0 }
    {
        MemStore {
            files: BTreeMap::new(alloc),
            asked: Vec::new(alloc),
            failing: Vec::new(alloc),
            calls: 0,
            load_faults: 0,
            save_faults: 0,
        }
    }

    /// Makes the call of this number fail, counted from 1 over loads and saves.
    ///
    /// # Errors
    /// `OutOfMemory` alone.
    pub fn fail_call(&mut self, number: u64) -> Result<(), StoreError>
        ensures unchanged { ⟦<MemStore as Store>⟧.state self.new ≡ ⟦<MemStore as Store>⟧.state self.old }
        ensures named { OnOk result (named_calls self.new ≡ named_calls self.old ++ number ∷ []) }
        ensures kept { OnErr result (named_calls self.new ≡ named_calls self.old) }
        ensures calls { calls_made self.new ≡ calls_made self.old }
        ensures err { IsOkUnless result StoreError.OutOfMemory }
    {
        self.failing.push(number)?;
        Ok(())
    }

    /// Puts a file at a name. It counts as no call, and a refusal changes nothing.
    ///
    /// # Errors
    /// `OutOfMemory` alone.
    #[tactic(auto, using(std::proofs::lemmas::Map::Text::text_keys))]
    pub fn insert(&mut self, alloc: Global, name: &str, bytes: &[u8]) -> Result<(), StoreError>
        ensures ok { OnOk result ((⟦<MemStore as Store>⟧.state self.new).file name.now ≡ Some bytes.now) }
        ensures others { (other : List ℕ) → other ≢ name.now
            → (⟦<MemStore as Store>⟧.state self.new).file other ≡ (⟦<MemStore as Store>⟧.state self.old).file other }
        ensures unchanged { OnErr result (⟦<MemStore as Store>⟧.state self.new ≡ ⟦<MemStore as Store>⟧.state self.old) }
        ensures err { IsOkUnless result StoreError.OutOfMemory }
        ensures rest { ⟦<MemStore as Store>⟧.state self.new ≡ record (⟦<MemStore as Store>⟧.state self.old) { file = (⟦<MemStore as Store>⟧.state self.new).file } }
    {
        let key = String::from_str(alloc, name)?;
        self.files.insert(key, bytes.to_vec(alloc)?)?;
        Ok(())
    }

    /// The bytes at a name. It counts as no call.
    pub fn get(&self, name: &str) -> Option<&[u8]>
        ensures { option_copied result ≡ (⟦<MemStore as Store>⟧.state self.now).file name.now }
    {
        match self.files.get(name) {
            Some(bytes) => Some(bytes.as_slice()),
            None => None,
        }
    }

    // Counts a call, and returns whether it fails.
    fn next_call_fails(&mut self) -> bool
        ensures fails { result ≡ list_any (λ number. number == next_call self.old.calls) self.old.failing.items }
        ensures counted { self.new ≡ record self.old { calls = next_call self.old.calls } }
    {
        self.calls = self.calls.saturating_add(1);
        self.failing.contains(&self.calls)
    }
}

/// A missing name is a fault of loading; a failed save changes no file.
impl Store for MemStore {
    ghost use Rattle.std.specs.Prelude.{true};
    ghost use Rattle.std.specs.Option.{option_map};
    ghost use Rattle.std.specs.BTreeMap.{get_by_text};

    ghost state = { λ s. record {
      tells = true;
      file = λ name. option_map (λ v. v.items) (get_by_text s.files name);
      asked = s.asked.items;
      load_faults = s.load_faults;
      save_faults = s.save_faults;
    } };

    /// The file at the name. Allocation failure counts no fault.
    fn load(&mut self, alloc: Global, name: &Name) -> Result<Blob, StoreError>
        ensures bytes { IfOk result (λ bytes. (⟦<MemStore as Store>⟧.state self.old).file name.now ≡ Some bytes) }
        ensures rest { ⟦<MemStore as Store>⟧.state self.new ≡ record (⟦<MemStore as Store>⟧.state self.old) { asked = (⟦<MemStore as Store>⟧.state self.new).asked; load_faults = (⟦<MemStore as Store>⟧.state self.new).load_faults } }
        ensures asked { ((⟦<MemStore as Store>⟧.state self.new).asked ≡ (⟦<MemStore as Store>⟧.state self.old).asked ++ name.now ∷ [])
            ⊎ (((⟦<MemStore as Store>⟧.state self.new).asked ≡ (⟦<MemStore as Store>⟧.state self.old).asked) × IsErrOf result StoreError.OutOfMemory) }
        ensures never_decreases { (⟦<MemStore as Store>⟧.state self.old).load_faults ≤ (⟦<MemStore as Store>⟧.state self.new).load_faults }
        ensures no_fault { OnOk result ((⟦<MemStore as Store>⟧.state self.new).load_faults ≡ (⟦<MemStore as Store>⟧.state self.old).load_faults) }
        ensures no_memory { IsErrOf result StoreError.OutOfMemory → (⟦<MemStore as Store>⟧.state self.new).load_faults ≡ (⟦<MemStore as Store>⟧.state self.old).load_faults }
        ensures fault { IsErrOf result StoreError.Failed
            → HasRisen (⟦<MemStore as Store>⟧.state self.old).load_faults (⟦<MemStore as Store>⟧.state self.new).load_faults }

        // The call is counted. It fails where its number was named or nothing stands at the name, unless allocation
        // fails.
        ensures named { named_calls self.new ≡ named_calls self.old }
        ensures calls { calls_made self.new ≡ next_call (calls_made self.old) }
        ensures fails { FailsNext self.old ⊎ ((⟦<MemStore as Store>⟧.state self.old).file name.now ≡ None) → IsErr result }
        ensures cause { IsErrOf result StoreError.Failed
            → FailsNext self.old ⊎ ((⟦<MemStore as Store>⟧.state self.old).file name.now ≡ None) }
    {
        let fails = self.next_call_fails();
        let asked = name.clone(alloc).map_err(|_| StoreError::OutOfMemory)?;
        self.asked.push(asked)?;
        if fails {
            self.load_faults = self.load_faults.saturating_add(1);
            return Err(StoreError::Failed);
        }
        match self.get(name.as_str()) {
            Some(bytes) => match Blob::copy_from(alloc, bytes) {
                Ok(blob) => Ok(blob),
                Err(_) => Err(StoreError::OutOfMemory),
            },
            None => {
                self.load_faults = self.load_faults.saturating_add(1);
                Err(StoreError::Failed)
            }
        }
    }

    /// Puts the file at the name. A refused save changes no file, and allocation failure counts no fault.
    #[tactic(auto, using(std::proofs::lemmas::Map::Text::text_keys))]
    fn save(&mut self, alloc: Global, name: &Name, bytes: &[u8]) -> Result<(), StoreError>
        ensures saved { OnOk result ((⟦<MemStore as Store>⟧.state self.new).file name.now ≡ Some bytes.now) }
        ensures others { (other : List ℕ) → other ≢ name.now → (⟦<MemStore as Store>⟧.state self.new).file other ≡ (⟦<MemStore as Store>⟧.state self.old).file other }
        ensures unchanged { OnErr result ((⟦<MemStore as Store>⟧.state self.new).file ≡ (⟦<MemStore as Store>⟧.state self.old).file) }
        ensures rest { ⟦<MemStore as Store>⟧.state self.new ≡ record (⟦<MemStore as Store>⟧.state self.old) { file = (⟦<MemStore as Store>⟧.state self.new).file; save_faults = (⟦<MemStore as Store>⟧.state self.new).save_faults } }
        ensures never_decreases { (⟦<MemStore as Store>⟧.state self.old).save_faults ≤ (⟦<MemStore as Store>⟧.state self.new).save_faults }
        ensures no_fault { OnOk result ((⟦<MemStore as Store>⟧.state self.new).save_faults ≡ (⟦<MemStore as Store>⟧.state self.old).save_faults) }
        ensures no_memory { IsErrOf result StoreError.OutOfMemory → (⟦<MemStore as Store>⟧.state self.new).save_faults ≡ (⟦<MemStore as Store>⟧.state self.old).save_faults }
        ensures fault { IsErrOf result StoreError.Failed
            → HasRisen (⟦<MemStore as Store>⟧.state self.old).save_faults (⟦<MemStore as Store>⟧.state self.new).save_faults }

        // The call is counted. It fails exactly where its number was named, unless allocation fails.
        ensures named { named_calls self.new ≡ named_calls self.old }
        ensures calls { calls_made self.new ≡ next_call (calls_made self.old) }
        ensures fails { FailsNext self.old → IsErrOf result StoreError.Failed }
        ensures cause { IsErrOf result StoreError.Failed → FailsNext self.old }
    {
        if self.next_call_fails() {
            self.save_faults = self.save_faults.saturating_add(1);
            return Err(StoreError::Failed);
        }
        let key = String::from_str(alloc, name.as_str())?;
        self.files.insert(key, bytes.to_vec(alloc)?)?;
        Ok(())
    }
}
