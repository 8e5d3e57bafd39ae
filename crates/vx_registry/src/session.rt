//! Sessions: what reads and writes arrays, and what reads extension types.

ghost use Rattle.std.specs.Prelude.{◌≡◌, ◌∷◌, [], ℕ, List, None, length, slice_get, option_copied, option_and_then, true, IfSome, IsSome, IfOk, IfErr, OnOk, OnErr, IsOkUnless};
ghost use Rattle.vx_types.specs.Known.{ExtMeaning};
ghost use Rattle.vx_type_wire.specs.Session.{ext_meaning};
ghost use Rattle.vx_wire_tree.specs.Session.{IsPaired, HasPairedPlugins, entry_id, revised as revised_reader, plugin as plugin_reader};
ghost use Rattle.vx_wire_tree.specs.Taken.{step};
ghost use Rattle.vx_wire_tree.specs.Written.{writes_two};
ghost use Rattle.vx_registry.specs.Meaning.{arrays_meaning, reader_in, session_meaning, entry_reader, entry_ids, with_entry};
ghost use Rattle.vx_registry.specs.Serialization.{IsSerializedAs, RefusesSerializing};
ghost use Rattle.vx_registry.specs.Session.{both_ids, empty_registry, shipped_registry, shipped_meaning, revised_meaning, found_with, with_revised, with_plugin};

use crate::array_session::ArraySession;
use crate::error::RegistryError;
use crate::named::named;
use crate::plugin::{ArrayPlugin, id_of, ids_of};
use crate::serialization::ArraySerialization;
use crate::serializing::serialize_root;
use crate::tables::{Entry, Tables};
use indexmap::IndexMap;
use std::alloc::{AllocFailed, Global};
use vx_arrays::{Array, PrimitiveArray};
use vx_encodings::Encoding;
use vx_type_wire::ExtSession;
use vx_types::Id;

/// What can be registered to read and write arrays.
#[derive(Drop)]
pub enum PluginEntry {
    /// A shipped encoding, which reads and writes under its own identifier.
    Shipped(Encoding),
    /// Primitives under two identifiers: `vortex.primitive`, for up to four rows, and `vortex.primitive.v2`, which is
    /// written for more rows and read for any number.
    Revised,
    /// A plugin of the caller, which reads the identifiers that it declares and writes the arrays of its encoding.
    Boxed(Box<dyn ArrayPlugin>),
}

impl ArraySession {
    /// A session that reads and writes nothing. It takes no memory.
    pub fn empty(alloc: Global) -> ArraySession
        ensures entries { result.tables ≡ empty_registry }
        ensures readers { (x : ExtMeaning) (id : List ℕ) → (arrays_meaning means result x).reader id ≡ None }
        ensures writers { (x : ExtMeaning) (id : List ℕ) → (arrays_meaning means result x).writer id ≡ None }
        ensures paired { (x : ExtMeaning) → HasPairedPlugins (arrays_meaning means result x) }
    {
        ArraySession {
            plugins: Vec::new(alloc),
            tables: Tables::new(alloc),
            alloc,
        }
    }

    /// A session of the shipped encodings. The only refusal is `OutOfMemory`.
    pub fn default(alloc: Global) -> Result<ArraySession, RegistryError>
        ensures entries { IfOk result (λ s. s.tables ≡ shipped_registry) }
        ensures shipped { IfOk result (λ s. (x : ExtMeaning) → arrays_meaning means s x ≡ shipped_meaning x) }
        ensures err { IsOkUnless result RegistryError.OutOfMemory }
    {
        let mut tables = Tables::new(alloc);
        for encoding in [
            Encoding::Null,
            Encoding::Bool,
            Encoding::Primitive,
            Encoding::Decimal,
            Encoding::VarBin,
            Encoding::VarBinView,
            Encoding::Dict,
            Encoding::FixedSizeList,
            Encoding::Struct,
            Encoding::Extension,
            Encoding::List,
            Encoding::ListView,
            Encoding::Map,
            Encoding::Union,
            Encoding::Variant,
        ] {
            tables.set(encoding)?;
        }
        Ok(ArraySession {
            plugins: Vec::new(alloc),
            tables,
            alloc,
        })
    }

    /// A session of the shipped encodings in which primitives have two identifiers: `default`, and then `Revised`
    /// registered. The only refusal is `OutOfMemory`.
    pub fn revised(alloc: Global) -> Result<ArraySession, RegistryError>
        ensures entries { IfOk result (λ s. s.tables ≡ with_revised shipped_registry) }
        ensures revised { IfOk result (λ s. (x : ExtMeaning) → arrays_meaning means s x ≡ revised_meaning x) }
        ensures err { IsOkUnless result RegistryError.OutOfMemory }
    {
        let mut session = ArraySession::default(alloc)?;
        match session.set_revised() {
            Ok(()) => Ok(session),
            Err(e) => {
                drop(session);
                Err(e)
            }
        }
    }

    /// Registers an entry in place of what read its identifiers and of what wrote the arrays of its encoding. A shipped
    /// encoding reads its own identifier, `Revised` both of primitives, a plugin those that it declares. In `registry`
    /// the entry takes the places of what read them before, and the end where nothing did. Where allocation fails, the
    /// session keeps its entries and its meaning, and the entry is handed back.
    pub fn register(&mut self, entry: PluginEntry) -> Result<(), AllocFailed<PluginEntry>>
        ensures entries { OnOk result (self.new.tables ≡ with_entry means (length self.old.plugins.items) entry self.old.tables) }
        ensures readers { OnOk result ((x : ExtMeaning) (id : List ℕ) → (arrays_meaning means self.new x).reader id
            ≡ found_with (entry_ids means entry) (entry_reader means entry) (arrays_meaning means self.old x).reader id) }
        ensures writers { OnOk result ((x : ExtMeaning) (id : List ℕ) → (arrays_meaning means self.new x).writer id
            ≡ found_with (entry_id (entry_reader means entry) ∷ []) (entry_reader means entry) (arrays_meaning means self.old x).writer id) }
        ensures paired { (x : ExtMeaning) → HasPairedPlugins (arrays_meaning means self.old x) → HasPairedPlugins (arrays_meaning means self.new x) }
        ensures kept { OnErr result (self.new.tables ≡ self.old.tables) }
        ensures unchanged { OnErr result ((x : ExtMeaning) → arrays_meaning means self.new x ≡ arrays_meaning means self.old x) }
        ensures handed_back { IfErr result (λ refused. refused.value ≡ entry) }
    {
        match entry {
            PluginEntry::Shipped(encoding) => match self.tables.set(encoding) {
                Ok(()) => Ok(()),
                Err(_) => Err(AllocFailed {
                    value: PluginEntry::Shipped(encoding),
                }),
            },
            PluginEntry::Revised => match self.set_revised() {
                Ok(()) => Ok(()),
                Err(_) => Err(AllocFailed {
                    value: PluginEntry::Revised,
                }),
            },
            PluginEntry::Boxed(plugin) => match self.add(plugin) {
                Ok(()) => Ok(()),
                Err(refused) => Err(AllocFailed {
                    value: PluginEntry::Boxed(refused.value),
                }),
            },
        }
    }

    // Registers primitives under two identifiers.
    fn set_revised(&mut self) -> Result<(), RegistryError>
        ensures entries { OnOk result (self.new.tables ≡ with_revised self.old.tables) }
        ensures readers { OnOk result ((x : ExtMeaning) (id : List ℕ) → (arrays_meaning means self.new x).reader id
            ≡ found_with both_ids revised_reader (arrays_meaning means self.old x).reader id) }
        ensures writers { OnOk result ((x : ExtMeaning) (id : List ℕ) → (arrays_meaning means self.new x).writer id
            ≡ found_with (entry_id revised_reader ∷ []) revised_reader (arrays_meaning means self.old x).writer id) }
        ensures kept { OnErr result (self.new.tables ≡ self.old.tables) }
        ensures unchanged { OnErr result ((x : ExtMeaning) → arrays_meaning means self.new x ≡ arrays_meaning means self.old x) }
        ensures err { IsOkUnless result RegistryError.OutOfMemory }
    {
        self.tables.set_revised()
    }

    // Registers a plugin.
    fn add(&mut self, plugin: Box<dyn ArrayPlugin>) -> Result<(), AllocFailed<Box<dyn ArrayPlugin>>>
        ensures entries { OnOk result (self.new.tables ≡ with_plugin (length self.old.plugins.items) (means plugin).id (means plugin).declared self.old.tables) }
        ensures readers { OnOk result ((x : ExtMeaning) (id : List ℕ) → (arrays_meaning means self.new x).reader id
            ≡ found_with (means plugin).declared (plugin_reader (means plugin)) (arrays_meaning means self.old x).reader id) }
        ensures writers { OnOk result ((x : ExtMeaning) (id : List ℕ) → (arrays_meaning means self.new x).writer id
            ≡ found_with ((means plugin).id ∷ []) (plugin_reader (means plugin)) (arrays_meaning means self.old x).writer id) }
        ensures kept { OnErr result (self.new.tables ≡ self.old.tables) }
        ensures unchanged { OnErr result ((x : ExtMeaning) → arrays_meaning means self.new x ≡ arrays_meaning means self.old x) }
        ensures handed_back { IfErr result (λ refused. refused.value ≡ plugin) }
    {
        let Ok(ids) = ids_of(self.alloc, &plugin) else {
            return Err(AllocFailed { value: plugin });
        };
        let Ok(id) = id_of(&plugin).clone(self.alloc) else {
            return Err(AllocFailed { value: plugin });
        };
        let Ok(()) = self.plugins.reserve(1) else {
            return Err(AllocFailed { value: plugin });
        };
        let Ok(()) = self.tables.set_boxed(self.plugins.len(), &id, &ids) else {
            return Err(AllocFailed { value: plugin });
        };
        self.plugins.push_reserved(plugin);
        Ok(())
    }

    /// The entries by the identifiers that they read, in the order of registration: encodings, and numbers of plugins.
    pub fn registry(&self) -> &IndexMap<Id, Entry>
        ensures { result.now.entries ≡ self.now.tables.readers }
    {
        self.tables.readers()
    }

    /// What reads nodes of this identifier: `None` where nothing is registered for it.
    pub fn reader(&self, id: &Id) -> Option<Entry>
        ensures found { (x : ExtMeaning) → (arrays_meaning means self.now x).reader id.now ≡ option_and_then (reader_in means self.now) result }
        ensures within { IfSome result (λ entry. IsSome (reader_in means self.now entry)) }
        ensures paired { (x : ExtMeaning) → IsPaired (arrays_meaning means self.now x) }
    {
        self.tables.reader(id)
    }

    /// What writes the arrays of this encoding's identifier: `None` where nothing does.
    pub fn writer(&self, id: &Id) -> Option<Entry>
        ensures found { (x : ExtMeaning) → (arrays_meaning means self.now x).writer id.now ≡ option_and_then (reader_in means self.now) result }
    {
        self.tables.writer(id)
    }

    /// Whether primitives are written under two identifiers. The call makes their identifier to look it up, so it
    /// allocates. The only refusal is `OutOfMemory`.
    pub fn writes_two(&self, alloc: Global) -> Result<bool, RegistryError>
        ensures two { IfOk result (λ two. (x : ExtMeaning) → writes_two (arrays_meaning means self.now x) ≡ two) }
        ensures paired { OnOk result ((x : ExtMeaning) → IsPaired (arrays_meaning means self.now x)) }
        ensures err { IsOkUnless result RegistryError.OutOfMemory }
    {
        let id = named(alloc, PrimitiveArray::ID)?;
        match self.tables.writer(&id) {
            Some(Entry::Revised) => Ok(true),
            _ => Ok(false),
        }
    }

    /// The plugin of this number: `None` exactly where `number` is past the end. Boxes stand in a list, as one plugin
    /// may serve several identifiers.
    pub fn plugin(&self, number: usize) -> Option<&Box<dyn ArrayPlugin>>
        ensures { option_copied result ≡ slice_get self.now.plugins.items number }
    {
        self.plugins.get(number)
    }
}

/// A session: what reads and writes arrays, and what reads extension types.
pub struct VortexSession {
    /// The encodings and plugins of arrays.
    pub arrays: ArraySession,
    /// The readers of extension types.
    pub ext: ExtSession,
}

// A session is dropped by a call of this, wherever it is dropped, and not part by part.
impl Drop for VortexSession {
    fn drop(self) {
        let VortexSession { arrays: _, ext: _ } = self;
    }
}

impl VortexSession {
    /// A session of these encodings and plugins and of these extension readers.
    pub fn new(arrays: ArraySession, ext: ExtSession) -> VortexSession
        ensures arrays { result.arrays ≡ arrays }
        ensures ext { result.ext ≡ ext }
    {
        VortexSession { arrays, ext }
    }

    /// Allows extension types and nodes that nothing is registered for, from now on. The flag is that of `ext`.
    pub fn allow_unknown(&mut self)
        ensures arrays { self.new.arrays ≡ self.old.arrays }
        ensures readers { (id : List ℕ) → (ext_meaning (λ b. accepted (b.vtable, b.value)) self.new.ext).reader id
            ≡ (ext_meaning (λ b. accepted (b.vtable, b.value)) self.old.ext).reader id }
        ensures unknown { (ext_meaning (λ b. accepted (b.vtable, b.value)) self.new.ext).unknown ≡ true }
    {
        self.ext.unknown = true;
    }

    /// Whether extension types and nodes that nothing is registered for are allowed.
    pub fn allows_unknown(&self) -> bool
        ensures { result ≡ (ext_meaning (λ b. accepted (b.vtable, b.value)) self.now.ext).unknown }
    {
        self.ext.allows_unknown()
    }

    /// An array's root as it is written: its parts, under the identifier that the writer of its encoding's arrays gives
    /// them; the own parts of a foreign node, where unknown nodes are allowed; and `None` where its plugin has no form
    /// for it.
    ///
    /// Refuses with `NotRegistered` exactly where nothing writes it, `UndeclaredId` where its plugin names an
    /// identifier that it does not declare, `PluginRefused` where its plugin refuses it, and `WireLimit` where its
    /// metadata does not fit its message.
    pub fn array_serialize(
        &self,
        alloc: Global,
        array: &Array,
    ) -> Result<Option<ArraySerialization>, RegistryError>
        ensures parts { let s = session_meaning means (λ b. accepted (b.vtable, b.value)) self.now in
            IfOk result (IsSerializedAs s (step s array.now)) }
        ensures cause { let s = session_meaning means (λ b. accepted (b.vtable, b.value)) self.now in
            IfErr result (λ e. RefusesSerializing e (step s array.now)) }
    {
        serialize_root(alloc, array, &self.arrays, self.allows_unknown())
    }
}
