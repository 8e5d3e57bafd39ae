//! The laws of this crate's definitions. The functions have empty bodies: a caller learns a law from the clause of its
//! function.

ghost use Rattle.std.specs.Prelude.{◌≡◌, ℕ, List, ◌++◌, Some, ◌+◌, ◌%◌, ◌<◌, ◌≤◌, IsTrue};
ghost use Rattle.vx_serde.specs.declared.options.SerializeOptions.{SerializeOptions};
ghost use Rattle.vx_buffer.specs.Buffer.{Buffer};
ghost use Rattle.vx_serde.specs.Aligned.{AreAligned};
ghost use Rattle.vx_serde.specs.Placing.{gap_to, descriptors_from};
ghost use Rattle.vx_wire_tree.specs.Codec.{IsLawful};
ghost use Rattle.vx_wire_tree.specs.Wire.{Wire};
ghost use Rattle.vx_encodings.specs.Messages.{codec};
ghost use Rattle.vx_serialized.specs.Blob.{Carries};
ghost use Rattle.vx_serialized.specs.Carried.{IsWithinLimits, RefusesBlob};
ghost use Rattle.vx_serialized.specs.declared.error.WireError.{WireError};
ghost use Rattle.vx_serialized.specs.declared.error.WireError.TheVariants.{OutOfMemory};
ghost use Rattle.vx_flat.specs.declared.limits.Limits.{Limits};
ghost use Rattle.vx_serde.specs.Spells.{Spells, blob_of, KeepsReaderLimits, KeepsWriterLimits};
ghost use Rattle.vx_serde.specs.Returning.{IsReturnable};
ghost use Rattle.vx_serde.specs.Serializing.{IsSerialized, ReturnsWhole};
ghost use Rattle.vx_wire_tree.specs.ReadBack.{HasStorableStats};
ghost use Rattle.vx_wire_tree.specs.Written.{canon};
ghost use Rattle.vx_types.specs.Typ.{Typ};
ghost use Rattle.vx_array_tree.specs.Normal.{IsNormal};
ghost use Rattle.vx_array_tree.specs.Tree.{Tree};
ghost use Rattle.vx_wire_tree.specs.Context.{Context, grown};
ghost use Rattle.vx_wire_tree.specs.Session.{SessionMeaning, IsShipped, IsPaired};

/// With one list of identifiers, a blob carries at most one wire tree.
pub fn one_tree()
    ensures { (blob : List ℕ) (ids : List (List ℕ)) (w w' : Wire) → Carries blob ids w → Carries blob ids w' → w ≡ w' }
{}

/// With one list of identifiers and under one session, a blob spells at most one array at a type and a length.
pub fn one_array()
    ensures { (blob : List ℕ) (ids : List (List ℕ)) (d : Typ) (n : ℕ) (s : SessionMeaning) (t u : Tree)
        → IsLawful codec s → Spells blob ids d n s t → Spells blob ids d n s u → t ≡ u }
{}

/// With shipped encodings alone, an array that a blob spells is in the normal form. A plugin may build any array.
pub fn spelled_is_normal()
    ensures { (blob : List ℕ) (ids : List (List ℕ)) (d : Typ) (n : ℕ) (s : SessionMeaning) (t : Tree)
        → IsShipped s → IsLawful codec s → Spells blob ids d n s t → IsNormal t }
{}

/// A blob spells the same array where more identifiers come after those that it is read with.
pub fn spelled_longer()
    ensures { (blob : List ℕ) (ids others : List (List ℕ)) (d : Typ) (n : ℕ) (s : SessionMeaning) (t : Tree)
        → Spells blob ids d n s t → Spells blob (ids ++ others) d n s t }
{}

/// A blob that spells an array within the limits on reading is refused with no cause but allocation failure.
pub fn never_refused()
    ensures { (most : Limits) (s : SessionMeaning) (blob : List ℕ) (ids : List (List ℕ)) (d : Typ) (n : ℕ) (t : Tree) (e : WireError)
        → IsLawful codec s → Spells blob ids d n s t → IsWithinLimits most blob
        → RefusesBlob most s e blob ids d n → e ≡ OutOfMemory }
{}

/// The blob that is written for an array within the limits on writing keeps the limits on reading.
pub fn written_within_limits()
    ensures { (s : SessionMeaning) (t : Tree) (context : Context) (options : SerializeOptions)
        → KeepsWriterLimits s t context options → KeepsReaderLimits options (blob_of s t context options) }
{}

/// What is written of an array that was read, whose statistics can be stored, under limits that hold, spells what is
/// read back of it, with the context's identifiers.
pub fn written_is_spelled()
    ensures { (s : SessionMeaning) (blob : List ℕ) (ids : List (List ℕ)) (d : Typ) (n : ℕ) (t : Tree) (old new : Context) (options : SerializeOptions)
        → IsShipped s → IsLawful codec s → IsPaired s → Spells blob ids d n s t → HasStorableStats codec t → grown codec s old t ≡ Some new → KeepsWriterLimits s t old options
        → Spells (blob_of s t old options) new.ids d n s (canon codec s t) }
{}

/// An array that was serialized is read again as itself, where it and each array that plugins gave for it are their own
/// canons, in which types are known, none of these holds a foreign node, and each written identifier is read by what
/// wrote it.
pub fn serialized_returns()
    ensures { (s : SessionMeaning) (t : Tree) (options : SerializeOptions) (before after : Context) (bs : List Buffer)
        → IsSerialized s t options before after bs → IsReturnable s options t → ReturnsWhole s options t }
{}

/// Where padding is asked for, each buffer of a blob begins at a multiple of its alignment, counted with the position
/// of the blob; and no pad is longer than it has to be.
pub fn pads_align()
    ensures aligned { (options : SerializeOptions) (position : ℕ) (bs : List Buffer) → IsTrue options.include_padding → AreAligned position (descriptors_from options position bs) }
    ensures least { (n position m : ℕ) → 0 < n → (position + m) % n ≡ 0 → gap_to n position ≤ m }
{}
