//! A column file that was loaded, and its columns.

ghost use Rattle.std.specs.Prelude.{◌≡◌, ◌<◌, ◌≤◌, ◌+◌, ◌==◌, ℕ, List, All, Some, length, slice_get, IfOk, IfErr, OnOk, MatchResult};
ghost use Rattle.vx_forms.specs.Frame.{footer_len};
ghost use Rattle.vx_types.specs.Known.{IsKnown};
ghost use Rattle.vx_types.specs.Seen.{typ};
ghost use Rattle.vx_array_tree.specs.Tree.{Tree};
ghost use Rattle.vx_type_wire.specs.Session.{ext_meaning};
ghost use Rattle.vx_wire_tree.specs.Session.{IsShipped};
ghost use Rattle.vx_registry.specs.Meaning.{session_meaning};
ghost use Rattle.vx_file.specs.Causes.{RefusesLoading, RefusesColumn, RefusesSelecting, IsMemoryOrFault};
ghost use Rattle.vx_file.specs.FooterReading.{range_of};
ghost use Rattle.vx_file.specs.Loading.{IsFooterOf, RefusesFooter};
ghost use Rattle.vx_file.specs.Ranges.{Tells, IsSameFile, HasTaken};
ghost use Rattle.vx_file.specs.Selecting.{EndWithin, StandAt, Picks, part_of, len_of, taken_by};
ghost use Rattle.vx_file.specs.Shows.{File, FileShows, IsTableType};
ghost use Rattle.vx_file.specs.Spells.{FileSpells};
ghost use Rattle.vx_file.specs.Tables.{columns_of};

use crate::buffers::WORD;
use crate::decoding::decode_blob;
use crate::error::FileError;
use crate::footer::{ColumnRange, are_within, read_footer};
use crate::loading::{load_frame, load_range};
use crate::ranges::Ranges;
use crate::selection::Selection;
use crate::table_type::{column_type, read_table_type};
use std::alloc::Global;
use std::marker::Model;
use vx_arrays::Array;
use vx_registry::{ReadContext, VortexSession};
use vx_type_wire::ExtSession;
use vx_types::DType;

/// What a column file holds beside its blobs: how many rows there are, where each column's blob stands, the identifiers that
/// the blobs' nodes name by number, and the type of the rows, which has a field for each column.
#[derive(Drop)]
pub struct ColumnFile {
    rows: u64,
    ranges: Vec<ColumnRange>,
    ids: ReadContext,
    dtype: DType,
}

impl Model for ColumnFile {
    ghost use Rattle.vx_file.specs.Shows.{File, file_code};

    ghost Value = { File };

    ghost coded = { file_code };

    ghost use Rattle.std.specs.Prelude.{length};
    ghost use Rattle.vx_types.specs.Seen.{typ};
    ghost use Rattle.vx_file.specs.FooterReading.{ranges_of};
    ghost use Rattle.vx_file.specs.Shows.{IsTableType};

    ghost view = { λ f. record { rows = f.rows; ranges = ranges_of f.ranges.items; ids = f.ids; dtype = typ f.dtype } };

    ghost invariant = { λ f. IsTableType (length f.ranges.items) (typ f.dtype) };
}

/// The arrays of selected columns, in the order in which they were asked.
#[derive(Drop)]
pub struct Columns {
    arrays: Vec<Array>,
}

impl Model for Columns {
    ghost use Rattle.std.specs.Prelude.{List};
    ghost use Rattle.std.specs.Coded.{coded_list};
    ghost use Rattle.vx_array_tree.specs.Tree.{Tree, tree_code};

    ghost Value = { List Tree };

    ghost coded = { coded_list tree_code };

    ghost view = { λ c. c.arrays.items };
}

impl Columns {
    /// How many arrays there are.
    pub fn len(&self) -> usize
        ensures { result ≡ length self.now }
    {
        self.arrays.len()
    }

    /// Whether there is none.
    pub fn is_empty(&self) -> bool
        ensures { result ≡ (length self.now == 0) }
    {
        self.arrays.is_empty()
    }

    /// The arrays in their order, borrowed.
    pub fn as_slice(&self) -> &[Array]
        ensures { result.now ≡ self.now }
    {
        self.arrays.as_slice()
    }

    /// The arrays in their order, by value.
    pub fn into_vec(self) -> Vec<Array>
        ensures { result.items ≡ self }
    {
        self.arrays
    }
}

/// The column file of which these are the footer's bytes, at an offset.
fn parse_file(
    alloc: Global,
    footer: &[u8],
    offset: u64,
    readers: &ExtSession,
) -> Result<ColumnFile, FileError>
    ensures shown { IfOk result (IsFooterOf footer.now offset) }
    ensures known { IfOk result (λ f. IsKnown (ext_meaning (λ b. accepted (b.vtable, b.value)) readers.now) f.dtype) }
    ensures table { IfOk result (λ f. IsTableType (length f.ranges) f.dtype) }
    ensures cause { IfErr result (RefusesFooter (ext_meaning (λ b. accepted (b.vtable, b.value)) readers.now) footer.now offset) }
{
    let parts = match read_footer(alloc, footer) {
        Ok(parts) => parts,
        Err(_) => return Err(FileError::OutOfMemory),
    };
    let Some(parts) = parts else {
        return Err(FileError::NotAFile);
    };
    if !are_within(parts.ranges.as_slice(), offset) {
        return Err(FileError::NotAFile);
    }
    let dtype = read_table_type(alloc, parts.type_message, parts.ranges.len(), readers)?;
    let Some(dtype) = dtype else {
        return Err(FileError::BadType);
    };
    Ok(ColumnFile {
        rows: parts.rows,
        ranges: parts.ranges,
        ids: ReadContext::new(parts.ids),
        dtype,
    })
}

impl ColumnFile {
    /// How many rows there are.
    pub fn rows(&self) -> u64
        ensures { result ≡ self.now.rows }
    {
        self.rows
    }

    /// The type of the rows.
    pub fn dtype(&self) -> &DType
        ensures dtype { typ result.now ≡ self.now.dtype }
        ensures table { IsTableType (length self.now.ranges) self.now.dtype }
    {
        &self.dtype
    }

    /// The identifiers that the blobs' nodes name by number.
    pub fn ids(&self) -> &ReadContext
        ensures { result.now ≡ self.now.ids }
    {
        &self.ids
    }

    /// How many columns there are.
    pub fn ncolumns(&self) -> usize
        ensures { result ≡ length self.now.ranges }
    {
        self.ranges.len()
    }

    /// Where a column's blob stands.
    pub fn column_range(&self, i: usize) -> ColumnRange
        requires { i < length self.now.ranges }
        ensures { slice_get self.now.ranges i ≡ Some (range_of result) }
    {
        self.ranges[i]
    }

    /// Loads what a column file holds beside its blobs: twelve bytes, and the footer.
    ///
    /// # Errors
    /// `StoreFault` where a load failed, `NotAFile` where the bytes have not the form of a column file, and `BadType` where no
    /// type of tables of so many columns is read of the footer.
    pub fn load<R: Ranges>(
        alloc: Global,
        ranges: &mut R,
        readers: &ExtSession,
    ) -> Result<ColumnFile, FileError>
        // The bytes show it.
        ensures shown { (bytes : List ℕ) → Tells (R.state ranges.old) bytes → IfOk result (FileShows bytes) }
        ensures known { IfOk result (λ f. IsKnown (ext_meaning (λ b. accepted (b.vtable, b.value)) readers.now) f.dtype) }
        ensures within { IfOk result (λ f. EndWithin (R.state ranges.new).size 0 f.ranges) }
        // The first and the last words, the footer's length, and the footer were loaded.
        ensures taken { (bytes : List ℕ) → Tells (R.state ranges.old) bytes
            → OnOk result (HasTaken (12 + footer_len bytes) (R.state ranges.old) (R.state ranges.new)) }
        ensures same { IsSameFile (R.state ranges.old) (R.state ranges.new) }
        ensures cause { let x = ext_meaning (λ b. accepted (b.vtable, b.value)) readers.now in
            IfErr result (RefusesLoading x (λ bytes. bytes) (R.state ranges.old) (R.state ranges.new)) }
        // What the bytes show is loaded, or an allocation or a load fails.
        ensures complete { let x = ext_meaning (λ b. accepted (b.vtable, b.value)) readers.now in
            (bytes : List ℕ) → Tells (R.state ranges.old) bytes → (file : File) → FileShows bytes file
            → IsKnown x file.dtype → IsTableType (length file.ranges) file.dtype
            → MatchResult result (λ f. f ≡ file) (λ e. IsMemoryOrFault e (R.state ranges.old) (R.state ranges.new)) }
    {
        let size = ranges.size();
        ColumnFile::load_within(alloc, ranges, 0, size, readers)
    }

    /// Loads what a column file holds beside its blobs, where the file is the `len` bytes from `start` on of a larger one.
    /// The offsets in it are counted from `start`.
    ///
    /// # Errors
    /// As `load`.
    pub fn load_within<R: Ranges>(
        alloc: Global,
        ranges: &mut R,
        start: u64,
        len: u64,
        readers: &ExtSession,
    ) -> Result<ColumnFile, FileError>
        requires { start + len ≤ (R.state ranges.old).size }
        // The bytes of that part show it.
        ensures shown { (bytes : List ℕ) → Tells (R.state ranges.old) bytes → IfOk result (FileShows (part_of bytes start len)) }
        ensures known { IfOk result (λ f. IsKnown (ext_meaning (λ b. accepted (b.vtable, b.value)) readers.now) f.dtype) }
        ensures within { IfOk result (λ f. EndWithin (R.state ranges.new).size start f.ranges) }
        // The first and the last words, the footer's length, and the footer were loaded.
        ensures taken { (bytes : List ℕ) → Tells (R.state ranges.old) bytes
            → OnOk result (HasTaken (12 + footer_len (part_of bytes start len)) (R.state ranges.old) (R.state ranges.new)) }
        ensures same { IsSameFile (R.state ranges.old) (R.state ranges.new) }
        ensures cause { let x = ext_meaning (λ b. accepted (b.vtable, b.value)) readers.now in
            IfErr result (RefusesLoading x (λ bytes. part_of bytes start len) (R.state ranges.old) (R.state ranges.new)) }
        // What they show is loaded, or an allocation or a load fails.
        ensures complete { let x = ext_meaning (λ b. accepted (b.vtable, b.value)) readers.now in
            (bytes : List ℕ) → Tells (R.state ranges.old) bytes → (file : File) → FileShows (part_of bytes start len) file
            → IsKnown x file.dtype → IsTableType (length file.ranges) file.dtype
            → MatchResult result (λ f. f ≡ file) (λ e. IsMemoryOrFault e (R.state ranges.old) (R.state ranges.new)) }
    {
        let frame = load_frame(alloc, ranges, start, len, &WORD)?;
        let Some(frame) = frame else {
            return Err(FileError::NotAFile);
        };
        parse_file(alloc, frame.footer.as_slice(), frame.offset, readers)
    }

    /// Loads and decodes one column.
    fn load_column<R: Ranges>(
        &self,
        alloc: Global,
        ranges: &mut R,
        start: u64,
        column: u32,
        session: &VortexSession,
    ) -> Result<Array, FileError>
        requires { EndWithin (R.state ranges.old).size start self.now.ranges }
        ensures picked { let s = session_meaning (λ b. means (b.vtable, b.value)) (λ b. accepted (b.vtable, b.value)) session.now in
            IsShipped s → (bytes own : List ℕ) (t : Tree) → Tells (R.state ranges.old) bytes → StandAt bytes start own
            → FileShows own self.now → FileSpells own s t → IfOk result (λ array. slice_get (columns_of t) column ≡ Some array) }
        ensures complete { let s = session_meaning (λ b. means (b.vtable, b.value)) (λ b. accepted (b.vtable, b.value)) session.now in
            IsShipped s → (bytes own : List ℕ) (t : Tree) → Tells (R.state ranges.old) bytes → StandAt bytes start own
            → FileShows own self.now → FileSpells own s t → column < length self.now.ranges
            → IfErr result (λ e. IsMemoryOrFault e (R.state ranges.old) (R.state ranges.new)) }
        ensures taken { OnOk result (HasTaken (len_of (slice_get self.now.ranges column)) (R.state ranges.old) (R.state ranges.new)) }
        ensures same { IsSameFile (R.state ranges.old) (R.state ranges.new) }
        ensures cause { let s = session_meaning (λ b. means (b.vtable, b.value)) (λ b. accepted (b.vtable, b.value)) session.now in
            IfErr result (RefusesColumn s self.now start column (R.state ranges.old) (R.state ranges.new)) }
    {
        let i = column as usize;
        if i >= self.ncolumns() {
            return Err(FileError::NoColumn(column));
        }
        let range = self.column_range(i);
        let blob = load_range(alloc, ranges, start, range.start, range.len)?;
        let dtype = column_type(self.dtype(), self.ncolumns(), i);
        match decode_blob(alloc, blob, dtype, self.rows(), self.ids(), session) {
            Ok(array) => Ok(array),
            Err(e) => match e.refusal() {
                None => Err(FileError::OutOfMemory),
                Some(refusal) => Err(FileError::BadColumn(column, refusal)),
            },
        }
    }

    /// Loads and decodes columns, in the order in which they are asked, and again where one is asked again.
    ///
    /// # Errors
    /// `StoreFault` where a load failed, `NoColumn` where a column is asked that is not there, and `BadColumn` where the blob
    /// of a column is refused.
    pub fn select<R: Ranges>(
        &self,
        alloc: Global,
        ranges: &mut R,
        selection: &Selection,
        session: &VortexSession,
    ) -> Result<Columns, FileError>
        requires { EndWithin (R.state ranges.old).size 0 self.now.ranges }
        // With shipped encodings only, they are the columns of the table that the bytes spell.
        ensures picked { let s = session_meaning (λ b. means (b.vtable, b.value)) (λ b. accepted (b.vtable, b.value)) session.now in
            IsShipped s → (bytes : List ℕ) (t : Tree) → Tells (R.state ranges.old) bytes → FileShows bytes self.now → FileSpells bytes s t
            → IfOk result (Picks (columns_of t) selection.now) }
        // Such columns are answered, or an allocation or a load fails.
        ensures complete { let s = session_meaning (λ b. means (b.vtable, b.value)) (λ b. accepted (b.vtable, b.value)) session.now in
            IsShipped s → (bytes : List ℕ) (t : Tree) → Tells (R.state ranges.old) bytes → FileShows bytes self.now → FileSpells bytes s t
            → All (λ i. i < length self.now.ranges) selection.now
            → IfErr result (λ e. IsMemoryOrFault e (R.state ranges.old) (R.state ranges.new)) }
        // The ranges asked were loaded, and nothing else.
        ensures taken { OnOk result (HasTaken (taken_by self.now.ranges selection.now) (R.state ranges.old) (R.state ranges.new)) }
        ensures same { IsSameFile (R.state ranges.old) (R.state ranges.new) }
        ensures cause { let s = session_meaning (λ b. means (b.vtable, b.value)) (λ b. accepted (b.vtable, b.value)) session.now in
            IfErr result (RefusesSelecting s self.now 0 selection.now (R.state ranges.old) (R.state ranges.new)) }
    {
        self.select_within(alloc, ranges, 0, selection, session)
    }

    /// Loads and decodes columns, where the file stands in a larger one from `start` on.
    ///
    /// # Errors
    /// As `select`.
    pub fn select_within<R: Ranges>(
        &self,
        alloc: Global,
        ranges: &mut R,
        start: u64,
        selection: &Selection,
        session: &VortexSession,
    ) -> Result<Columns, FileError>
        requires { EndWithin (R.state ranges.old).size start self.now.ranges }
        // With shipped encodings only, they are the columns of the table that the file's own bytes spell.
        ensures picked { let s = session_meaning (λ b. means (b.vtable, b.value)) (λ b. accepted (b.vtable, b.value)) session.now in
            IsShipped s → (bytes own : List ℕ) (t : Tree) → Tells (R.state ranges.old) bytes → StandAt bytes start own
            → FileShows own self.now → FileSpells own s t → IfOk result (Picks (columns_of t) selection.now) }
        // Such columns are answered, or an allocation or a load fails.
        ensures complete { let s = session_meaning (λ b. means (b.vtable, b.value)) (λ b. accepted (b.vtable, b.value)) session.now in
            IsShipped s → (bytes own : List ℕ) (t : Tree) → Tells (R.state ranges.old) bytes → StandAt bytes start own
            → FileShows own self.now → FileSpells own s t → All (λ i. i < length self.now.ranges) selection.now
            → IfErr result (λ e. IsMemoryOrFault e (R.state ranges.old) (R.state ranges.new)) }
        // The ranges asked were loaded, and nothing else.
        ensures taken { OnOk result (HasTaken (taken_by self.now.ranges selection.now) (R.state ranges.old) (R.state ranges.new)) }
        ensures same { IsSameFile (R.state ranges.old) (R.state ranges.new) }
        ensures cause { let s = session_meaning (λ b. means (b.vtable, b.value)) (λ b. accepted (b.vtable, b.value)) session.now in
            IfErr result (RefusesSelecting s self.now start selection.now (R.state ranges.old) (R.state ranges.new)) }
    {
        let mut arrays = Vec::new(alloc);
        for column in selection.as_slice() {
            let array = self.load_column(alloc, ranges, start, *column, session)?;
            arrays.push(array)?;
        }
        Ok(Columns { arrays })
    }
}
