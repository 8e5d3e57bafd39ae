//! The steps of the command: loading its inputs, recoding the blob, and saving the outputs.

ghost use Rattle.std.specs.Prelude.{◌≡◌, ◌≢◌, ◌≤◌, List, ℕ, None, Some, false, IfOk, IfErr, OnOk, Option, option_map};
ghost use Rattle.vx_types.specs.Known.{ExtMeaning};
ghost use Rattle.vx_types.specs.Seen.{typ};
ghost use Rattle.vx_types.specs.Typ.{Typ};
ghost use Rattle.vx_type_wire.specs.Known.{IsRead};
ghost use Rattle.vx_type_wire.specs.Session.{ext_meaning};
ghost use Rattle.vx_wire_tree.specs.Session.{IsShipped};
ghost use Rattle.vx_registry.specs.Meaning.{arrays_meaning, session_meaning};
ghost use Rattle.vx_type_wire.specs.Shown.{ShowsType};
ghost use Rattle.vx_serde.specs.Request.{CanRecode, request_for};
ghost use Rattle.vx_buffer.specs.Joined.{joined};
ghost use Rattle.vxcat_blobs.specs.Recode.{AreInputs, AreSaved, CanRecodeInputs, RefusesInputs, KeepsOthers, ReadsAllowed, SavesInOrder, StandsIfNamed, context_of, if_named, inputs, padded_at, readers_by, session_by, shipped_by};
ghost use Rattle.vxcat_store.specs.IdFile.{ReadsIds};
ghost use Rattle.vxcat_store.specs.StoreState.{AskedOnly};
ghost use Rattle.vxcat_store.specs.Statuses.{RefusesLoad, RefusesSave};
ghost use Rattle.vxcat_blobs.specs.RecodeViews.{AreMade, AreOutputs, RefusesIdFile, RefusesTypeFile, RefusesBlob, line_of, loaded_of};
ghost use Rattle.vxcat_store.specs.declared.status.Status.TheVariants.{OutOfMemory};

use super::words::RecodeWords;
use std::alloc::Global;
use vx_arrays::Array;
use vx_buffer::{ByteBuffer, ByteBuffers};
use vx_registry::{ArrayContext, ArraySession, ReadContext, VortexSession};
use vx_serde::{Recoded, SerializeOptions, recode};
use vx_type_wire::{DTypeExt, ExtSession};
use vx_types::{Blob, DType, Ids, Name};
use vxcat_store::{Status, Store, read_ids, write_ids};

/// The contents of the files that the command reads.
#[derive(Drop)]
pub struct Inputs {
    pub type_bytes: Blob,
    pub blob: Blob,
    pub id_bytes: Blob,
    pub allow_bytes: Option<Blob>,
}

/// The outputs of the command: the array that it lists, and the buffers of the new blob with its identifiers.
#[derive(Drop)]
pub struct Outputs {
    pub array: Array,
    pub buffers: ByteBuffers,
    pub ids: Ids,
}

/// Loads the type file, the blob, the id file and, where there is one, the file of allowed identifiers, in this order.
pub fn load_inputs<S: Store>(
    alloc: Global,
    words: &RecodeWords,
    store: &mut S,
) -> Result<Inputs, Status>
    ensures inputs { IfOk result (λ loaded. AreInputs (line_of words.now) (S.state store.old) (loaded_of loaded)) }
    ensures asked { AskedOnly (inputs (line_of words.now)) (S.state store.old).asked (S.state store.new).asked }
    ensures told { (S.state store.new).tells ≡ (S.state store.old).tells }
    ensures files { (S.state store.new).file ≡ (S.state store.old).file }
    ensures save_faults { (S.state store.new).save_faults ≡ (S.state store.old).save_faults }
    ensures cause { IfErr result (λ status. RefusesLoad status (S.state store.old) (S.state store.new)) }
{
    let type_bytes = match store.load(alloc, words.type_file) {
        Ok(bytes) => bytes,
        Err(error) => return Err(Status::of_load(error)),
    };
    let blob = match store.load(alloc, words.blob_file) {
        Ok(bytes) => bytes,
        Err(error) => return Err(Status::of_load(error)),
    };
    let id_bytes = match store.load(alloc, words.id_file) {
        Ok(bytes) => bytes,
        Err(error) => return Err(Status::of_load(error)),
    };
    match load_named(alloc, words.options.allow, store) {
        Ok(allow_bytes) => Ok(Inputs {
            type_bytes,
            blob,
            id_bytes,
            allow_bytes,
        }),
        Err(status) => Err(status),
    }
}

// Loads a file, where a name is given.
fn load_named<S: Store>(
    alloc: Global,
    name: Option<&Name>,
    store: &mut S,
) -> Result<Option<Blob>, Status>
    ensures stands { IfOk result (λ bytes. StandsIfNamed (S.state store.old) (option_map (λ n. n.now) name.entry) bytes) }
    ensures asked { AskedOnly (if_named (option_map (λ n. n.now) name.entry)) (S.state store.old).asked (S.state store.new).asked }
    ensures told { (S.state store.new).tells ≡ (S.state store.old).tells }
    ensures files { (S.state store.new).file ≡ (S.state store.old).file }
    ensures save_faults { (S.state store.new).save_faults ≡ (S.state store.old).save_faults }
    ensures never_decreases { (S.state store.old).load_faults ≤ (S.state store.new).load_faults }
    ensures cause { IfErr result (λ status. RefusesLoad status (S.state store.old) (S.state store.new)) }
{
    match name {
        None => Ok(None),
        Some(name) => match store.load(alloc, name) {
            Ok(bytes) => Ok(Some(bytes)),
            Err(error) => Err(Status::of_load(error)),
        },
    }
}

/// Reads the type file, then the id files, and recodes the blob, with the shipped encodings and without readers of
/// extensions. The options say whether primitives have two identifiers, and whether what is unknown is allowed.
pub fn recode_inputs(alloc: Global, words: &RecodeWords, loaded: Inputs) -> Result<Outputs, Status>
    ensures made { IfOk result (λ made. AreOutputs (line_of words.now) (loaded_of loaded) made) }
    ensures cause { IfErr result (λ status. RefusesInputs status (line_of words.now) (loaded_of loaded)) }
    ensures complete { CanRecodeInputs (line_of words.now) (loaded_of loaded) → IfErr result (λ status. status ≡ OutOfMemory) }
{
    let made = if words.options.revised {
        ArraySession::revised(alloc)
    } else {
        ArraySession::default(alloc)
    };
    let Ok(arrays) = made else {
        return Err(Status::OutOfMemory);
    };
    recode_by(
        alloc,
        words,
        loaded,
        VortexSession::new(arrays, ExtSession::new(alloc)),
    )
}

// The same with a session of the shipped encodings, and no readers of extensions.
fn recode_by(
    alloc: Global,
    words: &RecodeWords,
    loaded: Inputs,
    mut session: VortexSession,
) -> Result<Outputs, Status>
    requires arrays { (x : ExtMeaning) → arrays_meaning (λ b. means (b.vtable, b.value)) session.arrays x ≡ shipped_by words.now.options.revised x }
    requires readers { ext_meaning (λ b. accepted (b.vtable, b.value)) session.ext ≡ readers_by false }
    ensures made { IfOk result (λ made. AreOutputs (line_of words.now) (loaded_of loaded) made) }
    ensures cause { IfErr result (λ status. RefusesInputs status (line_of words.now) (loaded_of loaded)) }
    ensures complete { CanRecodeInputs (line_of words.now) (loaded_of loaded) → IfErr result (λ status. status ≡ OutOfMemory) }
{
    if words.options.unknown {
        session.ext.allow_unknown();
        return recode_under(alloc, words, loaded, &session);
    }
    recode_under(alloc, words, loaded, &session)
}

// The same under a session: the one that the options ask for.
fn recode_under(
    alloc: Global,
    words: &RecodeWords,
    loaded: Inputs,
    session: &VortexSession,
) -> Result<Outputs, Status>
    requires { session_meaning (λ b. means (b.vtable, b.value)) (λ b. accepted (b.vtable, b.value)) session.now ≡ session_by words.now.options.revised words.now.options.unknown }
    ensures made { IfOk result (λ made. AreOutputs (line_of words.now) (loaded_of loaded) made) }
    ensures cause { IfErr result (λ status. RefusesInputs status (line_of words.now) (loaded_of loaded)) }
    ensures complete { CanRecodeInputs (line_of words.now) (loaded_of loaded) → IfErr result (λ status. status ≡ OutOfMemory) }
{
    let dtype = match read_type_file(alloc, loaded.type_bytes, &session.ext) {
        Ok(dtype) => dtype,
        Err(status) => return Err(status),
    };
    let read_ids = match read_id_file(alloc, loaded.id_bytes.as_slice()) {
        Ok(ids) => ids,
        Err(status) => return Err(status),
    };
    let context = match read_context(alloc, &loaded.allow_bytes) {
        Ok(context) => context,
        Err(status) => return Err(status),
    };
    let options = serialize_options(words.options.pad, words.options.deep);
    let read = ReadContext::new(read_ids);
    recode_blob(
        alloc,
        loaded.blob,
        &dtype,
        words.len,
        &read,
        context,
        session,
        &options,
    )
}

// The type that a type file shows, as far as these readers know its extensions. The bytes are dropped once it is read.
fn read_type_file(alloc: Global, bytes: Blob, readers: &ExtSession) -> Result<DType, Status>
    ensures read { let x = ext_meaning (λ b. accepted (b.vtable, b.value)) readers.now in
        IfOk result (λ d. IsRead (ShowsType bytes) x (typ d)) }
    ensures status { IfErr result RefusesTypeFile }
    ensures complete { let x = ext_meaning (λ b. accepted (b.vtable, b.value)) readers.now in
        (t : Typ) → IsRead (ShowsType bytes) x t → IfErr result (λ status. status ≡ OutOfMemory) }
{
    read_type(alloc, bytes.as_slice(), readers)
}

// The type that bytes show, as far as these readers know its extensions.
fn read_type(alloc: Global, bytes: &[u8], readers: &ExtSession) -> Result<DType, Status>
    ensures read { let x = ext_meaning (λ b. accepted (b.vtable, b.value)) readers.now in
        IfOk result (λ d. IsRead (ShowsType bytes.now) x (typ d)) }
    ensures status { IfErr result RefusesTypeFile }
    ensures complete { let x = ext_meaning (λ b. accepted (b.vtable, b.value)) readers.now in
        (t : Typ) → IsRead (ShowsType bytes.now) x t → IfErr result (λ status. status ≡ OutOfMemory) }
{
    match DType::from_flatbuffer(alloc, bytes, readers) {
        Ok(dtype) => Ok(dtype),
        Err(error) => Err(Status::of_type(error)),
    }
}

// The identifiers of an id file.
fn read_id_file(alloc: Global, bytes: &[u8]) -> Result<Ids, Status>
    ensures read { IfOk result (λ ids. ReadsIds bytes.now ids) }
    ensures cause { IfErr result (λ status. RefusesIdFile status (λ ids. ReadsIds bytes.now ids)) }
{
    match read_ids(alloc, bytes) {
        Ok(ids) => Ok(ids),
        Err(error) => Err(Status::of_ids(error)),
    }
}

// The context for the new blob: an empty one, which allows the identifiers of the file, or all where there is none.
fn read_context(alloc: Global, allow_bytes: &Option<Blob>) -> Result<ArrayContext, Status>
    ensures read { IfOk result (λ context. (allowed : Option (List (List ℕ))) × ReadsAllowed allow_bytes.now allowed × (context ≡ context_of allowed)) }
    ensures cause { IfErr result (λ status. RefusesIdFile status (λ allowed. ReadsAllowed allow_bytes.now allowed)) }
{
    let context = ArrayContext::empty(alloc);
    let Some(bytes) = allow_bytes else {
        return Ok(context);
    };
    let ids = match read_id_file(alloc, bytes.as_slice()) {
        Ok(ids) => ids,
        Err(status) => return Err(status),
    };
    match context.with_allowed_ids(alloc, &ids) {
        Ok(context) => Ok(context),
        Err(_) => Err(Status::OutOfMemory),
    }
}

/// How the blob is read and the new one written: with pads where their position is given, and deep or not.
pub fn serialize_options(pad: Option<u64>, deep: bool) -> SerializeOptions
    ensures { result ≡ padded_at pad deep }
{
    match pad {
        None => SerializeOptions {
            offset: 0,
            include_padding: false,
            deep,
        },
        Some(offset) => SerializeOptions {
            offset: offset as usize,
            include_padding: true,
            deep,
        },
    }
}

// Recodes a blob under a session and a context.
fn recode_blob(
    alloc: Global,
    blob: Blob,
    dtype: &DType,
    len: u64,
    read: &ReadContext,
    context: ArrayContext,
    session: &VortexSession,
    options: &SerializeOptions,
) -> Result<Outputs, Status>
    ensures made { let s = session_meaning (λ b. means (b.vtable, b.value)) (λ b. accepted (b.vtable, b.value)) session.now in
        IsShipped s → IfOk result (AreMade (request_for blob (typ dtype.now) len read.now context s options.now)) }
    ensures cause { let s = session_meaning (λ b. means (b.vtable, b.value)) (λ b. accepted (b.vtable, b.value)) session.now in
        IfErr result (λ status. RefusesBlob status (request_for blob (typ dtype.now) len read.now context s options.now)) }
    ensures complete { let s = session_meaning (λ b. means (b.vtable, b.value)) (λ b. accepted (b.vtable, b.value)) session.now in
        IsShipped s → CanRecode (request_for blob (typ dtype.now) len read.now context s options.now) → IfErr result (λ status. status ≡ OutOfMemory) }
{
    match ByteBuffer::from_vec(blob.into_vec()) {
        Ok(buffer) => recode_buffer(alloc, buffer, dtype, len, read, context, session, options),
        Err(_) => Err(Status::OutOfMemory),
    }
}

/// Recodes a blob in a buffer, under a session and a context.
pub fn recode_buffer(
    alloc: Global,
    buffer: ByteBuffer,
    dtype: &DType,
    len: u64,
    read: &ReadContext,
    context: ArrayContext,
    session: &VortexSession,
    options: &SerializeOptions,
) -> Result<Outputs, Status>
    ensures made { let s = session_meaning (λ b. means (b.vtable, b.value)) (λ b. accepted (b.vtable, b.value)) session.now in
        IsShipped s → IfOk result (AreMade (request_for buffer.bytes (typ dtype.now) len read.now context s options.now)) }
    ensures cause { let s = session_meaning (λ b. means (b.vtable, b.value)) (λ b. accepted (b.vtable, b.value)) session.now in
        IfErr result (λ status. RefusesBlob status (request_for buffer.bytes (typ dtype.now) len read.now context s options.now)) }
    ensures complete { let s = session_meaning (λ b. means (b.vtable, b.value)) (λ b. accepted (b.vtable, b.value)) session.now in
        IsShipped s → CanRecode (request_for buffer.bytes (typ dtype.now) len read.now context s options.now) → IfErr result (λ status. status ≡ OutOfMemory) }
{
    let mut ids = context;
    match recode(
        alloc,
        buffer,
        dtype,
        len as usize,
        read,
        &mut ids,
        session,
        options,
    ) {
        Ok(recoded) => make_outputs(alloc, recoded, &ids),
        Err(error) => Err(Status::of_blob(error)),
    }
}

fn make_outputs(alloc: Global, recoded: Recoded, ids: &ArrayContext) -> Result<Outputs, Status>
    ensures array { IfOk result (λ made. made.array ≡ recoded.array) }
    ensures buffers { IfOk result (λ made. made.buffers ≡ recoded.buffers) }
    ensures ids { IfOk result (λ made. made.ids ≡ ids.now.ids) }
    ensures memory { IfErr result (λ status. status ≡ OutOfMemory) }
{
    match ids.to_ids(alloc) {
        Ok(ids) => Ok(Outputs {
            array: recoded.array,
            buffers: recoded.buffers,
            ids,
        }),
        Err(_) => Err(Status::OutOfMemory),
    }
}

/// Saves the new blob, then the text of its identifiers.
pub fn save_outputs<S: Store>(
    alloc: Global,
    words: &RecodeWords,
    made: &Outputs,
    store: &mut S,
) -> Result<(), Status>
    requires { words.now.out.now ≢ words.now.out_ids.now }
    ensures saved { OnOk result (AreSaved (line_of words.now) (S.state store.new) (joined made.now.buffers) made.now.ids) }
    ensures others { KeepsOthers (line_of words.now) (S.state store.old) (S.state store.new) }
    ensures in_order { SavesInOrder (line_of words.now) (S.state store.old) (S.state store.new) (joined made.now.buffers) }
    ensures cause { IfErr result (λ status. RefusesSave status (S.state store.old) (S.state store.new)) }
{
    let Ok(text) = write_ids(alloc, &made.ids) else {
        return Err(Status::OutOfMemory);
    };
    if let Err(error) = store.save_buffers(alloc, words.out, &made.buffers) {
        return Err(Status::of_save(error));
    }
    match store.save(alloc, words.out_ids, text.as_slice()) {
        Ok(()) => Ok(()),
        Err(error) => Err(Status::of_save(error)),
    }
}
