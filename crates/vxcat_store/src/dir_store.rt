//! The real files, as a store.

ghost use Rattle.std.specs.Prelude.{◌≡◌, ◌≤◌, ◌+◌, ◌-◌, ◌^◌, min, IsOk, IsErr, IsErrOf};
ghost use Rattle.vxcat_store.specs.StoreState.{untold};
ghost use Rattle.vxcat_store.specs.declared.store.StoreError.TheVariants as store_error;

use crate::store::{Store, StoreError};
use std::alloc::Global;
use std::fs::{self, OpenFile};
use std::io::{Read, Write};
use std::rt::Files;
use vx_buffer::{ByteBuffer, ByteBuffers};
use vx_types::{Blob, Name};

// The most bytes that one read asks for, and the most bytes of small buffers that are gathered before they are written.
const PIECE: usize = 1 << 16;

// After this many reads, each of at least one byte, a file counts as one without end, which is a fault.
const MAX_READS: u64 = 1 << 32;

/// The real files, by their paths from the folder that the program runs in.
///
/// The store tells nothing of what the files hold, since no contract can. Each error of the system is a fault, an
/// interrupted read or write too; so are a missing file, a folder, and a file without end.
#[derive(Drop)]
pub struct DirStore<'a, R: Files> {
    files: &'a R,
    asked: Vec<Name>,
    load_faults: u64,
    save_faults: u64,
}

impl<'a, R: Files> DirStore<'a, R> {
    /// A store that no name was asked of, without a fault so far. It takes no memory.
    pub fn new(alloc: Global, files: &'a R) -> DirStore<'a, R>
        ensures { ⟦<DirStore<'a, R> as Store>⟧.state result ≡ untold }
    {
        DirStore {
            files,
            asked: Vec::new(alloc),
            load_faults: 0,
            save_faults: 0,
        }
    }

    // Counts a save that failed.
    fn count_save(&mut self, saved: Result<(), StoreError>) -> Result<(), StoreError>
        ensures never_decreases { self.old.save_faults ≤ self.new.save_faults }
        ensures ok { IsOk saved → (result ≡ saved) × (self.new ≡ self.old) }
        ensures err { IsErr saved → IsErrOf result store_error.Failed
            × (self.new ≡ record self.old { save_faults = min (self.old.save_faults + 1) (2 ^ 64 - 1) }) }
    {
        if saved.is_ok() {
            return Ok(());
        }
        self.save_faults = self.save_faults.saturating_add(1);
        Err(StoreError::Failed)
    }
}

// The length that a file reports, in bytes: 0 where it reports none.
fn told_size<F: OpenFile>(file: &F) -> u64 {
    match file.metadata() {
        Ok(metadata) => metadata.len(),
        Err(_) => 0,
    }
}

// Room for `size` bytes and one more, by which the end is found; none where that memory cannot be allocated at once.
// The reported length is only a hint.
fn room_for(alloc: Global, size: u64) -> Vec<u8> {
    match Vec::with_capacity(alloc, (size as usize).saturating_add(1)) {
        Ok(room) => room,
        Err(_) => Vec::new(alloc),
    }
}

// The number of bytes that the next read asks for, after `end` bytes: what is left of the reported length, and one
// more, by which its end is found; at most `PIECE`. A file that is longer than it reports is read on in whole pieces.
fn next_piece(size: u64, end: usize) -> usize
    ensures { result ≤ PIECE }
{
    match size.checked_sub(end as u64) {
        Some(rest) if rest < PIECE as u64 => rest as usize + 1,
        _ => PIECE,
    }
}

// The file's bytes, read straight into the memory that is returned.
fn read_all<F: Read + OpenFile>(alloc: Global, file: &mut F) -> Result<Vec<u8>, StoreError> {
    let size = told_size(file);
    let mut bytes = room_for(alloc, size);
    let mut end = 0;
    for _ in 0..MAX_READS {
        bytes.resize(end + next_piece(size, end), 0)?;
        match file.read(&mut bytes[end..]) {
            Ok(0) => {
                bytes.truncate(end);
                return Ok(bytes);
            }
            Ok(count) => end += count,
            Err(_) => return Err(StoreError::Failed),
        }
    }
    Err(StoreError::Failed)
}

fn write_all<F: Write>(file: &mut F, bytes: &[u8]) -> Result<(), StoreError> {
    let mut rest = bytes;
    while !rest.is_empty() {
        match file.write(rest) {
            Ok(count) if count > 0 => {
                let (_, after) = rest.split_at(count);
                rest = after;
            }
            _ => return Err(StoreError::Failed),
        }
    }
    Ok(())
}

fn load_file<R: Files>(alloc: Global, files: &R, name: &Name) -> Result<Vec<u8>, StoreError> {
    match fs::open(files, name.as_str()) {
        Ok(mut file) => read_all(alloc, &mut file),
        Err(_) => Err(StoreError::Failed),
    }
}

fn flush<F: Write>(file: &mut F) -> Result<(), StoreError> {
    file.flush().map_err(|_| StoreError::Failed)
}

fn save_file<R: Files>(files: &R, name: &Name, bytes: &[u8]) -> Result<(), StoreError> {
    let Ok(mut file) = fs::create(files, name.as_str()) else {
        return Err(StoreError::Failed);
    };
    write_all(&mut file, bytes)?;
    flush(&mut file)
}

// Gathers a small piece after others; where there is no room for it, writes them and the piece.
fn gather<F: Write>(file: &mut F, gathered: &mut Vec<u8>, piece: &[u8]) -> Result<(), StoreError> {
    let room = PIECE.saturating_sub(gathered.len());
    if piece.len() <= room && gathered.extend_from_slice(piece).is_ok() {
        return Ok(());
    }
    write_all(file, gathered.as_slice())?;
    gathered.clear();
    write_all(file, piece)
}

// Writes the buffers, one after the other, as the whole of a file; small ones are written together.
fn save_pieces<R: Files>(
    alloc: Global,
    files: &R,
    name: &Name,
    buffers: &[ByteBuffer],
) -> Result<(), StoreError> {
    let Ok(mut file) = fs::create(files, name.as_str()) else {
        return Err(StoreError::Failed);
    };
    let mut gathered = Vec::new(alloc);
    for buffer in buffers {
        gather(&mut file, &mut gathered, buffer.as_slice())?;
    }
    write_all(&mut file, gathered.as_slice())?;
    flush(&mut file)
}

impl<R: Files> Store for DirStore<'_, R> {
    ghost use Rattle.std.specs.Prelude.{false, None};

    ghost state = { λ s. record {
      tells = false;
      file = λ name. None;
      asked = s.asked.items;
      load_faults = s.load_faults;
      save_faults = s.save_faults;
    } };

    fn load(&mut self, alloc: Global, name: &Name) -> Result<Blob, StoreError> {
        let asked = name.clone(alloc).map_err(|_| StoreError::OutOfMemory)?;
        self.asked.push(asked)?;
        match load_file(alloc, self.files, name) {
            Ok(bytes) => Ok(Blob::new(bytes)),
            Err(StoreError::OutOfMemory) => Err(StoreError::OutOfMemory),
            Err(StoreError::Failed) => {
                self.load_faults = self.load_faults.saturating_add(1);
                Err(StoreError::Failed)
            }
        }
    }

    fn save(&mut self, _alloc: Global, name: &Name, bytes: &[u8]) -> Result<(), StoreError> {
        let saved = save_file(self.files, name, bytes);
        self.count_save(saved)
    }

    fn save_buffers(
        &mut self,
        alloc: Global,
        name: &Name,
        buffers: &ByteBuffers,
    ) -> Result<(), StoreError> {
        let saved = save_pieces(alloc, self.files, name, buffers.as_slice());
        self.count_save(saved)
    }
}
