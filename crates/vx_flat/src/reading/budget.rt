//! The part of the limits that a verifier has left.

ghost use Rattle.std.specs.Prelude.{◌≡◌, ℕ, suc};
ghost use Rattle.vx_flat.specs.Counting.{Counts, all_of};
ghost use Rattle.vx_flat.specs.Weight.{bytes_alone, table_around, nothing};

use crate::error::FlatError;
use crate::limits::Limits;

/// How many tables and bytes may still be counted, and how many levels were left at the deepest
/// table so far.
#[derive(Drop)]
pub struct Budget {
    pub tables: u32,
    pub bytes: u64,
    pub levels: u32,
}

impl Budget {
    /// All of what limits allow.
    pub fn new(limits: Limits) -> Budget
        ensures { result ≡ all_of limits }
    {
        Budget {
            tables: limits.tables,
            bytes: limits.bytes,
            levels: limits.nested,
        }
    }

    /// Counts a vector or a string.
    pub fn add_bytes(&mut self, bytes: u64) -> Result<(), FlatError>
        ensures counts { (levels : ℕ)
            → Counts result self.old levels (bytes_alone bytes) self.new }
        ensures tables { self.new.tables ≡ self.old.tables }
    {
        if bytes > self.bytes {
            return Err(FlatError::TableLimit);
        }
        self.bytes -= bytes;
        Ok(())
    }

    /// Counts a table without its fields, in which `levels` tables may still nest.
    pub fn add_table(&mut self, levels: u32) -> Result<(), FlatError>
        ensures { Counts result self.old (suc levels) (table_around nothing) self.new }
    {
        if self.tables == 0 || self.bytes < 64 {
            return Err(FlatError::TableLimit);
        }
        self.tables -= 1;
        self.bytes -= 64;
        if levels < self.levels {
            self.levels = levels;
        }
        Ok(())
    }
}
