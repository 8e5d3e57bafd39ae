//! The bytes of a table's columns, which grow row by row.

ghost use Rattle.std.specs.Prelude.{◌≡◌, ℕ, ◌+◌, ◌++◌, ◌<◌, ◌≤◌, ◌/◌, ◌%◌, ◌*◌, ◌^◌, length, IfOk, OnOk};
ghost use Rattle.vx_generator.specs.Columns.{after_row, columns, element_bytes, no_rows, stored, with_bit, with_list, with_number, with_row};
ghost use Rattle.vx_generator.specs.Draws.{after};
ghost use Rattle.vx_generator.specs.Made.{data_len, table_tree};

use crate::draws::Draws;
use crate::error::GeneratorError;
use std::alloc::Global;
use std::marker::Model;

// The length in bytes of the texts and their views.
const TEXTS_LEN: usize = 101;

/// The bytes of the columns so far, and the number of elements in the lists.
#[derive(Drop)]
pub(crate) struct Columns {
    pub(crate) numbers: Vec<u8>,
    pub(crate) validity: Vec<u8>,
    pub(crate) codes: Vec<u8>,
    pub(crate) elements: Vec<u8>,
    pub(crate) offsets: Vec<u8>,
    pub(crate) count: u32,
}

impl Model for Columns {
    ghost use Rattle.vx_generator.specs.Columns.{Columns};

    ghost Value = { Columns };

    ghost view = { λ c. record {
      numbers = c.numbers.items;
      validity = c.validity.items;
      codes = c.codes.items;
      elements = c.elements.items;
      offsets = c.offsets.items;
      count = c.count;
    } };
}

impl Columns {
    /// The columns before the first row. The buffers whose size `rows` determines are allocated here; only the elements
    /// of the lists grow with each row.
    pub(crate) fn new(alloc: Global, rows: usize) -> Result<Columns, GeneratorError>
        requires { rows ≤ 1000000 }
        ensures { IfOk result (λ c. c ≡ no_rows rows) }
    {
        let mut offsets = Vec::with_capacity(alloc, 4 * (rows + 1))?;
        offsets.extend_from_slice(&0u32.to_le_bytes())?;
        Ok(Columns {
            numbers: Vec::with_capacity(alloc, 8 * rows)?,
            validity: vec![in alloc; 0; rows.div_ceil(8)]?,
            codes: Vec::with_capacity(alloc, rows)?,
            elements: Vec::new(alloc),
            offsets,
            count: 0,
        })
    }

    /// Appends the row of this number, drawn from `draws`.
    pub(crate) fn push_row(&mut self, draws: &mut Draws, row: usize) -> Result<(), GeneratorError>
        requires inside { row / 8 < length self.old.validity }
        requires few { self.old.count ≤ 3000000 }
        ensures columns { OnOk result (self.new ≡ with_row self.old draws.old row) }
        ensures state { OnOk result (draws.new ≡ after_row draws.old) }
    {
        let number = draws.draw();
        self.push_number(number, row)?;
        let code = draws.draw();
        self.codes.push((code % 5) as u8)?;
        let count = draws.draw() % 4;
        self.push_list(draws, count)
    }

    /// The number of bytes in the buffers of the table that these columns make, those of the dictionary's texts
    /// included.
    pub(crate) fn data_len(&self) -> u64
        requires { length self.now.numbers + length self.now.validity + length self.now.codes + length self.now.elements + length self.now.offsets < 2 ^ 32 }
        ensures { (n : ℕ) → result ≡ data_len (table_tree self.now n) }
    {
        let fixed = self.numbers.len() + self.validity.len() + self.codes.len();
        let lists = self.elements.len() + self.offsets.len();
        (fixed + TEXTS_LEN + lists) as u64
    }

    // Appends the number of a draw, and sets the bit of its row.
    fn push_number(&mut self, draw: u32, row: usize) -> Result<(), GeneratorError>
        requires inside { row / 8 < length self.old.validity }
        requires small { draw < 2 ^ 31 }
        ensures { OnOk result (self.new ≡ with_number self.old draw row) }
    {
        self.numbers.extend_from_slice(&stored(draw).to_le_bytes())?;
        if draw % 8 != 0 {
            set_bit(&mut self.validity, row);
        }
        Ok(())
    }

    // Appends a list of `count` draws, and the offset at which it ends.
    fn push_list(&mut self, draws: &mut Draws, count: u32) -> Result<(), GeneratorError>
        requires { self.old.count + count < 2 ^ 32 }
        ensures columns { OnOk result (self.new ≡ with_list self.old draws.old count) }
        ensures state { OnOk result (draws.new ≡ after draws.old count) }
    {
        push_elements(&mut self.elements, draws, count)?;
        self.count += count;
        self.offsets.extend_from_slice(&self.count.to_le_bytes())?;
        Ok(())
    }
}

// The number that is stored for a draw.
fn stored(draw: u32) -> i64
    requires { draw < 2 ^ 31 }
    ensures { result ≡ stored draw }
{
    if draw % 8 == 0 {
        0
    } else {
        i64::from(draw) - (1 << 30)
    }
}

// Sets the bit of a row.
fn set_bit(bits: &mut Vec<u8>, row: usize)
    requires { row / 8 < length bits.old.items }
    ensures { bits.new.items ≡ with_bit bits.old.items row }
{
    bits[row / 8] |= 1 << (row % 8);
}

// Appends this many draws as elements of a list.
fn push_elements(
    elements: &mut Vec<u8>,
    draws: &mut Draws,
    count: u32,
) -> Result<(), GeneratorError>
    ensures elements { OnOk result (elements.new.items ≡ elements.old.items ++ element_bytes draws.old count) }
    ensures state { OnOk result (draws.new ≡ after draws.old count) }
{
    for _ in 0..count {
        let element = (draws.draw() % 65536) as u16;
        elements.extend_from_slice(&element.to_le_bytes())?;
    }
    Ok(())
}

/// The columns of `rows` rows, drawn from a seed.
#[tactic(auto, using(crate::proofs::Grown::validity_len, crate::proofs::Grown::few))]
pub(crate) fn columns_of(alloc: Global, seed: u64, rows: usize) -> Result<Columns, GeneratorError>
    requires { rows ≤ 1000000 }
    ensures { IfOk result (λ c. c ≡ columns seed rows rows) }
{
    let mut draws = Draws::new(seed);
    let mut columns = Columns::new(alloc, rows)?;
    for row in 0..rows {
        columns.push_row(&mut draws, row)?;
    }
    Ok(columns)
}
