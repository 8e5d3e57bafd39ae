//! Verifies a message and gives the view of its root; and restores a view from its place.

ghost use Rattle.std.specs.Prelude.{◌≡◌, ◌+◌, ◌<◌, ◌≤◌, OnOk};
ghost use Rattle.vx_flat.specs.Value.{Fields};
ghost use Rattle.vx_flat.specs.Shows.{ShowsAt};
ghost use Rattle.vx_flat.specs.Weight as weigh;
ghost use Rattle.vx_flat.specs.Limits.{limits, limits_to};
ghost use Rattle.vx_flat.specs.Seen.{IsViewAt};
ghost use Rattle.vx_flat.specs.Verified.{Verified};

use crate::error::FlatError;
use crate::limits::{LIMITS, Limits};
use crate::reading::budget::Budget;
use crate::reading::places::u32_at;
use crate::reading::verifying::verify_table;
use crate::schema::TableKind;
use crate::steps::Steps;
use crate::viewing::{View, fields_found};
use crate::weight::Weight;
use std::marker::Brand;
use std::sync::ledger::{Blank, Ledger};

/// Verifies a message within these limits.
fn verify_within<'a, K: TableKind, L: Ledger>(
    message: &'a [u8],
    kind: &K,
    limits: Limits,
    steps: &mut Steps<L>,
) -> Result<View<'a>, FlatError>
    ensures verified { Verified K.schema limits message.now result }
    ensures exact { OnOk result (steps.new ≡ steps.old + (weigh.weight K.schema message.now).tables) }
    ensures bound { steps.new ≤ steps.old + limits.tables + 1 }
{
    if message.len() < 4 {
        return Err(FlatError::BadTable);
    }
    let mut budget = Budget::new(limits);
    let place = u32_at(message, 0) as usize;
    let table = kind.root();
    verify_table(
        message,
        kind,
        place,
        table,
        limits.nested,
        &mut budget,
        steps,
    )?;
    let schema = kind.lists();
    let fields = fields_found(message, schema, place, table);
    let weight = Weight {
        nested: (limits.nested - budget.levels) as u64,
        tables: (limits.tables - budget.tables) as u64,
        bytes: limits.bytes - budget.bytes,
    };
    Ok(View {
        message,
        schema,
        table,
        place,
        fields,
        weight,
    })
}

// [`verify_within`] with a counter of its own.
fn verify_by<'a, K: TableKind, L: Ledger>(
    message: &'a [u8],
    kind: &K,
    limits: Limits,
    blank: Blank,
) -> Result<View<'a>, FlatError>
    requires name { blank.name ≡ L.name }
    requires parts { blank.parts ≡ L.parts }
    requires some { 0 < blank.parts }
    ensures { Verified K.schema limits message.now result }
{
    let mut steps: Steps<L> = Steps::new(blank);
    verify_within(message, kind, limits, &mut steps)
}

/// Verifies a message and gives the view of its root. Tables may nest 128 deep with `deep`, and 64
/// deep without. It allocates nothing, and takes one step for each table that it enters, at most
/// 1,000,001. A shared part is verified once for each path to it.
///
/// # Errors
///
/// [`FlatError::BadTable`] if the message shows no value of the schema, and
/// [`FlatError::TableLimit`] if it exceeds a limit. If both hold, either is given.
pub fn verify_to<'a, K: TableKind, L: Ledger>(
    message: &'a [u8],
    kind: &K,
    deep: bool,
    steps: &mut Steps<L>,
) -> Result<View<'a>, FlatError>
    ensures verified { Verified K.schema (limits_to deep) message.now result }
    ensures exact { OnOk result (steps.new ≡ steps.old + (weigh.weight K.schema message.now).tables) }
    ensures bound { steps.new ≤ steps.old + 1000001 }
{
    verify_within(message, kind, Limits::to(deep), steps)
}

/// [`verify_to`] without `deep`: tables may nest 64 deep.
pub fn verify<'a, K: TableKind, L: Ledger>(
    message: &'a [u8],
    kind: &K,
    steps: &mut Steps<L>,
) -> Result<View<'a>, FlatError>
    ensures verified { Verified K.schema limits message.now result }
    ensures exact { OnOk result (steps.new ≡ steps.old + (weigh.weight K.schema message.now).tables) }
    ensures bound { steps.new ≤ steps.old + 1000001 }
{
    verify_within(message, kind, LIMITS, steps)
}

/// [`verify_to`] without a count of steps.
pub fn verify_uncounted_to<'a, K: TableKind>(
    message: &'a [u8],
    kind: &K,
    deep: bool,
) -> Result<View<'a>, FlatError>
    ensures { Verified K.schema (limits_to deep) message.now result }
{
    verify_by::<K, Brand>(message, kind, Limits::to(deep), Blank::new(1))
}

/// [`verify`] without a count of steps.
pub fn verify_uncounted<'a, K: TableKind>(
    message: &'a [u8],
    kind: &K,
) -> Result<View<'a>, FlatError>
    ensures { Verified K.schema limits message.now result }
{
    verify_by::<K, Brand>(message, kind, LIMITS, Blank::new(1))
}

/// Restores a view of this kind from its place in the same bytes, without a check. Its weight is the
/// given one.
pub fn view_at<'a, K: TableKind>(
    message: &'a [u8],
    kind: &K,
    place: usize,
    weight: Weight,
) -> View<'a>
    requires { (v : Fields) × ShowsAt K.schema message.now place K.schema.root v }
    ensures { IsViewAt K.schema message.now place weight result }
{
    let schema = kind.lists();
    let table = kind.root();
    let fields = fields_found(message, schema, place, table);
    View {
        message,
        schema,
        table,
        place,
        fields,
        weight,
    }
}
