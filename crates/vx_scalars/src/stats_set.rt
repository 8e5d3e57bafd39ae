//! Sets of statistics.

ghost use Rattle.std.specs.Prelude.{◌≡◌, ◌==◌, false, IfOk, OnOk, OnErr, IsOkUnless, MatchOption};
ghost use Rattle.std.specs.Slice.Iter.{iter_rest};
ghost use Rattle.vx_types.specs.Value.{Value};
ghost use Rattle.vx_scalars.specs.Places.{IsPlace, Changes, borrowed, absence};
ghost use Rattle.vx_scalars.specs.Stats.{no_stats, told, told_at, with_told, told_in};
ghost use Rattle.vx_scalars.specs.Stats.{IsNowhere, IsTold, AreEntries, ListsEach};
ghost use Rattle.vx_scalars.specs.declared.precision.Precision.TheVariants.{Absent};

use crate::precision::Precision;
use crate::stat::Stat;
use crate::value::ScalarValue;
use std::alloc::Global;
use std::marker::Model;
use std::slice::Iter;
use vx_types::TypeError;

/// The statistics of an array's rows, each exact, a bound, or absent. Contracts see
/// what is known of each of the nine.
#[derive(Debug, Drop)]
pub struct StatsSet {
    entries: Vec<(Stat, Precision<ScalarValue>)>,
}

impl Model for StatsSet {
    ghost use Rattle.vx_scalars.specs.Stats.{Stats, stats_code};

    ghost Value = { Stats };

    ghost coded = { stats_code };

    ghost use Rattle.vx_scalars.specs.Stats.{stats_of, told_in, AreEntries};

    ghost view = { λ a. stats_of (λ s. told_in s a.entries.items) };

    ghost invariant = { λ a. AreEntries a.entries.items };
}

impl StatsSet {
    /// A set without statistics; those that are set are allocated by `alloc`.
    pub fn new(alloc: Global) -> StatsSet
        ensures { result ≡ no_stats }
    {
        StatsSet {
            entries: Vec::new(alloc),
        }
    }

    /// What is known of a statistic.
    pub fn get(&self, stat: Stat) -> Precision<&ScalarValue>
        ensures { told (borrowed result) ≡ told_at self.now stat }
    {
        match place_in(self.entries.as_slice(), stat) {
            Some(place) => as_borrowed(&self.entries[place].1),
            None => Precision::Absent,
        }
    }

    /// Sets a statistic; `Absent` removes it. On `OutOfMemory` the set is unchanged, and
    /// the value is dropped.
    pub fn set(&mut self, stat: Stat, value: Precision<ScalarValue>) -> Result<(), TypeError>
        ensures ok { OnOk result (self.new ≡ with_told self.old stat (told value)) }
        ensures unchanged { OnErr result (self.new ≡ self.old) }
        ensures err { IsOkUnless result TypeError.OutOfMemory }
    {
        let absent = is_absent(&value);
        match place_in(self.entries.as_slice(), stat) {
            Some(place) => {
                if absent {
                    take_out(&mut self.entries, stat, place);
                } else {
                    replace(&mut self.entries, stat, place, value);
                }
                Ok(())
            }
            None => {
                if absent {
                    return Ok(());
                }
                add(&mut self.entries, stat, value)
            }
        }
    }

    /// The statistics that are not absent, each once, with what is known of them.
    pub fn iter(&self) -> Iter<'_, (Stat, Precision<ScalarValue>)>
        ensures { ListsEach self.now (iter_rest result) }
    {
        self.entries.iter()
    }

    /// An equal set.
    pub fn clone(&self, alloc: Global) -> Result<StatsSet, TypeError>
        ensures ok { IfOk result (λ set. set ≡ self.now) }
        ensures err { IsOkUnless result TypeError.OutOfMemory }
    {
        let entries = copy_entries(self.entries.as_slice(), alloc)?;
        Ok(StatsSet { entries })
    }
}

// The same precision, with its value borrowed.
fn as_borrowed(value: &Precision<ScalarValue>) -> Precision<&ScalarValue>
    ensures { borrowed result ≡ value.now }
{
    match value {
        Precision::Exact(value) => Precision::Exact(value),
        Precision::Inexact(value) => Precision::Inexact(value),
        Precision::Absent => Precision::Absent,
    }
}

// Whether the precision is `Absent`.
fn is_absent(value: &Precision<ScalarValue>) -> bool
    ensures absent { result ≡ absence value.now }
    ensures told { result ≡ false → IsTold (told value.now) }
{
    match value {
        Precision::Exact(_) | Precision::Inexact(_) => false,
        Precision::Absent => true,
    }
}

// The index of the entry of a statistic; `None` if it has none.
#[tactic(auto, using(crate::proofs::Entries::placing))]
fn place_in(entries: &[(Stat, Precision<ScalarValue>)], stat: Stat) -> Option<usize>
    ensures { MatchOption result (IsNowhere stat entries.now) (λ i. IsPlace stat i entries.now) }
{
    for i in 0..entries.len() {
        if entries[i].0.index() == stat.index() {
            return Some(i);
        }
    }
    None
}

// Removes the entry of a statistic from its index.
fn take_out(entries: &mut Vec<(Stat, Precision<ScalarValue>)>, stat: Stat, place: usize)
    requires place { IsPlace stat place entries.old.items }
    requires before { AreEntries entries.old.items }
    ensures changes { Changes stat Absent entries.old.items entries.new.items }
    ensures after { AreEntries entries.new.items }
{
    let _ = entries.remove(place);
}

// Replaces the entry of a statistic at its index.
fn replace(
    entries: &mut Vec<(Stat, Precision<ScalarValue>)>,
    stat: Stat,
    place: usize,
    value: Precision<ScalarValue>,
)
    requires place { IsPlace stat place entries.old.items }
    requires before { AreEntries entries.old.items }
    requires told { IsTold (told value) }
    ensures changes { Changes stat (told value) entries.old.items entries.new.items }
    ensures after { AreEntries entries.new.items }
{
    entries[place] = (stat, value);
}

// Appends an entry for a statistic that has none.
fn add(
    entries: &mut Vec<(Stat, Precision<ScalarValue>)>,
    stat: Stat,
    value: Precision<ScalarValue>,
) -> Result<(), TypeError>
    requires nowhere { IsNowhere stat entries.old.items }
    requires before { AreEntries entries.old.items }
    requires told { IsTold (told value) }
    ensures changes { OnOk result (Changes stat (told value) entries.old.items entries.new.items) }
    ensures after { AreEntries entries.new.items }
    ensures unchanged { OnErr result (entries.new.items ≡ entries.old.items) }
    ensures err { IsOkUnless result TypeError.OutOfMemory }
{
    entries.push((stat, value))?;
    Ok(())
}

// Copies of the entries.
fn copy_entries(
    entries: &[(Stat, Precision<ScalarValue>)],
    alloc: Global,
) -> Result<Vec<(Stat, Precision<ScalarValue>)>, TypeError>
    ensures ok { IfOk result (λ copies. copies.items ≡ entries.now) }
    ensures err { IsOkUnless result TypeError.OutOfMemory }
{
    let mut copies = Vec::new(alloc);
    for i in 0..entries.len() {
        copies.push(copy_entry(&entries[i], alloc)?)?;
    }
    Ok(copies)
}

// A copy of an entry.
fn copy_entry(
    entry: &(Stat, Precision<ScalarValue>),
    alloc: Global,
) -> Result<(Stat, Precision<ScalarValue>), TypeError>
    ensures ok { IfOk result (λ copy. copy ≡ entry.now) }
    ensures err { IsOkUnless result TypeError.OutOfMemory }
{
    let stat = entry.0;
    match &entry.1 {
        Precision::Exact(value) => Ok((stat, Precision::Exact(value.clone(alloc)?))),
        Precision::Inexact(value) => Ok((stat, Precision::Inexact(value.clone(alloc)?))),
        Precision::Absent => Ok((stat, Precision::Absent)),
    }
}
