//! Reads the indexes of the named files, and finds the places of the blocks that are to be read.
ghost use Rattle.std.specs.Prelude.{◌≡◌, ◌+◌, ◌*◌, ◌^◌, ◌<◌, ◌≤◌, ◌++◌, ◌∷◌, [], length, filter, count_by, not, All, IfOk, IfErr, OnOk, IsErrOf};
ghost use Rattle.std.specs.Option.{ForSome};
ghost use Rattle.snel_device.specs.Causes.{HasCause};
ghost use Rattle.query_tree.specs.Queries.{query_view};
ghost use Rattle.query_tree.specs.View.{view};
ghost use Rattle.file_meaning.specs.Files.{IsFile};
ghost use Rattle.time_index.specs.Answers.{Knows, Costs};
ghost use Rattle.scan_meaning.specs.Blocks.{places_from};
ghost use Rattle.scan_meaning.specs.Wanted as wanted;
ghost use Rattle.scan_meaning.specs.Causes.{index_costs};
ghost use Rattle.scan_files.specs.Surveys.{Surveys, SaysOfFile, SaysOfFiles, IsAbsent};

use crate::block::Place;
use crate::fault::FilesFault;
use query_tree::Query;
use snel_device::Files;
use snel_values::{OutOfMemory, Words};
use std::alloc::Global;
use time_index::{Bounds, Entry, Index, IndexFault, bounds, excluded, read_index};

/// The blocks that a query reads.
#[derive(Drop)]
pub struct Survey {
    /// The name of the field that each file indexes, empty where it indexes none.
    pub fields: Words,
    /// Where the blocks stand, in the order of files and blocks.
    pub places: Vec<Place>,
    /// How many blocks the WHERE excludes.
    pub skipped: u32,
}

/// Reads the index of each file, in order, up to the first that is absent or no block file, and finds the blocks that the WHERE
/// of the query doesn't exclude by the times that the indexes tell.
pub fn find_places<F: Files>(
    alloc: Global,
    query: &Query,
    names: &Words,
    files: &mut F,
) -> Result<Survey, FilesFault>
    requires { length names.now ≤ 64 }
    ensures surveyed { IfOk result (λ s. ForSome (F.told files.old) (λ told. Surveys
        (query_view query.now) names.now (length names.now) told s.fields s.places.items s.skipped)) }
    ensures named { IfOk result (λ s. All (λ p. p.file < length names.now) s.places.items) }
    ensures few { IfOk result (λ s. length s.places.items ≤ 2 ^ 26) }
    ensures refused { IfErr result (λ fault. SaysOfFiles (F.told files.old) names.now fault) }
    ensures later { F.taken files.old ≤ F.taken files.new }
    ensures cost { ForSome (F.told files.old)
        (λ told. F.taken files.new ≤ F.taken files.old + index_costs told names.now) }
    ensures fault { HasCause (F.read_faults files.old) (F.read_faults files.new)
        (IsErrOf result FilesFault.ReadFault) }
    ensures missed { HasCause (F.misses files.old) (F.misses files.new) (IsAbsent result) }
    ensures told { F.told files.new ≡ F.told files.old }
    ensures same_write_faults { F.write_faults files.new ≡ F.write_faults files.old }
{
    let mut fields = Words::new(alloc);
    let mut places = Vec::new(alloc);
    let mut skipped = 0;
    for number in 0..names.len() {
        let Some(name) = names.get(number) else {
            unreachable!()
        };
        let index = match index_of(alloc, name, number as u32, files) {
            Ok(index) => index,
            Err(fault) => return Err(fault),
        };
        match add_file(query, number as u32, &index, &mut fields, &mut places) {
            Ok(more) => skipped += more,
            Err(OutOfMemory) => return Err(FilesFault::OutOfMemory),
        }
    }
    Ok(Survey {
        fields,
        places,
        skipped,
    })
}

/// The index of the file with this number.
pub fn index_of<F: Files>(
    alloc: Global,
    name: &str,
    number: u32,
    files: &mut F,
) -> Result<Index, FilesFault>
    ensures index { IfOk result (λ x. Knows (F.told files.old) name.now
        (λ bytes. IsFile bytes x.field x.entries)) }
    ensures few { IfOk result (λ x. length x.entries ≤ 2 ^ 20) }
    ensures refused { IfErr result (λ fault. SaysOfFile (F.told files.old) name.now number fault) }
    ensures cost { Costs (F.told files.old) name.now (F.taken files.old) (F.taken files.new) }
    ensures fault { HasCause (F.read_faults files.old) (F.read_faults files.new)
        (IsErrOf result FilesFault.ReadFault) }
    ensures missed { HasCause (F.misses files.old) (F.misses files.new) (IsAbsent result) }
    ensures told { F.told files.new ≡ F.told files.old }
    ensures same_write_faults { F.write_faults files.new ≡ F.write_faults files.old }
{
    match read_index(alloc, files, name) {
        Ok(index) => Ok(index),
        Err(IndexFault::Absent) => Err(FilesFault::Absent(number)),
        Err(IndexFault::Failed) => Err(FilesFault::ReadFault),
        Err(IndexFault::NotAFile) => Err(FilesFault::NotAFile(number)),
        Err(IndexFault::OutOfMemory) => Err(FilesFault::OutOfMemory),
    }
}

// Adds the field of a file and the places of its blocks that aren't excluded, and answers how many are.
fn add_file(
    query: &Query,
    file: u32,
    index: &Index,
    fields: &mut Words,
    places: &mut Vec<Place>,
) -> Result<u32, OutOfMemory>
    requires { length index.now.entries ≤ 2 ^ 20 }
    ensures field { OnOk result (fields.new ≡ fields.old ++ index.now.field ∷ []) }
    ensures added { OnOk result (places.new.items ≡ places.old.items
        ++ filter (λ p. wanted.is_wanted (query_view query.now) index.now.field p.entry)
        (places_from file 0 index.now.entries)) }
    ensures skipped { IfOk result (λ n. n ≡ count_by
        (λ p. not (wanted.is_wanted (query_view query.now) index.now.field p.entry))
        (places_from file 0 index.now.entries)) }
    ensures few { IfOk result (λ n. n ≤ 2 ^ 20) }
    ensures room { OnOk result (length places.new.items ≤ length places.old.items + 2 ^ 20) }
{
    let field = index.field.as_str();
    fields.push(field)?;
    let limits = limits_of(query, field);
    add_places(&limits, file, index.entries.as_slice(), places)
}

// The bounds that the WHERE of a query leaves of a field.
fn limits_of(query: &Query, field: &str) -> Bounds
    ensures { result ≡ wanted.bounds_by field.now (query_view query.now).filter }
{
    match &query.filter {
        Some(filter) => bounds(filter.get(), field),
        None => Bounds::All,
    }
}

// Adds the places of a file's blocks that the bounds don't exclude, and answers how many they exclude.
fn add_places(
    limits: &Bounds,
    file: u32,
    entries: &[Entry],
    places: &mut Vec<Place>,
) -> Result<u32, OutOfMemory>
    requires { length entries.now ≤ 2 ^ 20 }
    ensures added { OnOk result (places.new.items ≡ places.old.items
        ++ filter (λ p. not (wanted.are_apart p.entry limits.now)) (places_from file 0 entries.now)) }
    ensures skipped { IfOk result (λ n. n ≡ count_by
        (λ p. not (not (wanted.are_apart p.entry limits.now))) (places_from file 0 entries.now)) }
    ensures few { IfOk result (λ n. n ≤ 2 ^ 20) }
    ensures room { OnOk result (length places.new.items ≤ length places.old.items + 2 ^ 20) }
{
    let mut skipped = 0;
    for (number, entry) in entries.iter().enumerate() {
        let place = Place {
            file,
            block: number as u32,
            entry: *entry,
        };
        if is_wanted(entry, limits) {
            places.push(place)?;
        } else {
            skipped += 1;
        }
    }
    Ok(skipped)
}

// Whether the bounds don't exclude the entry's block.
fn is_wanted(entry: &Entry, limits: &Bounds) -> bool
    ensures { result ≡ not (wanted.are_apart entry.now limits.now) }
{
    !excluded(entry, limits)
}
