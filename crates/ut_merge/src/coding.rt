//! A column of the new part: its own dictionary, and its codes.
ghost use Rattle.std.specs.Prelude.{◌≡◌, ◌+◌, ◌^◌, ◌<◌, ◌≤◌, ◌++◌, length, map, All, IfOk, OnOk};
ghost use Rattle.std.specs.Arc.{arc_value};
ghost use Rattle.ut_main.specs.Parts.{first_parts};
ghost use Rattle.ut_merge.specs.Jobs.{row_of, stay_of, IsJob};
ghost use Rattle.ut_merge.specs.Places.{IsOld};
ghost use Rattle.ut_l2.specs.KeyRows.{cells_at};
ghost use Rattle.ut_merge.specs.Columns.{closed_keys, laid_keys, main_before, rebuilt_keys, staying_keys, AreCoded, IsColumn, IsRecoding};
ghost use Rattle.ut_merge.specs.Uniting.{behind, chosen_all, entries_of, IsUnited, IsUpTo};
ghost use Rattle.ut_merge.specs.Recodings.{IsMadeOf};
ghost use Rattle.ut_bits.specs.Bits.{AllBelow};
ghost use Rattle.ut_key.specs.Keys.{IsAscending};
ghost use Rattle.ut_own.specs.Own.{recoded};
ghost use Rattle.ut_recode.specs.Recode.{with_staying, HaveEntries};

use crate::gathering::{gather, sources_of};
use crate::job::Job;
use crate::keys::keys_in;
use crate::marking::mark_used;
use crate::old::Old;
use crate::seeking::{Sought, new_keys, seek};
use crate::uniting::{United, with_dict};
use std::alloc::{AllocError, Global};
use std::marker::Brand;
use std::sync::Arc;
use std::sync::ledger::{Blank, Ledger};
use std::thread::Threads;
use ut_key::{KeyList, Steps};
use ut_main::Main;
use ut_prefix::PrefixDict;
use ut_recode::recode;

/// A column's own dictionary and the codes of its rows, which count through the dictionaries that
/// stay and then its own.
#[derive(Drop)]
pub(crate) struct Coded {
    pub dict: Arc<PrefixDict>,
    pub codes: Vec<u32>,
}

/// The keys of a column's own dictionary, and where each code of before leads.
#[derive(Drop)]
struct Recoding {
    keys: KeyList,
    entries: Vec<Option<u32>>,
}

/// The new keys of the closed stage, united with the used ones of the rebuilt parts' dictionaries.
fn own_keys<R: Threads + Sync>(
    rt: &R,
    alloc: Global,
    job: &Job,
    column: u8,
    used: &[bool],
    new: &[bool],
    pieces: u32,
) -> Result<United, AllocError>
    requires column { column < job.now.width }
    requires used { length used.now ≡ length (rebuilt_keys job.now column (length job.now.parts)) }
    requires new { length new.now ≡ length (closed_keys job.now column) }
    requires pieces { (1 ≤ pieces) × (pieces ≤ 64) }
    ensures { let parts = rebuilt_keys job.now column (length job.now.parts) in
        IfOk result (λ united.
        IsUnited parts used.now (closed_keys job.now column) new.now united.keys united.parts.items united.closed.items) }
{
    let mut united = new_keys(alloc, job.closed().dict(column), new)?;
    let mut at = 0;
    for p in job.stay()..job.main().parts() {
        let dict = job.main().part(p).dict(column).keys(alloc)?;
        let end = at + dict.len();
        united = with_dict(rt, alloc, united, &dict, &used[at..end], pieces)?;
        at = end;
    }
    Ok(united)
}

/// Appends an entry for each key of the parts' dictionaries.
fn push_parts(
    start: u32,
    places: &[Option<u32>],
    entries: &mut Vec<Option<u32>>,
) -> Result<(), AllocError>
    requires start { start ≤ 2147483647 }
    requires places { All (IsUpTo 2147483647) places.now }
    ensures { OnOk result (entries.new.items ≡ entries.old.items ++ map (behind start) places.now) }
{
    for place in places {
        match place {
            Some(p) => entries.push(Some(start + *p))?,
            None => entries.push(None)?,
        }
    }
    Ok(())
}

/// Appends an entry for each key of the closed stage.
fn push_closed(
    start: u32,
    places: &[Option<u32>],
    found: &[Option<u32>],
    entries: &mut Vec<Option<u32>>,
) -> Result<(), AllocError>
    requires start { start ≤ 2147483647 }
    requires places { All (IsUpTo 2147483647) places.now }
    requires found { length found.now ≡ length places.now }
    ensures { OnOk result (entries.new.items ≡ entries.old.items ++ chosen_all start places.now found.now) }
{
    for i in 0..places.len() {
        match places[i] {
            Some(p) => entries.push(Some(start + p))?,
            None => entries.push(found[i])?,
        }
    }
    Ok(())
}

/// Where the codes lead that count through the keys of the rebuilt parts' dictionaries and those of
/// the closed stage, behind so many keys that stay.
fn entries_of(
    alloc: Global,
    start: u32,
    united: &United,
    found: &[Option<u32>],
) -> Result<Vec<Option<u32>>, AllocError>
    requires start { start ≤ 2147483647 }
    requires parts { All (IsUpTo 2147483647) united.now.parts.items }
    requires closed { All (IsUpTo 2147483647) united.now.closed.items }
    requires found { length found.now ≡ length united.now.closed.items }
    ensures { IfOk result (λ entries.
        entries.items ≡ entries_of start united.now.parts.items united.now.closed.items found.now) }
{
    let mut entries = Vec::with_capacity(alloc, united.parts.len())?;
    push_parts(start, united.parts.as_slice(), &mut entries)?;
    push_closed(start, united.closed.as_slice(), found, &mut entries)?;
    Ok(entries)
}

/// The used keys of the rebuilt parts' dictionaries and the new ones of the closed stage, as one
/// dictionary behind so many keys that stay, and where each code of before leads.
fn recoding_over<R: Threads + Sync>(
    rt: &R,
    alloc: Global,
    job: &Job,
    column: u8,
    stay: u32,
    used: &[bool],
    sought: &Sought,
    pieces: u32,
) -> Result<Recoding, AllocError>
    requires job { IsJob job.now }
    requires column { column < job.now.width }
    requires stay { stay ≡ length (staying_keys job.now column) }
    requires used { length used.now ≡ length (rebuilt_keys job.now column (length job.now.parts)) }
    requires new { length sought.now.new.items ≡ length (closed_keys job.now column) }
    requires found { length sought.now.found.items ≡ length (closed_keys job.now column) }
    requires pieces { (1 ≤ pieces) × (pieces ≤ 64) }
    ensures { IfOk result (λ recoding. IsMadeOf job.now column used.now sought.now recoding.keys recoding.entries.items) }
{
    let united = own_keys(rt, alloc, job, column, used, sought.new.as_slice(), pieces)?;
    let entries = entries_of(alloc, stay, &united, sought.found.as_slice())?;
    Ok(Recoding {
        keys: united.keys,
        entries,
    })
}

/// A column's own dictionary, and where its codes of before lead, with a counter for reading keys
/// over a new ledger.
fn recoding_of<L: Ledger, R: Threads + Sync>(
    rt: &R,
    alloc: Global,
    job: &Job,
    staying: &Main,
    column: u8,
    codes: &[u32],
    pieces: u32,
    blank: Blank,
) -> Result<Recoding, AllocError>
    requires name { blank.name ≡ L.name }
    requires parts { blank.parts ≡ L.parts }
    requires positive { 0 < blank.parts }
    requires job { IsJob job.now }
    requires column { column < job.now.width }
    requires staying { staying.now ≡ first_parts (stay_of job.now) (main_before job.now) }
    requires codes { AllBelow (length (laid_keys job.now column)) codes.now }
    requires pieces { (1 ≤ pieces) × (pieces ≤ 64) }
    ensures { IfOk result (λ recoding. IsRecoding job.now column codes.now recoding.keys recoding.entries.items) }
{
    let chain = staying.dicts(alloc, column)?;
    let closed = job.closed().dict(column);
    let rebuilt = keys_in(job.main(), column) - chain.len();
    let used = mark_used(alloc, codes, chain.len(), rebuilt + closed.len())?;
    let (used_parts, used_closed) = used.as_slice().split_at(rebuilt as usize);
    let mut steps = Steps::<L>::new(blank);
    let sought = seek(alloc, closed, used_closed, &chain, &mut steps)?;
    recoding_over(
        rt,
        alloc,
        job,
        column,
        chain.len(),
        used_parts,
        &sought,
        pieces,
    )
}

/// The codes of before of the rows at old places.
fn old_codes<R: Threads + Sync>(
    rt: &R,
    alloc: Global,
    job: &Job,
    column: u8,
    olds: &[Old],
    pieces: u32,
) -> Result<Vec<u32>, AllocError>
    requires column { column < job.now.width }
    requires olds { All (IsOld job.now) olds.now }
    requires few { length olds.now ≤ 2147483647 }
    requires pieces { 1 ≤ pieces }
    ensures { IfOk result (λ codes.
        AreCoded (laid_keys job.now column) (cells_at column (map (row_of job.now) olds.now)) codes.items) }
{
    let sources = sources_of(alloc, job, column)?;
    gather(rt, alloc, &sources, olds, pieces)
}

/// Codes led on behind so many keys that stay, and the dictionary of the keys.
fn led_on<R: Threads + Sync>(
    rt: &R,
    alloc: Global,
    start: u32,
    codes: &[u32],
    recoding: &Recoding,
    pieces: u32,
) -> Result<Coded, AllocError>
    requires count { length codes.now ≤ 2 ^ 31 }
    requires few { start + length recoding.now.keys ≤ 2147483647 }
    requires ascending { IsAscending recoding.now.keys }
    requires entries { HaveEntries (with_staying start recoding.now.entries.items) (start + length recoding.now.keys) codes.now }
    requires pieces { (1 ≤ pieces) × (pieces ≤ 64) }
    ensures { IfOk result (λ coded. (arc_value coded.dict ≡ recoding.now.keys)
        × (coded.codes.items ≡ recoded (with_staying start recoding.now.entries.items) codes.now)
        × AllBelow (start + length recoding.now.keys) coded.codes.items) }
{
    let reach = start + recoding.keys.len() as u32;
    let entries = recoding.entries.as_slice();
    let codes = recode(rt, alloc, codes, start, entries, reach, pieces)?;
    let dict = PrefixDict::from_sorted(alloc, &recoding.keys)?;
    Ok(Coded {
        dict: Arc::new(alloc, dict)?,
        codes,
    })
}

/// A column of the rows at old places.
pub(crate) fn code_column<R: Threads + Sync>(
    rt: &R,
    alloc: Global,
    job: &Job,
    staying: &Main,
    column: u8,
    olds: &[Old],
    pieces: u32,
) -> Result<Coded, AllocError>
    requires job { IsJob job.now }
    requires column { column < job.now.width }
    requires staying { staying.now ≡ first_parts (stay_of job.now) (main_before job.now) }
    requires olds { All (IsOld job.now) olds.now }
    requires few { length olds.now ≤ 2147483647 }
    requires pieces { (1 ≤ pieces) × (pieces ≤ 64) }
    ensures { IfOk result (λ coded.
        IsColumn job.now column (map (row_of job.now) olds.now) (arc_value coded.dict) coded.codes.items) }
{
    let codes = old_codes(rt, alloc, job, column, olds, pieces)?;
    let codes = codes.as_slice();
    let recoding = recoding_of::<Brand, R>(
        rt,
        alloc,
        job,
        staying,
        column,
        codes,
        pieces,
        Blank::new(1),
    )?;
    led_on(
        rt,
        alloc,
        keys_in(staying, column),
        codes,
        &recoding,
        pieces,
    )
}
