//! Times looking up keys.
ghost use Rattle.std.specs.Prelude.{◌≡◌, ◌<◌};

use crate::keys::{int_keys, text_keys};
use crate::watch::say;
use anyhow::Result;
use std::alloc::Global;
use std::rt::Clock;
use std::sync::ledger::{Blank, Ledger};
use std::time::Instant;
use ut_key::{KeyList, Steps, is_ascending};
use ut_prefix::PrefixDict;

// The sum of the codes of all keys, which are looked up in another order than theirs.
fn sum<L: Ledger>(dict: &PrefixDict, keys: &KeyList, steps: &mut Steps<L>) -> u64 {
    let mut sum = 0u64;
    let count = keys.len() as u64;
    for i in 0..count {
        let place = i.wrapping_mul(2_654_435_761) % count;
        match dict.find(keys.key(place as usize), steps) {
            Some(code) => sum = sum.wrapping_add(u64::from(code) ^ i),
            None => {}
        }
    }
    sum
}

fn time_finding<R: Print + Eprint + Clock, L: Ledger>(
    rt: &R,
    subject: &str,
    dict: &PrefixDict,
    keys: &KeyList,
    steps: &mut Steps<L>,
) -> Result<()> {
    let start = Instant::now(rt)?;
    let sum = sum(dict, keys, steps);
    say(rt, subject, "find", start, sum)
}

// Times making a dictionary and looking up its keys.
fn time_calls<R: Print + Eprint + Clock, L: Ledger>(
    rt: &R,
    alloc: Global,
    subject: &str,
    keys: &KeyList,
    steps: &mut Steps<L>,
) -> Result<()> {
    if !is_ascending(keys) || keys.len() >= 1 << 31 {
        return Ok(());
    }
    let start = Instant::now(rt)?;
    let dict = PrefixDict::from_sorted(alloc, keys)?;
    say(rt, subject, "from_sorted", start, u64::from(dict.len()))?;
    time_finding(rt, subject, &dict, keys, steps)
}

/// Times the calls at so many keys of numbers, and of texts.
pub(crate) fn time_all<R: Print + Eprint + Clock, L: Ledger>(
    rt: &R,
    alloc: Global,
    count: u32,
    blank: Blank,
) -> Result<()>
    requires name { blank.name ≡ L.name }
    requires parts { blank.parts ≡ L.parts }
    requires positive { 0 < blank.parts }
{
    let mut steps = Steps::<L>::new(blank);
    time_calls(rt, alloc, "int", &int_keys(alloc, count)?, &mut steps)?;
    time_calls(rt, alloc, "text", &text_keys(alloc, count)?, &mut steps)
}
