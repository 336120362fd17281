//! Times code vectors and dictionaries.
//!
//! `bench_codes [codes keys]` writes a line for each call to standard output, with a number that
//! depends on what it answered, and a line with its time to standard error. Without arguments
//! it works on few codes and keys.
#![tactic(auto)]

ghost use Rattle.std.specs.Prelude.{◌≤◌, IfOk};

mod draws;
mod keys;
mod lookups;
mod vectors;
mod watch;

use crate::draws::Pattern;
use anyhow::Result;
use std::env;
use std::marker::Brand;
use std::sync::ledger::Blank;

/// How many codes and keys are worked on.
#[derive(Clone, Copy)]
struct Sizes {
    codes: u32,
    keys: u32,
}

const FEW: Sizes = Sizes {
    codes: 1000,
    keys: 100,
};

const MOST: u32 = 100_000_000;

// The number that an argument gives, where it is there and not too great.
fn number(argument: Option<String>, else_this: u32) -> Result<u32>
    requires { else_this ≤ MOST }
    ensures { IfOk result (λ number. number ≤ MOST) }
{
    match argument {
        Some(text) => Ok(text.as_str().parse::<u32>()?.min(MOST)),
        None => Ok(else_this),
    }
}

fn sizes_of(rt: &HostRuntime) -> Result<Sizes>
    ensures { IfOk result (λ sizes. sizes.codes ≤ MOST) }
{
    let mut arguments = env::args(rt)?;
    let _name = arguments.next();
    Ok(Sizes {
        codes: number(arguments.next(), FEW.codes)?,
        keys: number(arguments.next(), FEW.keys)?,
    })
}

fn main(rt: HostRuntime) -> Result<()> {
    let alloc = rt.alloc();
    let sizes = sizes_of(&rt)?;
    for (name, reach) in [
        ("width_1", 1 << 1),
        ("width_4", 1 << 4),
        ("width_9", 1 << 9),
        ("width_17", 1 << 17),
        ("width_32", u32::MAX),
    ] {
        vectors::time_all(&rt, alloc, name, Pattern::Mixed, sizes.codes, reach)?;
    }
    vectors::time_all(&rt, alloc, "runs", Pattern::Repeated, sizes.codes, 1 << 9)?;
    vectors::time_all(&rt, alloc, "sparse", Pattern::Rare, sizes.codes, 1 << 9)?;
    let reach = sizes.codes.max(1);
    vectors::time_all(
        &rt,
        alloc,
        "ascending",
        Pattern::Ascending,
        sizes.codes,
        reach,
    )?;
    lookups::time_all::<_, Brand>(&rt, alloc, sizes.keys, Blank::new(1))
}
