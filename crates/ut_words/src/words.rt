//! Reads the words.
ghost use Rattle.std.specs.Prelude.{◌≡◌, ◌≤◌, map, IfOk, IsErrOf, codes};
ghost use Rattle.clap.specs.Words.{found_of, first_value};
ghost use Rattle.ut_words.specs.Plans.{Takes, Refuses, IsInRange, says_true};
ghost use Rattle.ut_words.specs.Reading.{HasNumber, IsNumber, mode_of};

use crate::command::{L1, LINES, Limits, PIECES, ROWS, SEED, SIZE, command};
use crate::{Mode, Plan, WordsError};
use clap::ArgMatches;
use std::alloc::Global;

/// What the words ask for, the program's name first. They are refused exactly where the definition of
/// the command refuses them, a question for help included.
pub fn plan_of<'a>(alloc: Global, words: &'a [&'a str]) -> Result<Plan, WordsError>
    ensures taken { IfOk result (λ plan. Takes (map (λ w. w.now) words.now) plan) }
    ensures range { IfOk result IsInRange }
    ensures refused { IsErrOf result WordsError.Usage → Refuses (map (λ w. w.now) words.now) }
{
    let matches = command(alloc)?.try_get_matches_from(words)?;
    Ok(Plan {
        mode: mode_of(&matches),
        fresh: says_true(&matches, "new"),
        rows: number(&matches, "rows", ROWS),
        lines: number(&matches, "lines", LINES),
        l1: number(&matches, "l1", L1),
        pieces: number(&matches, "pieces", PIECES),
        seed: number(&matches, "seed", SEED),
        size: number(&matches, "size", SIZE),
    })
}

fn mode_of(matches: &ArgMatches<'_>) -> Mode
    ensures { result ≡ mode_of (first_value (found_of matches.now) (codes "MODE")) }
{
    match matches.get_str("MODE") {
        Some("crowd") => Mode::Crowd,
        Some("bench") => Mode::Bench,
        _ => Mode::Run,
    }
}

fn says_true(matches: &ArgMatches<'_>, name: &str) -> bool
    ensures { result ≡ says_true (first_value (found_of matches.now) name.now) }
{
    match matches.get_str(name) {
        Some(text) => text == "true",
        None => false,
    }
}

fn number(matches: &ArgMatches<'_>, name: &str, limits: Limits) -> u32
    requires { HasNumber (found_of matches.now) name.now limits.least limits.most }
    ensures low { limits.least ≤ result }
    ensures high { result ≤ limits.most }
    ensures says { IsNumber (found_of matches.now) name.now result }
{
    matches.get_one::<u32>(name).unwrap()
}
