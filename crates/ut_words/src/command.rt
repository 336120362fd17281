//! The command, as `clap` is told of it.
ghost use Rattle.std.specs.Prelude.{◌≡◌, IfOk, codes, false};
ghost use Rattle.clap.specs.Words.{app_of, rule_of, with_rule};
ghost use Rattle.ut_words.specs.Command.{IsCommand, AreModes, choice_rule, flag_rule, number_rule};

use clap::{Arg, ArgAction, Command, value_parser};
use std::alloc::{AllocError, Global};

static MODES: [&str; 3] = ["run", "crowd", "bench"];

/// The numbers that an option takes.
#[derive(Clone, Copy)]
pub(crate) struct Limits {
    pub least: u32,
    pub most: u32,
}

pub(crate) const ROWS: Limits = Limits {
    least: 1,
    most: 1 << 31,
};

pub(crate) const LINES: Limits = Limits {
    least: 1,
    most: 1 << 20,
};

pub(crate) const L1: Limits = Limits {
    least: 1,
    most: 1 << 20,
};

pub(crate) const PIECES: Limits = Limits { least: 1, most: 64 };

pub(crate) const SEED: Limits = Limits {
    least: 0,
    most: 1 << 31,
};

pub(crate) const SIZE: Limits = Limits {
    least: 1,
    most: 500,
};

/// The command with all its arguments.
pub(crate) fn command<'a>(alloc: Global) -> Result<Command<'a>, AllocError>
    ensures { IfOk result (λ c. IsCommand (app_of c)) }
{
    let command = Command::new(alloc, "ut_app")
        .arg(mode_arg(alloc))?
        .arg(flag_arg(alloc, "new"))?;
    let command = with_number(alloc, command, "rows", "2147483648", ROWS)?;
    let command = with_number(alloc, command, "lines", "1048576", LINES)?;
    let command = with_number(alloc, command, "l1", "64", L1)?;
    let command = with_number(alloc, command, "pieces", "4", PIECES)?;
    let command = with_number(alloc, command, "seed", "1", SEED)?;
    with_number(alloc, command, "size", "100", SIZE)
}

fn mode_arg<'a>(alloc: Global) -> Arg<'a>
    ensures rule { (modes : _) × AreModes modes × (rule_of result ≡ choice_rule (codes "MODE") modes) }
    ensures local { result.global ≡ false }
{
    Arg::new(alloc, "MODE")
        .required(true)
        .action(ArgAction::Set)
        .value_parser(MODES.as_slice())
}

fn flag_arg<'a>(alloc: Global, name: &'a str) -> Arg<'a>
    ensures rule { rule_of result ≡ flag_rule name.entry.now }
    ensures local { result.global ≡ false }
{
    Arg::new(alloc, name).long(name).action(ArgAction::SetTrue)
}

// The command with one more option, which takes a number.
fn with_number<'a>(
    alloc: Global,
    command: Command<'a>,
    name: &'a str,
    default: &'a str,
    limits: Limits,
) -> Result<Command<'a>, AllocError>
    ensures { IfOk result (λ c.
        app_of c ≡ with_rule (app_of command.entry) (number_rule name.entry.now default.entry.now limits.least limits.most)) }
{
    command.arg(number_arg(alloc, name, default, limits))
}

fn number_arg<'a>(alloc: Global, name: &'a str, default: &'a str, limits: Limits) -> Arg<'a>
    ensures rule { rule_of result ≡ number_rule name.entry.now default.entry.now limits.least limits.most }
    ensures local { result.global ≡ false }
{
    let numbers = i64::from(limits.least)..=i64::from(limits.most);
    Arg::new(alloc, name)
        .long(name)
        .action(ArgAction::Set)
        .default_value(default)
        .value_parser(value_parser!(u32).range(numbers))
}
