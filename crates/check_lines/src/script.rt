//! Lines of the benchmark's script as another program wrote them, and the plan of some words.
use std::alloc::AllocError;
use std::process::Abort;
use ut_gen::{Script, script_len, script_line};
use ut_value::same_bytes;
use ut_words::{Mode, Plan, WordsError, plan_of};

/// A line, by seed, size and number.
struct Case {
    seed: u64,
    size: u32,
    number: u32,
    line: &'static [u8],
}

const CASES: [Case; 6] = [
    Case {
        seed: 1,
        size: 1,
        number: 10,
        line: b"1 insert sales 201 323 'south' 'p29' 2 3144 0 ''",
    },
    Case {
        seed: 1,
        size: 1,
        number: 30,
        line: b"1 insert sales 220 212 'east' 'p243' 12 2717 0 ''",
    },
    Case {
        seed: 1,
        size: 1,
        number: 34,
        line: b"1 update sales set qty 20 where id = 56",
    },
    Case {
        seed: 1,
        size: 1,
        number: 44,
        line: b"0 merge begin sales resort",
    },
    Case {
        seed: u64::MAX,
        size: 2,
        number: 11,
        line: b"1 insert sales 401 275 'north' 'p120' 6 9001 1 ''",
    },
    Case {
        seed: u64::MAX,
        size: 2,
        number: 57,
        line: b"1 update sales set qty 18 where id = 315",
    },
];

fn has_line(rt: &impl Abort, case: &Case, out: &mut Vec<u8>) -> Result<(), AllocError> {
    assert!(rt; case.size <= 500);
    let is_there = script_line(case.seed, case.size, case.number, out)?;
    assert!(rt;
        is_there && same_bytes(out, case.line),
        "line {}",
        case.number
    );
    let is_more = script_line(case.seed, case.size, script_len(case.size), out)?;
    assert!(rt; !is_more);
    Ok(())
}

#[test]
fn lines_are_found_by_number(rt: HostRuntime) -> Result<(), AllocError> {
    for case in &CASES {
        let mut out = Vec::new(rt.alloc());
        has_line(&rt, case, &mut out)?;
    }
    Ok(())
}

/// The lines of seed 1 and size 1, each with its end, make this sum of `31 * sum + byte` modulo 2^32.
const SUM: u32 = 2313118540;

fn put_line(rt: &impl Abort, script: &mut Script, out: &mut Vec<u8>) -> Result<(), AllocError> {
    assert!(rt; script.next_line(out)?);
    out.push(b'\n')?;
    Ok(())
}

fn put_lines(rt: &impl Abort, out: &mut Vec<u8>) -> Result<(), AllocError> {
    let mut script = Script::new(1, 1);
    for _ in 0..50 {
        put_line(rt, &mut script, out)?;
    }
    assert!(rt; !script.next_line(out)?);
    Ok(())
}

fn sum_of(bytes: &[u8]) -> u32 {
    let mut sum = 0u32;
    for byte in bytes {
        sum = sum.wrapping_mul(31).wrapping_add(u32::from(*byte));
    }
    sum
}

#[test]
fn all_lines_come_in_order(rt: HostRuntime) -> Result<(), AllocError> {
    let mut out = Vec::new(rt.alloc());
    put_lines(&rt, &mut out)?;
    assert!(rt; sum_of(&out) == SUM);
    Ok(())
}

const DEFAULTS: Plan = Plan {
    mode: Mode::Run,
    fresh: false,
    rows: 1 << 31,
    lines: 1 << 20,
    l1: 64,
    pieces: 4,
    seed: 1,
    size: 100,
};

const ALL: Plan = Plan {
    mode: Mode::Bench,
    fresh: true,
    rows: 7,
    lines: 1 << 20,
    l1: 1,
    pieces: 64,
    seed: 0,
    size: 500,
};

/// Words, the program's name left out, and the plan that they say.
struct Row {
    words: &'static [&'static str],
    plan: Result<Plan, WordsError>,
}

const ROWS: [Row; 6] = [
    Row {
        words: &["ut_app", "run"],
        plan: Ok(DEFAULTS),
    },
    Row {
        words: &[
            "ut_app",
            "--new",
            "--rows=+007",
            "--l1",
            "1",
            "--pieces",
            "64",
            "--seed",
            "0",
            "--size=500",
            "--",
            "bench",
        ],
        plan: Ok(ALL),
    },
    Row {
        words: &["ut_app"],
        plan: Err(WordsError::Usage),
    },
    Row {
        words: &["ut_app", "run", "--help"],
        plan: Err(WordsError::Usage),
    },
    Row {
        words: &["ut_app", "run", "--new", "--new"],
        plan: Err(WordsError::Usage),
    },
    Row {
        words: &["ut_app", "run", "--pieces", "65"],
        plan: Err(WordsError::Usage),
    },
];

#[test]
fn words_say_their_plan(rt: HostRuntime) {
    for row in &ROWS {
        assert!(rt;
            plan_of(rt.alloc(), row.words) == row.plan,
            "{:?}",
            row.words
        );
    }
}
