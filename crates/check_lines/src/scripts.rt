//! What random scripts are made of, and what they meet on the slow store.
use check_oracle::Oracle;
use check_scripts::{Answers, LINES, StoreLines, first_apart, script_line};
use std::alloc::{AllocError, Global};
use std::process::Abort;
use ut_plain::Parsed;
use ut_script::parse_line;

/// Ids enough for any script.
const AMPLE: u32 = 1000;

/// So many scripts are looked at.
const SCRIPTS: u64 = 16;

/// What the lines of the scripts must have, and how often in all of them at least.
const WORDS: [(&str, usize); 24] = [
    (" begin", 40),
    (" commit", 40),
    (" abort", 20),
    (" insert", 40),
    (" bulk", 20),
    (" update", 60),
    (" delete", 40),
    (" select", 30),
    (" count", 8),
    (" sum T", 8),
    (" sum U", 8),
    (" min", 5),
    (" max", 5),
    (" group", 10),
    (" join", 12),
    ("0 shape", 20),
    ("0 merge l1", 20),
    (" and ", 30),
    (" = ", 60),
    (" <> ", 20),
    (" < ", 20),
    (" <= ", 20),
    (" > ", 20),
    (" >= ", 20),
];

/// What the lines of those with merges into main must have.
const WORDS_OF_MAIN: [(&str, usize); 9] = [
    ("0 merge begin T", 60),
    ("0 merge begin U", 20),
    ("0 merge end", 80),
    (" classic", 8),
    (" resort", 10),
    (" partial", 20),
    (" extend", 40),
    ("0 merge l1", 20),
    ("0 shape", 20),
];

/// What the lines of those with savepoints must have.
const WORDS_OF_SAVES: [(&str, usize); 8] = [
    ("0 save begin", 40),
    ("0 save step 1", 12),
    ("0 save step 9", 40),
    ("0 save seal", 40),
    ("0 save flip", 40),
    ("0 save drop", 4),
    ("0 merge begin", 20),
    ("0 merge end", 20),
];

/// What they must be answered, and how often at least.
const ANSWERS: [(&str, usize); 8] = [
    (" refused conflict", 30),
    (" refused name", 8),
    (" refused type", 8),
    (" refused open", 20),
    (" refused closed", 20),
    (" ok commit", 30),
    (" ok 0", 30),
    (" ok 1 commit", 40),
];

/// What those with merges into main must be answered: a closed stage, several parts, and the refusals of merges.
const ANSWERS_OF_MAIN: [(&str, usize); 6] = [
    (" refused busy", 30),
    (" refused none", 30),
    (" refused conflict", 25),
    (" ok commit", 25),
    (" closed 4", 5),
    (" parts 4 ", 2),
];

/// What those with savepoints must be answered: roots, pages of parts, and the refusals of savepoints.
const ANSWERS_OF_SAVES: [(&str, usize); 11] = [
    (" ok root", 6),
    (" ok sealed", 10),
    (" of 1\n", 10),
    (" of 2\n", 4),
    (" refused saving", 5),
    (" refused written", 5),
    (" refused unwritten", 5),
    (" refused sealed", 5),
    (" refused unsealed", 5),
    (" refused conflict", 15),
    (" ok commit", 20),
];

/// How often questions of a transaction must be answered otherwise than outside one.
const VIEWS_APART: usize = 15;

/// What scripts must have, and how often in all of them at least.
#[derive(Clone, Copy)]
struct Wanted {
    of_store: StoreLines,
    words: &'static [(&'static str, usize)],
    answers: &'static [(&'static str, usize)],
}

const WANTED: [Wanted; 3] = [
    Wanted {
        of_store: StoreLines::OfDelta,
        words: &WORDS,
        answers: &ANSWERS,
    },
    Wanted {
        of_store: StoreLines::OfMain,
        words: &WORDS_OF_MAIN,
        answers: &ANSWERS_OF_MAIN,
    },
    Wanted {
        of_store: StoreLines::OfSaves,
        words: &WORDS_OF_SAVES,
        answers: &ANSWERS_OF_SAVES,
    },
];

// The line of a number of the script of a seed.
fn line_of(
    alloc: Global,
    of_store: StoreLines,
    seed: u64,
    number: u32,
) -> Result<Vec<u8>, AllocError> {
    let mut line = Vec::new(alloc);
    script_line(of_store, seed, number, &mut line)?;
    Ok(line)
}

fn answer_to(alloc: Global, store: &mut Oracle, line: &[u8]) -> Result<Vec<u8>, AllocError> {
    let mut answer = Vec::new(alloc);
    store.answer(alloc, line, &mut answer)?;
    Ok(answer)
}

fn has(bytes: &[u8], text: &str) -> bool {
    let word = text.as_bytes();
    for at in 0..bytes.len() {
        if bytes[at..].starts_with(word) {
            return true;
        }
    }
    false
}

fn counted(texts: &[Vec<u8>], word: &str) -> usize {
    texts
        .iter()
        .filter(|text| has(text.as_slice(), word))
        .count()
}

// Whether texts have each word so often.
fn check_counts(rt: &impl Abort, of_store: StoreLines, texts: &[Vec<u8>], words: &[(&str, usize)]) {
    for (word, least) in words {
        let count = counted(texts, word);
        assert!(rt; count >= *least, "{of_store:?}, {word}: {count} times");
    }
}

// Whether a line is of the grammar.
fn is_good(alloc: Global, line: &[u8]) -> bool {
    let parsed = parse_line(alloc, line, false);
    let is_good = matches!(&parsed, Ok(Parsed::Good(_, _)));
    drop(parsed);
    is_good
}

fn check_grammar(rt: &impl Abort, alloc: Global, of_store: StoreLines) -> Result<(), AllocError> {
    for seed in 0..SCRIPTS {
        for number in 0..LINES {
            let line = line_of(alloc, of_store, seed, number)?;
            let is_good = is_good(alloc, &line);
            assert!(rt; is_good, "{of_store:?}, seed {seed}, line {number}");
        }
    }
    Ok(())
}

#[test]
fn scripts_are_lines_of_the_grammar(rt: HostRuntime) -> Result<(), AllocError> {
    for wanted in WANTED {
        check_grammar(&rt, rt.alloc(), wanted.of_store)?;
    }
    Ok(())
}

/// Two stores that are alike.
#[derive(Drop)]
struct Two {
    one: Oracle,
    other: Oracle,
}

fn alike(alloc: Global) -> Result<Two, AllocError> {
    Ok(Two {
        one: Oracle::new(alloc, AMPLE)?,
        other: Oracle::new(alloc, AMPLE)?,
    })
}

fn answer_alike(rt: &impl Abort, alloc: Global, two: &mut Two) -> Result<(), AllocError> {
    let apart = first_apart(alloc, &mut two.one, &mut two.other, StoreLines::OfSaves, 7)?;
    assert!(rt; apart.is_none());
    Ok(())
}

#[test]
fn alike_stores_answer_alike(rt: HostRuntime) -> Result<(), AllocError> {
    let mut two = alike(rt.alloc())?;
    let answered = answer_alike(&rt, rt.alloc(), &mut two);
    drop(two);
    answered
}

// All lines of the scripts but the first ones.
fn all_lines(alloc: Global, of_store: StoreLines) -> Result<Vec<Vec<u8>>, AllocError> {
    let mut all = Vec::new(alloc);
    for seed in 0..SCRIPTS {
        for number in 6..LINES {
            all.push(line_of(alloc, of_store, seed, number)?)?;
        }
    }
    Ok(all)
}

#[test]
fn scripts_have_each_statement_and_comparison(rt: HostRuntime) -> Result<(), AllocError> {
    for wanted in WANTED {
        let lines = all_lines(rt.alloc(), wanted.of_store)?;
        check_counts(&rt, wanted.of_store, lines.as_slice(), wanted.words);
    }
    Ok(())
}

/// What the scripts are answered by the slow store, and how often a question of a transaction is answered otherwise than
/// outside one.
#[derive(Drop)]
struct Met {
    store: Oracle,
    answers: Vec<Vec<u8>>,
    apart: usize,
}

impl Met {
    fn new(alloc: Global) -> Result<Met, AllocError> {
        Ok(Met {
            store: Oracle::new(alloc, AMPLE)?,
            answers: Vec::new(alloc),
            apart: 0,
        })
    }

    fn begin(&mut self, alloc: Global) -> Result<(), AllocError> {
        self.store = Oracle::new(alloc, AMPLE)?;
        Ok(())
    }

    fn meet(&mut self, alloc: Global, line: &[u8]) -> Result<(), AllocError> {
        if is_seen_apart(alloc, &mut self.store, line)? {
            self.apart = self.apart.saturating_add(1);
        }
        let answer = answer_to(alloc, &mut self.store, line)?;
        self.answers.push(answer)?;
        Ok(())
    }
}

fn met_in(alloc: Global, met: &mut Met, of_store: StoreLines, seed: u64) -> Result<(), AllocError> {
    met.begin(alloc)?;
    for number in 0..LINES {
        let line = line_of(alloc, of_store, seed, number)?;
        met.meet(alloc, &line)?;
    }
    Ok(())
}

fn met_by(alloc: Global, of_store: StoreLines) -> Result<Met, AllocError> {
    let mut met = Met::new(alloc)?;
    for seed in 0..SCRIPTS {
        met_in(alloc, &mut met, of_store, seed)?;
    }
    Ok(met)
}

#[test]
fn scripts_meet_conflicts_snapshots_merges_and_savepoints(
    rt: HostRuntime,
) -> Result<(), AllocError> {
    for wanted in WANTED {
        let met = met_by(rt.alloc(), wanted.of_store)?;
        check_counts(&rt, wanted.of_store, met.answers.as_slice(), wanted.answers);
        let apart = met.apart;
        drop(met);
        assert!(rt;
            apart >= VIEWS_APART,
            "{:?}: {apart} times",
            wanted.of_store
        );
    }
    Ok(())
}

// The same line of a session that is in no transaction.
fn as_outside(alloc: Global, line: &[u8]) -> Result<Vec<u8>, AllocError> {
    let mut other = Vec::new(alloc);
    other.push(b'9')?;
    other.extend_from_slice(line.get(1..).unwrap_or(&[]))?;
    Ok(other)
}

// Whether a line is a question whose session sees other rows than one outside a transaction.
fn is_seen_apart(alloc: Global, store: &mut Oracle, line: &[u8]) -> Result<bool, AllocError> {
    let is_question = has(line, " select") || has(line, " join") || has(line, " group");
    if !is_question {
        return Ok(false);
    }
    let inside = answer_to(alloc, store, line)?;
    let outside = answer_to(alloc, store, &as_outside(alloc, line)?)?;
    Ok(inside.get(1..) != outside.get(1..))
}
