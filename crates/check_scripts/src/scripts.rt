//! Random scripts of four sessions over two tables of few keys, so that conflicts are frequent.
ghost use Rattle.std.specs.Prelude.{◌<◌};

use std::alloc::AllocError;

/// So many lines has a script.
pub const LINES: u32 = 60;

/// The first lines of each script: two tables with rows, and two open transactions.
const FIRST: [&str; 6] = [
    "1 create T k:int v:int",
    "2 create U k:int v:text",
    "1 bulk T 0 7 1 7 2 -3 3 -3",
    "2 bulk U 0 'a' 1 'b' 2 'a' 3 'b'",
    "1 begin",
    "2 begin",
];

// From here on texts that dice choose from, each as often as it comes.

const TEXTS: &[&str] = &[" 'a'", " 'b'"];

const NUMBERS: &[&str] = &[" 2", " -3"];

const COMPARISONS: &[&str] = &[" <>", " <", " <=", " >", " >=", " =", " =", " ="];

const KINDS: &[&str] = &[
    " classic", " resort", " partial", " partial", " extend", " extend", " extend", " extend",
];

const TRANSACTIONS: &[&str] = &[" abort", " commit", " commit", " begin", " begin", " begin"];

const JOINS: &[&str] = &[
    " join U v U v",
    " join T v U k",
    " join T k U k",
    " join T k U k",
];

const ANY_SAVE: &[&str] = &[
    "drop", "begin", "seal", "seal", "flip", "flip", "step 1", "step 1",
];

/// What four lines of a script do with a savepoint, and then the next four.
const NEXT_SAVE: &[&str] = &["begin", "step 9", "seal", "flip"];

/// Which statements of the store a script has.
#[derive(Clone, Copy, Debug, PartialEq, Eq)]
pub enum StoreLines {
    /// Merges of the first stage, and shapes.
    OfDelta,
    /// Merges into main of all kinds besides.
    OfMain,
    /// Savepoints besides, so many that some are selected.
    OfSaves,
}

/// Numbers that follow from a seed, by xorshift.
#[derive(Drop)]
struct Dice {
    state: u64,
}

impl Dice {
    // The dice of one line.
    fn new(seed: u64, line: u32) -> Dice {
        let mixed = seed.wrapping_mul(6364136223846793005)
            ^ u64::from(line).wrapping_mul(1442695040888963407);
        let mut dice = Dice { state: mixed | 1 };
        for _ in 0..4 {
            dice.turn();
        }
        dice
    }

    fn turn(&mut self) {
        self.state ^= self.state << 13;
        self.state ^= self.state >> 7;
        self.state ^= self.state << 17;
    }

    // A digit below `sides`.
    fn digit(&mut self, sides: u8) -> u8
        requires { 0 < sides }
        ensures { result < sides }
    {
        self.turn();
        (self.state % u64::from(sides)) as u8
    }

    // True once in so many times.
    fn is_once_in(&mut self, sides: u8) -> bool
        requires { 0 < sides }
    {
        self.digit(sides) == 0
    }
}

/// A table of the scripts. Its column `k` has numbers.
#[derive(Clone, Copy)]
enum Table {
    /// `v` has numbers.
    T,
    /// `v` has texts.
    U,
}

/// Puts a line of the script of a seed at the end of `out`.
pub fn script_line(
    lines: StoreLines,
    seed: u64,
    number: u32,
    out: &mut Vec<u8>,
) -> Result<(), AllocError> {
    if number < 6 {
        return put(out, FIRST[number as usize]);
    }
    let mut dice = Dice::new(seed, number);
    match lines {
        StoreLines::OfDelta => {
            if dice.is_once_in(8) {
                return put_delta(&mut dice, out);
            }
        }
        StoreLines::OfMain => {
            if dice.is_once_in(3) {
                return put_main(&mut dice, out);
            }
        }
        StoreLines::OfSaves => {
            if dice.is_once_in(2) {
                return put_save_or_main(&mut dice, number, out);
            }
        }
    }
    put_digit(out, 1 + dice.digit(4))?;
    match dice.digit(4) {
        0 => put_transaction(&mut dice, out),
        1 => put_question(&mut dice, out),
        _ => put_change(&mut dice, out),
    }
}

fn put(out: &mut Vec<u8>, text: &str) -> Result<(), AllocError> {
    out.extend_from_slice(text.as_bytes())
}

// Puts one of the texts of as many sides, each as often as it stands among them.
fn put_one_of(
    dice: &mut Dice,
    sides: u8,
    texts: &[&str],
    out: &mut Vec<u8>,
) -> Result<(), AllocError>
    requires { 0 < sides }
{
    let side = dice.digit(sides);
    put(out, texts.get(usize::from(side)).copied().unwrap_or(""))
}

fn put_digit(out: &mut Vec<u8>, digit: u8) -> Result<(), AllocError> {
    out.push(b'0' + digit % 10)?;
    Ok(())
}

fn any_table(dice: &mut Dice) -> Table {
    match dice.digit(2) {
        0 => Table::T,
        _ => Table::U,
    }
}

// The name of a table, now and then of one that isn't there.
fn put_table(dice: &mut Dice, table: Table, out: &mut Vec<u8>) -> Result<(), AllocError> {
    if dice.is_once_in(32) {
        return put(out, " X");
    }
    match table {
        Table::T => put(out, " T"),
        Table::U => put(out, " U"),
    }
}

// A value of the second column, now and then of the wrong kind.
fn put_value(dice: &mut Dice, table: Table, out: &mut Vec<u8>) -> Result<(), AllocError> {
    let is_right = !dice.is_once_in(32);
    let is_text = match table {
        Table::T => !is_right,
        Table::U => is_right,
    };
    put_one_of(dice, 2, if is_text { TEXTS } else { NUMBERS }, out)
}

fn put_key(dice: &mut Dice, out: &mut Vec<u8>) -> Result<(), AllocError> {
    put(out, " ")?;
    put_digit(out, dice.digit(4))
}

fn put_comparison(dice: &mut Dice, table: Table, out: &mut Vec<u8>) -> Result<(), AllocError> {
    let is_of_key = !dice.is_once_in(4);
    put(out, if is_of_key { " k" } else { " v" })?;
    put_one_of(dice, 8, COMPARISONS, out)?;
    if is_of_key {
        put_key(dice, out)
    } else {
        put_value(dice, table, out)
    }
}

// A condition of one comparison or two, or once in so many times none.
fn put_condition(
    dice: &mut Dice,
    table: Table,
    none: u8,
    out: &mut Vec<u8>,
) -> Result<(), AllocError>
    requires { 0 < none }
{
    if dice.is_once_in(none) {
        return Ok(());
    }
    put(out, " where")?;
    put_comparison(dice, table, out)?;
    if dice.is_once_in(4) {
        put(out, " and")?;
        put_comparison(dice, table, out)?;
    }
    Ok(())
}

// A merge of the first stage, or a shape.
fn put_delta(dice: &mut Dice, out: &mut Vec<u8>) -> Result<(), AllocError> {
    let table = any_table(dice);
    if dice.is_once_in(2) {
        put(out, "0 shape")?;
        return put_table(dice, table, out);
    }
    put(out, "0 merge l1")?;
    put_table(dice, table, out)?;
    put(out, " ")?;
    put_digit(out, 1 + dice.digit(3))
}

// The begin of a merge into main or its end, and now and then another line. Sessions go on between the two.
fn put_main(dice: &mut Dice, out: &mut Vec<u8>) -> Result<(), AllocError> {
    match dice.digit(8) {
        0 => put_delta(dice, out),
        1 => put_delta(dice, out),
        2 => put(out, "0 merge end"),
        3 => put(out, "0 merge end"),
        4 => put(out, "0 merge end"),
        _ => put_merge(dice, out),
    }
}

// A statement of a savepoint, or now and then one of main.
fn put_save_or_main(dice: &mut Dice, number: u32, out: &mut Vec<u8>) -> Result<(), AllocError> {
    if dice.is_once_in(4) {
        return put_main(dice, out);
    }
    put(out, "0 save ")?;
    if dice.is_once_in(4) {
        return put_any_save(dice, out);
    }
    put_next_save(number, out)
}

// Four lines of a script begin a savepoint, the next four write its pages, and so on.
fn put_next_save(number: u32, out: &mut Vec<u8>) -> Result<(), AllocError> {
    let next = number / 4 % 4;
    put(out, NEXT_SAVE.get(next as usize).copied().unwrap_or(""))
}

// A statement of a savepoint, whatever its phase.
fn put_any_save(dice: &mut Dice, out: &mut Vec<u8>) -> Result<(), AllocError> {
    put_one_of(dice, 8, ANY_SAVE, out)
}

// A merge mostly of one table and of a kind that leaves parts as they are, so that there are several.
fn put_merge(dice: &mut Dice, out: &mut Vec<u8>) -> Result<(), AllocError> {
    let table = if dice.is_once_in(4) {
        Table::U
    } else {
        Table::T
    };
    put(out, "0 merge begin")?;
    put_table(dice, table, out)?;
    put_one_of(dice, 8, KINDS, out)
}

fn put_transaction(dice: &mut Dice, out: &mut Vec<u8>) -> Result<(), AllocError> {
    put_one_of(dice, 6, TRANSACTIONS, out)
}

fn put_question(dice: &mut Dice, out: &mut Vec<u8>) -> Result<(), AllocError> {
    match dice.digit(8) {
        0 => put_join(dice, out),
        1 => put_best(dice, out),
        2 => put_sums(dice, out),
        3 => put_sums(dice, out),
        _ => put_rows_asked(dice, out),
    }
}

fn put_join(dice: &mut Dice, out: &mut Vec<u8>) -> Result<(), AllocError> {
    put_one_of(dice, 4, JOINS, out)
}

fn put_best(dice: &mut Dice, out: &mut Vec<u8>) -> Result<(), AllocError> {
    let table = any_table(dice);
    put(out, if dice.is_once_in(2) { " min" } else { " max" })?;
    put_table(dice, table, out)?;
    put(out, if dice.is_once_in(2) { " k" } else { " v" })?;
    put_condition(dice, table, 2, out)
}

// A sum or sums by group, now and then of texts.
fn put_sums(dice: &mut Dice, out: &mut Vec<u8>) -> Result<(), AllocError> {
    match dice.digit(8) {
        0 => put(out, " sum U v"),
        1 => put_sum_of(dice, Table::U, " sum U k", out),
        2 => put_sum_of(dice, Table::U, " group U v sum k", out),
        3 => put_sum_of(dice, Table::T, " sum T k", out),
        4 => put_sum_of(dice, Table::T, " sum T v", out),
        _ => put_sum_of(dice, Table::T, " group T k sum v", out),
    }
}

fn put_sum_of(
    dice: &mut Dice,
    table: Table,
    text: &str,
    out: &mut Vec<u8>,
) -> Result<(), AllocError> {
    put(out, text)?;
    put_condition(dice, table, 2, out)
}

fn put_rows_asked(dice: &mut Dice, out: &mut Vec<u8>) -> Result<(), AllocError> {
    let table = any_table(dice);
    let columns = dice.digit(4);
    put(out, if columns == 0 { " count" } else { " select" })?;
    put_table(dice, table, out)?;
    match columns {
        0 => {}
        1 => put(out, " v k")?,
        _ => put(out, " *")?,
    }
    put_condition(dice, table, 2, out)
}

fn put_change(dice: &mut Dice, out: &mut Vec<u8>) -> Result<(), AllocError> {
    let table = any_table(dice);
    match dice.digit(8) {
        0 => put_rows(dice, table, 1, out),
        1 => put_rows(dice, table, 1, out),
        2 => put_rows(dice, table, 2, out),
        3 => put_delete(dice, table, out),
        4 => put_delete(dice, table, out),
        _ => put_update(dice, table, out),
    }
}

// One row is inserted, more are loaded.
fn put_rows(dice: &mut Dice, table: Table, rows: u8, out: &mut Vec<u8>) -> Result<(), AllocError> {
    put(out, if rows == 1 { " insert" } else { " bulk" })?;
    put_table(dice, table, out)?;
    for _ in 0..rows {
        put_key(dice, out)?;
        put_value(dice, table, out)?;
    }
    Ok(())
}

fn put_delete(dice: &mut Dice, table: Table, out: &mut Vec<u8>) -> Result<(), AllocError> {
    put(out, " delete")?;
    put_table(dice, table, out)?;
    put_condition(dice, table, 16, out)
}

fn put_update(dice: &mut Dice, table: Table, out: &mut Vec<u8>) -> Result<(), AllocError> {
    put(out, " update")?;
    put_table(dice, table, out)?;
    if dice.is_once_in(2) {
        put(out, " set k")?;
        put_key(dice, out)?;
    } else {
        put(out, " set v")?;
        put_value(dice, table, out)?;
    }
    put_condition(dice, table, 8, out)
}
