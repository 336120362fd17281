//! What the store asks of its own accord: merges of each kind, by the number of rows in the words, and savepoints to their end.
use crate::facts::holds;
use check_books::books::outcome_of;
use check_books::runs::{Crowd, run_watched};
use std::alloc::{AllocError, Global};
use std::process::Abort;
use std::sync::Wait;
use std::sync::atomic::AtomicU64;
use std::sync::atomic::Ordering::SeqCst;
use std::thread::{Threads, yield_now};
use ut_app::Status;
use ut_outside::{Hook, Point};

/// So many times a session that is held looks.
const PATIENCE: u32 = 1_000_000;

/// So many rows are inserted.
const ROWS: u32 = 120;

/// Holds a session behind each line until the merger has built what the lines before give it to build, with so many rows a merge.
struct Pace {
    rows: u64,
    lines: AtomicU64,
    builds: AtomicU64,
}

// One step of a proof, wherever one is dropped.
impl Drop for Pace {
    fn drop(self) {
        let Pace {
            rows: _,
            lines: _,
            builds: _,
        } = self;
    }
}

impl Pace {
    fn new(rows: u64) -> Pace {
        Pace {
            rows,
            lines: AtomicU64::new(0),
            builds: AtomicU64::new(0),
        }
    }

    fn until(&self, builds: u64) {
        for _ in 0..PATIENCE {
            if self.builds.load(SeqCst) >= builds {
                return;
            }
            yield_now();
        }
    }
}

impl Hook for Pace {
    fn reach(&self, point: Point) {
        match point {
            Point::LineDone => {
                let lines = self.lines.fetch_add(1, SeqCst);
                let behind = lines.saturating_sub(self.rows.saturating_mul(2));
                self.until(behind.checked_div(self.rows).unwrap_or(0));
            }
            Point::BuildDone => {
                self.builds.fetch_add(1, SeqCst);
            }
            Point::JobTaken => {}
        }
    }
}

/// One session makes a table and fills it, a row a line.
fn of_rows(alloc: Global) -> Result<Vec<u8>, AllocError> {
    let mut lines = Vec::from_slice(alloc, b"1 create T k:int\n")?;
    for row in 0..ROWS {
        let line = format!(in alloc; "1 insert T {row}\n")?;
        lines.extend_from_slice(line.as_bytes())?;
    }
    Ok(lines)
}

/// Such a crowd, whose merges take so many rows.
fn paced(rt: &(impl Threads + Wait + Sync), alloc: Global, rows: u64) -> Result<Crowd, AllocError> {
    let number = format!(in alloc; "{rows}")?;
    let words = &["ut", "crowd", "--new", "--l1", number.as_str()];
    let lines = of_rows(alloc)?;
    run_watched(rt, alloc, words, &lines, &Pace::new(rows))
}

/// Such a crowd, whose book is one history.
fn crowd_by(
    rt: &(impl Abort + Threads + Wait + Sync),
    alloc: Global,
    rows: u64,
) -> Result<Crowd, AllocError> {
    let crowd = paced(rt, alloc, rows)?;
    holds(rt, crowd.came.status == Status::Done);
    holds(rt, outcome_of(alloc, &crowd.came.book, 0)?.is_some());
    Ok(crowd)
}

/// How many lines of a book begin so.
pub(crate) fn lines_with(book: &[u8], front: &[u8]) -> usize {
    let mut lines: usize = 0;
    for line in book.split(|byte| *byte == b'\n') {
        if line.starts_with(front) {
            lines = lines.saturating_add(1);
        }
    }
    lines
}

/// So many lines of a book, or of what is told else, begin so.
pub(crate) fn check_lines(rt: &impl Abort, book: &[u8], told: &[(&[u8], usize)]) {
    for (front, lines) in told {
        holds(rt, lines_with(book, front) == *lines);
    }
}

/// What lines of a book begin with that ask for merges of these kinds.
const ASKED: [&[u8]; 3] = [
    b"> 0 merge begin T classic",
    b"> 0 merge begin T partial",
    b"> 0 merge begin T resort",
];

#[test]
fn each_kind_of_merge_is_asked(rt: HostRuntime) -> Result<(), AllocError> {
    let crowd = crowd_by(&rt, rt.alloc(), 8)?;
    for front in &ASKED {
        holds(&rt, lines_with(&crowd.came.book, front) > 0);
    }
    holds(
        &rt,
        lines_with(&crowd.came.book, b"> 0 merge begin T extend") == 0,
    );
    Ok(())
}

#[test]
fn a_savepoint_is_selected(rt: HostRuntime) -> Result<(), AllocError> {
    let crowd = crowd_by(&rt, rt.alloc(), 8)?;
    holds(&rt, lines_with(&crowd.came.book, b"0 ok root ") > 0);
    Ok(())
}

/// Rows move by the number in the words, and by no other.
fn check_moves(rt: &impl Abort, alloc: Global, book: &[u8], rows: u64) -> Result<(), AllocError> {
    let asked = format!(in alloc; "> 0 merge l1 T {rows}")?;
    let moves = lines_with(book, asked.as_bytes());
    holds(rt, moves > 0);
    holds(rt, moves == lines_with(book, b"> 0 merge l1 "));
    Ok(())
}

#[test]
fn rows_move_by_the_number_in_the_words(rt: HostRuntime) -> Result<(), AllocError> {
    for rows in [3, 8, 20] {
        let crowd = crowd_by(&rt, rt.alloc(), rows)?;
        check_moves(&rt, rt.alloc(), &crowd.came.book, rows)?;
    }
    Ok(())
}
