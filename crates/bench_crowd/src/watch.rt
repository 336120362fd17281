//! A hook that notes how long no line was answered.
use anyhow::Result;
use std::rt::Clock;
use std::sync::atomic::AtomicU64;
use std::sync::atomic::Ordering::SeqCst;
use std::time::Instant;
use ut_outside::{Hook, Point};

/// Times in nanoseconds since the watch began. A gap is the time from one answered line to the next. While a merge is built it
/// begins with the build at the earliest, so that the turns of the merge's own begin and end are in none of these.
pub(crate) struct Watch<'a, R> {
    rt: &'a R,
    start: Instant,
    /// When the last line was answered, and when the build began that is under way; 0 where none is.
    answered: AtomicU64,
    began: AtomicU64,
    lines: AtomicU64,
    builds: AtomicU64,
    /// Lines that were answered while a merge was built, and behind the last build; and the time of all builds.
    lines_in_builds: AtomicU64,
    lines_behind: AtomicU64,
    building: AtomicU64,
    /// The longest gaps, and how many in builds were longer than the limit.
    longest_in_builds: AtomicU64,
    longest: AtomicU64,
    over: AtomicU64,
}

// A drop of its own is one step of a proof wherever one is dropped. A derived one is a step for each part, at each place.
impl<'a, R> Drop for Watch<'a, R> {
    fn drop(self) {
        let Watch {
            rt: _,
            start: _,
            answered: _,
            began: _,
            lines: _,
            builds: _,
            lines_in_builds: _,
            lines_behind: _,
            building: _,
            longest_in_builds: _,
            longest: _,
            over: _,
        } = self;
    }
}

/// A gap in a build that is longer is counted: 50 milliseconds.
const LIMIT: u64 = 50_000_000;

impl<'a, R: Clock> Watch<'a, R> {
    pub fn new(rt: &'a R) -> Result<Watch<'a, R>> {
        Ok(Watch {
            rt,
            start: Instant::now(rt)?,
            answered: AtomicU64::new(0),
            began: AtomicU64::new(0),
            lines: AtomicU64::new(0),
            builds: AtomicU64::new(0),
            lines_in_builds: AtomicU64::new(0),
            lines_behind: AtomicU64::new(0),
            building: AtomicU64::new(0),
            longest_in_builds: AtomicU64::new(0),
            longest: AtomicU64::new(0),
            over: AtomicU64::new(0),
        })
    }

    // The time since the watch began, and never 0.
    fn now(&self) -> u64 {
        match self.start.elapsed(self.rt) {
            Ok(time) => u64::try_from(time.as_nanos()).unwrap_or(u64::MAX).max(1),
            Err(_) => u64::MAX,
        }
    }

    // The gap that ends now in the build that is under way, if one is.
    fn end_gap(&self, answered: u64, now: u64) {
        let began = self.began.load(SeqCst);
        if began == 0 {
            return;
        }
        let gap = now.saturating_sub(answered.max(began));
        self.longest_in_builds.fetch_max(gap, SeqCst);
        if gap > LIMIT {
            self.over.fetch_add(1, SeqCst);
        }
    }

    fn line(&self) {
        let now = self.now();
        let answered = self.answered.swap(now, SeqCst);
        if answered != 0 {
            self.longest.fetch_max(now.saturating_sub(answered), SeqCst);
        }
        self.lines.fetch_add(1, SeqCst);
        self.lines_behind.fetch_add(1, SeqCst);
        if self.began.load(SeqCst) != 0 {
            self.lines_in_builds.fetch_add(1, SeqCst);
        }
        self.end_gap(answered, now);
    }

    fn end_build(&self) {
        let now = self.now();
        self.end_gap(self.answered.load(SeqCst), now);
        let began = self.began.swap(0, SeqCst);
        self.building.fetch_add(now.saturating_sub(began), SeqCst);
        self.builds.fetch_add(1, SeqCst);
        self.lines_behind.store(0, SeqCst);
    }
}

impl<R: Clock> Hook for Watch<'_, R> {
    fn reach(&self, point: Point) {
        match point {
            Point::JobTaken => self.began.store(self.now(), SeqCst),
            Point::BuildDone => self.end_build(),
            Point::LineDone => self.line(),
        }
    }
}

/// Writes what a watch saw to the standard error.
pub(crate) fn say<R: Clock>(rt: &impl Eprint, watch: &Watch<'_, R>) -> Result<()> {
    for (name, word) in [
        ("lines", &watch.lines),
        ("builds", &watch.builds),
        ("lines in builds", &watch.lines_in_builds),
        ("lines behind the builds", &watch.lines_behind),
        ("nanoseconds of builds", &watch.building),
        ("longest gap in builds", &watch.longest_in_builds),
        ("gaps in builds over the limit", &watch.over),
        ("longest gap", &watch.longest),
    ] {
        let number = word.load(SeqCst);
        eprintln!(rt; "{name} {number}")?;
    }
    Ok(())
}
