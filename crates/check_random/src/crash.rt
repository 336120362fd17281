//! A crash of a random script, and what is opened then, on the program and on the slow store.
use crate::apart::Apart;
use crate::compare::{AMPLE, Halves, apart_in_questions};
use check_oracle::Oracle;
use check_run::run::{RUN, run_on};
use check_scripts::{Answers, LINES};
use std::alloc::{AllocError, Global};
use std::sync::Wait;
use std::thread::Threads;
use ut_app::Status;
use ut_outside::{Ack, Disk, MemDisk, Tear};

// What a crash makes of bytes that aren't synced, for the last digit of a draw.
fn tear_of(drawn: u64) -> Tear {
    match drawn % 5 {
        0 => Tear::Old,
        1 => Tear::New,
        2 => Tear::Fill(0x00),
        3 => Tear::Fill(0xA7),
        _ => Tear::Fill((drawn / 5 % 256) as u8),
    }
}

// A number that a seed draws: the upper bits of one step of a linear congruence.
fn drawn(seed: u64) -> u64 {
    seed.wrapping_mul(6_364_136_223_846_793_005)
        .wrapping_add(1_442_695_040_888_963_407)
        >> 20
}

// How many replies were acknowledged by that moment.
fn told_by(acks: &[Ack], moment: u64) -> u32 {
    let mut told: u32 = 0;
    for ack in acks {
        if ack.moment <= moment {
            told = told.saturating_add(1);
        }
    }
    told
}

/// Where the store that a crash leaves of a script answers the questions as it may not. The crash comes at a drawn moment of the
/// script's runs; what is opened then has the lines that were told, and perhaps the next one.
pub(crate) fn crash_apart(
    rt: &(impl Threads + Wait + Sync),
    alloc: Global,
    halves: Halves,
    disk: &MemDisk,
    acks: &[Ack],
) -> Result<Option<Apart>, AllocError> {
    let draw = drawn(halves.seed);
    let moment = draw / 1280 % disk.calls().saturating_add(1);
    if moment > disk.calls() {
        return Ok(None);
    }
    let mut image = disk.image(moment, tear_of(draw))?;
    image_apart(rt, alloc, halves, moment, told_by(acks, moment), &mut image)
}

// Where the store on what a crash left answers otherwise than behind so many lines that were told, and than behind the next one.
fn image_apart(
    rt: &(impl Threads + Wait + Sync),
    alloc: Global,
    halves: Halves,
    moment: u64,
    told: u32,
    image: &mut MemDisk,
) -> Result<Option<Apart>, AllocError> {
    if told == 0 && run_on(rt, alloc, RUN, b"", image)?.status == Status::NoStore {
        return Ok(None);
    }
    if apart_behind(rt, alloc, halves, told, image)?.is_none() {
        return Ok(None);
    }
    let apart = apart_behind(rt, alloc, halves, told.saturating_add(1), image)?;
    told_of(alloc, apart, moment, told)
}

// Where a store that is opened now answers the questions otherwise than the slow one behind so many lines of a script.
fn apart_behind(
    rt: &(impl Threads + Wait + Sync),
    alloc: Global,
    halves: Halves,
    count: u32,
    disk: &mut MemDisk,
) -> Result<Option<Apart>, AllocError> {
    let mut store = store_behind(alloc, halves, count)?;
    apart_in_questions(rt, alloc, &mut store, disk)
}

// The slow store, opened again behind so many lines of a script.
fn store_behind(alloc: Global, halves: Halves, count: u32) -> Result<Oracle, AllocError> {
    let mut store = Oracle::new(alloc, AMPLE)?;
    for number in 0..count.min(LINES) {
        follow_line(alloc, halves, number, &mut store)?;
    }
    store.reopened(alloc, AMPLE)
}

// The slow store goes on by a line, opened again before the one behind the cut.
fn follow_line(
    alloc: Global,
    halves: Halves,
    number: u32,
    store: &mut Oracle,
) -> Result<(), AllocError> {
    if number == halves.cut {
        *store = store.reopened(alloc, AMPLE)?;
    }
    let line = halves.line(alloc, number)?;
    answer_line(alloc, &line, store)
}

fn answer_line(alloc: Global, line: &[u8], store: &mut Oracle) -> Result<(), AllocError> {
    let mut reply = Vec::new(alloc);
    store.answer(alloc, line, &mut reply)
}

// A difference, with the crash that showed it.
fn told_of(
    alloc: Global,
    apart: Option<Apart>,
    moment: u64,
    told: u32,
) -> Result<Option<Apart>, AllocError> {
    let Some(apart) = apart else {
        return Ok(None);
    };
    let line = apart.line.as_str();
    let line = format!(in alloc; "stopped after {moment} calls and {told} replies, {line}")?;
    Ok(Some(apart.at_line(line)))
}
