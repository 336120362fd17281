//! The bytes of the files that a row leaves, and what is opened where they are changed.
use crate::left::{Must, meets};
use crate::scene::Scene;
use crate::tries::Trouble;
use row_files::{Change, Patch, Wanted, byte_in};
use std::alloc::{AllocError, Global};
use std::sync::Wait;
use std::thread::Threads;
use ut_outside::{MemDisk, Which};

/// What is done to a file at a place.
#[derive(Clone, Copy)]
pub(crate) enum Harm {
    Cut,
    Byte(u8),
}

impl Harm {
    fn at(self, place: usize) -> Change<'static> {
        match self {
            Harm::Cut => Change::Cut(place),
            Harm::Byte(byte) => Change::Byte(place, byte),
        }
    }
}

pub(crate) const CUT: &[Harm] = &[Harm::Cut];

pub(crate) const BYTES: &[Harm] = &[
    Harm::Byte(0x00),
    Harm::Byte(0x01),
    Harm::Byte(0x33),
    Harm::Byte(0xA7),
    Harm::Byte(0xFF),
];

/// Whether bytes are those that a text of bytes says.
pub(crate) fn are_spelled(bytes: &[u8], hex: &str) -> bool {
    bytes.len() == hex.len() / 2 && starts_spelled(bytes, hex)
}

fn starts_spelled(bytes: &[u8], hex: &str) -> bool {
    bytes
        .iter()
        .enumerate()
        .all(|(place, byte)| byte_in(hex, place) == Some(*byte))
}

/// Whether these bytes stand at a place.
pub(crate) fn hold(bytes: &[u8], at: usize, hex: &str) -> bool {
    let end = at.saturating_add(hex.len() / 2);
    match bytes.get(at..end) {
        Some(found) => are_spelled(found, hex),
        None => false,
    }
}

/// A disk with a change, if it fits what is there.
pub(crate) fn patched(
    alloc: Global,
    disk: &MemDisk,
    patch: Patch<'_>,
) -> Result<Option<MemDisk>, AllocError> {
    if !fits(disk.bytes(patch.file), patch.change) {
        return Ok(None);
    }
    let bytes = changed(alloc, disk.bytes(patch.file), patch.change)?;
    Ok(Some(with_file(alloc, disk, patch.file, &bytes)?))
}

// Whether the places of a change are there.
fn fits(bytes: &[u8], change: Change<'_>) -> bool {
    match change {
        Change::Is(_) | Change::End(_) => true,
        Change::At(at, hex) => at.saturating_add(hex.len() / 2) <= bytes.len(),
        Change::Byte(at, _) => at < bytes.len(),
        Change::Cut(len) => len <= bytes.len(),
    }
}

fn changed(alloc: Global, bytes: &[u8], change: Change<'_>) -> Result<Vec<u8>, AllocError> {
    let mut out = Vec::new(alloc);
    match change {
        Change::Is(hex) => put_hex(&mut out, hex)?,
        Change::At(at, hex) => put_over(&mut out, bytes, at, hex)?,
        Change::Byte(at, byte) => put_byte(&mut out, bytes, at, byte)?,
        Change::Cut(len) => out.extend_from_slice(bytes.get(..len).unwrap_or(bytes))?,
        Change::End(hex) => {
            out.extend_from_slice(bytes)?;
            put_hex(&mut out, hex)?;
        }
    }
    Ok(out)
}

fn put_hex(out: &mut Vec<u8>, hex: &str) -> Result<(), AllocError> {
    for place in 0..hex.len() / 2 {
        out.push(byte_in(hex, place).unwrap_or(0))?;
    }
    Ok(())
}

fn put_over(out: &mut Vec<u8>, bytes: &[u8], at: usize, hex: &str) -> Result<(), AllocError> {
    out.extend_from_slice(bytes.get(..at).unwrap_or(bytes))?;
    put_hex(out, hex)?;
    let end = at.saturating_add(hex.len() / 2);
    out.extend_from_slice(bytes.get(end..).unwrap_or(b""))
}

fn put_byte(out: &mut Vec<u8>, bytes: &[u8], at: usize, byte: u8) -> Result<(), AllocError> {
    out.extend_from_slice(bytes)?;
    if let Some(old) = out.as_mut_slice().get_mut(at) {
        *old = byte;
    }
    Ok(())
}

fn with_file(
    alloc: Global,
    disk: &MemDisk,
    file: Which,
    bytes: &[u8],
) -> Result<MemDisk, AllocError> {
    let redo = disk.bytes(Which::Redo);
    let redo2 = disk.bytes(Which::Redo2);
    let pages = disk.bytes(Which::Pages);
    match file {
        Which::Redo => MemDisk::of(alloc, bytes, redo2, pages),
        Which::Redo2 => MemDisk::of(alloc, redo, bytes, pages),
        Which::Pages => MemDisk::of(alloc, redo, redo2, bytes),
    }
}

/// What is opened with a change.
pub(crate) fn opened_with(
    rt: &(impl Threads + Wait + Sync),
    alloc: Global,
    scene: Scene<'_, '_>,
    disk: &MemDisk,
    patch: Patch<'_>,
    wanted: Wanted,
) -> Result<Option<Trouble>, AllocError> {
    let place = place_of(patch.change);
    match patched(alloc, disk, patch)? {
        Some(mut other) => opened_on(rt, alloc, scene, place, wanted, &mut other),
        None => Ok(Some(Trouble::at(place))),
    }
}

fn opened_on(
    rt: &(impl Threads + Wait + Sync),
    alloc: Global,
    scene: Scene<'_, '_>,
    place: u64,
    wanted: Wanted,
    disk: &mut MemDisk,
) -> Result<Option<Trouble>, AllocError> {
    let left = scene.asked_on(rt, alloc, disk)?;
    if meets(scene.row, &left, Must::Be(wanted)) {
        return Ok(None);
    }
    Ok(Some(Trouble::of(place, &left)))
}

// Where a change is.
fn place_of(change: Change<'_>) -> u64 {
    match change {
        Change::Is(_) | Change::End(_) => 0,
        Change::At(at, _) | Change::Byte(at, _) | Change::Cut(at) => at as u64,
    }
}

/// What is opened with two changes.
pub(crate) fn opened_with_two(
    rt: &(impl Threads + Wait + Sync),
    alloc: Global,
    scene: Scene<'_, '_>,
    disk: &MemDisk,
    first: Patch<'_>,
    second: Patch<'_>,
    wanted: Wanted,
) -> Result<Option<Trouble>, AllocError> {
    match patched(alloc, disk, first)? {
        Some(other) => opened_with(rt, alloc, scene, &other, second, wanted),
        None => Ok(Some(Trouble::at(place_of(first.change)))),
    }
}

/// What is opened where each of these things is done at each place of a file.
pub(crate) fn each_place(
    rt: &(impl Threads + Wait + Sync),
    alloc: Global,
    scene: Scene<'_, '_>,
    disk: &MemDisk,
    file: Which,
    harms: &[Harm],
    wanted: Wanted,
) -> Result<Option<Trouble>, AllocError> {
    for place in 0..disk.bytes(file).len() {
        for harm in harms {
            let change = harm.at(place);
            let patch = Patch { file, change };
            if let Some(trouble) = opened_with(rt, alloc, scene, disk, patch, wanted)? {
                return Ok(Some(trouble));
            }
        }
    }
    Ok(None)
}
