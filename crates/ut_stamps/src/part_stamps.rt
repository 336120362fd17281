//! The stamps of a part of main: one of them for all rows, where they agree, or a list.
ghost use Rattle.std.specs.Prelude.{◌≡◌, ◌<◌, ◌≤◌, [], length, get_or, replicate, slice_set, vec_len, vec_capacity, Some, IfSome, IfOk};
ghost use Rattle.ut_stamps.specs.declared.visibility.Stamp.{Stamp};
ghost use Rattle.ut_stamps.specs.StampLists.{no_stamp};

use crate::visibility::Stamp;
use std::alloc::{AllocError, Global};
use std::marker::Model;

/// Above so many stamps a list that is no longer needed goes back, and new room stands in its
/// place.
const MOST_KEPT: usize = 1024;

/// A stamp for each row. As a value it is their list.
#[derive(Drop)]
pub struct PartStamps {
    /// The stamp of all rows, until one of them changes. Where they disagree there is none.
    joint: Option<Stamp>,
    len: usize,
    /// Where there is a joint stamp, this is room alone: nothing is written.
    list: Vec<Stamp>,
}

impl Model for PartStamps {
    ghost use Rattle.std.specs.Prelude.{List, vec_capacity};
    ghost use Rattle.ut_stamps.specs.declared.visibility.Stamp.{Stamp};
    ghost use Rattle.ut_stamps.specs.StampLists.{held_stamps, IsHeld};

    ghost Value = { List Stamp };

    ghost view = { λ s. held_stamps s.joint s.len s.list.items };

    ghost invariant = { λ s. IsHeld s.joint s.len s.list.items (vec_capacity s.list) };
}

impl PartStamps {
    /// The stamps of a list. Needs no memory.
    pub fn of(list: Vec<Stamp>) -> Self
        ensures { result ≡ list.items }
    {
        let len = list.len();
        match agreed(&list) {
            Some(stamp) => PartStamps {
                joint: Some(stamp),
                len,
                list: room_for(list),
            },
            None => PartStamps {
                joint: None,
                len,
                list,
            },
        }
    }

    /// One stamp for so many rows. Their list is room alone: it costs address space until one of
    /// the rows changes.
    pub fn alike(alloc: Global, n: usize, stamp: Stamp) -> Result<Self, AllocError>
        ensures { IfOk result (λ stamps. stamps ≡ replicate n stamp) }
    {
        let list = Vec::with_capacity(alloc, n)?;
        Ok(PartStamps {
            joint: Some(stamp),
            len: n,
            list,
        })
    }

    /// How many there are.
    pub fn len(&self) -> usize
        ensures { result ≡ length self.now }
    {
        self.len
    }

    /// The stamp of a row.
    pub fn get(&self, i: usize) -> Stamp
        requires { i < length self.now }
        ensures { result ≡ get_or self.now i no_stamp }
    {
        match self.joint {
            Some(stamp) => stamp,
            None => self.list[i],
        }
    }

    /// The stamp that all of them are, where that is known.
    pub fn joint(&self) -> Option<Stamp>
        ensures { IfSome result (λ stamp. self.now ≡ replicate (length self.now) stamp) }
    {
        self.joint
    }

    /// Puts a stamp in the place of another. Takes no memory: the first change of stamps that
    /// agree writes all of them into the room for the list.
    pub(crate) fn set(&mut self, i: usize, stamp: Stamp)
        requires { i < length self.old }
        ensures { self.new ≡ slice_set self.old i stamp }
    {
        if let Some(joint) = self.joint {
            write(&mut self.list, joint, self.len);
            self.joint = None;
        }
        self.list[i] = stamp;
    }
}

/// The stamp that all of these are, if they agree.
fn agreed(stamps: &[Stamp]) -> Option<Stamp>
    ensures { (stamp : Stamp) → result ≡ Some stamp → stamps.now ≡ replicate (length stamps.now) stamp }
{
    let [first, ..] = stamps else {
        return None;
    };
    for stamp in stamps {
        if stamp != first {
            return None;
        }
    }
    Some(*first)
}

/// Room for a list that is not needed now. New room costs address space alone until it is
/// written. A short list is emptied in place, and so is one for which no new room is to be had.
fn room_for(mut list: Vec<Stamp>) -> Vec<Stamp>
    ensures empty { result.items ≡ [] }
    ensures room { length list.items ≤ vec_capacity result }
{
    let len = list.len();
    if MOST_KEPT < len {
        let alloc = *list.allocator();
        if let Ok(room) = Vec::with_capacity(alloc, len) {
            return room;
        }
    }
    list.clear();
    list
}

/// Writes a stamp so many times into the room of an empty list.
fn write(list: &mut Vec<Stamp>, stamp: Stamp, n: usize)
    requires empty { list.old.items ≡ [] }
    requires room { n ≤ vec_capacity list.old }
    ensures { list.new.items ≡ replicate n stamp }
{
    for _ in 0..n {
        list.push_reserved(stamp);
    }
}
