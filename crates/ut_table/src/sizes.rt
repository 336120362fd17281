//! How many rows stand in the stages.
ghost use Rattle.std.specs.Prelude.{◌≡◌, ◌+◌, ◌≤◌, ◌^◌, length, map, option_map, IfOk};
ghost use Rattle.std.specs.List.{sum_by};
ghost use Rattle.ut_plain.specs.Stages.{shape_of};
ghost use Rattle.ut_staged.specs.Staged.{count_of, stages_of};
ghost use Rattle.ut_table.specs.Contents.{PendingValue};

use crate::pending::Pending;
use crate::table::Table;
use std::alloc::{AllocError, Global};
use ut_main::Main;
use ut_plain::Shape;
use ut_value::Seq;

/// How many rows each part has.
fn sizes(alloc: Global, main: &Main) -> Result<Seq<u32>, AllocError>
    ensures { IfOk result (λ sizes. sizes ≡ map length main.now.parts) }
{
    let mut sizes = Seq::new(alloc);
    for p in 0..main.parts() {
        sizes.push(main.part(p).len())?;
    }
    Ok(sizes)
}

/// How many rows the closed stage has, where there is one.
fn closed_len(pending: &Option<Pending>) -> Option<u32>
    ensures { result ≡ option_map (λ (p : PendingValue). length p.closed.rows) pending.now }
{
    match pending {
        Some(pending) => Some(pending.closed().len()),
        None => None,
    }
}

impl Table {
    /// How many rows stand in the first stage.
    pub fn l1_len(&self) -> u32
        ensures len { result ≡ length self.now.stages.l1 }
        ensures few { count_of self.now.stages ≤ 2 ^ 31 }
    {
        self.l1.len()
    }

    /// How many rows stand in the second.
    pub fn l2_len(&self) -> u32
        ensures len { result ≡ length self.now.stages.l2 }
        ensures few { count_of self.now.stages ≤ 2 ^ 31 }
    {
        self.l2.len()
    }

    /// How many parts main has.
    pub fn part_count(&self) -> u8
        ensures count { result ≡ length self.now.stages.parts }
        ensures few { result ≤ 8 }
    {
        self.main.parts()
    }

    /// How many rows stand in main and in the second stage.
    pub fn places(&self) -> u64
        ensures { result ≡ sum_by length self.now.stages.parts + length self.now.stages.l2 }
    {
        u64::from(self.main.rows()) + u64::from(self.l2.len())
    }

    /// How many rows stand in each stage.
    pub fn shape(&self, alloc: Global) -> Result<Shape, AllocError>
        ensures { IfOk result (λ shape. shape ≡ shape_of (stages_of self.now.stages)) }
    {
        Ok(Shape {
            l1: self.l1.len(),
            l2: self.l2.len(),
            closed: closed_len(&self.pending),
            parts: sizes(alloc, &self.main)?,
        })
    }
}
