//! Reads the parts that a directory names, each behind those before it.
ghost use Rattle.std.specs.Prelude.{◌≡◌, ◌+◌, ◌≤◌, ◌<◌, ◌++◌, List, ℕ, length, map, IsOk, IfOk, OnOk, IsErrOf};
ghost use Rattle.std.specs.List.{AllByRecursion, AllZip, items_where_true};
ghost use Rattle.ut_outside.specs.Disk.{IsTold};
ghost use Rattle.ut_outside.specs.Faults.{Rose};
ghost use Rattle.ut_outside.specs.Run.{ReadsOnly};
ghost use Rattle.ut_l2.specs.KeyRows.{KeyRow};
ghost use Rattle.ut_main.specs.Parts.{MainValue, dicts_behind, rows_in};
ghost use Rattle.ut_reading.specs.Standing.{with_part, StandsPart, StandsMain};
ghost use Rattle.ut_reading.specs.Found.{MayRead, FoundPart, FoundMain, FoundMains};

use std::alloc::{AllocError, Global};
use std::sync::Arc;
use ut_image::{Drawn, PartRef};
use ut_main::{Main, Part, part_from};
use ut_outside::Disk;
use ut_pages::{PageError, Pages};
use ut_value::{Column, Seq};

/// What was read so far: the pages that were reached, and the ids of live rows.
#[derive(Drop)]
pub(crate) struct Reader {
    pub(crate) pages: Pages,
    pub(crate) live: Vec<u32>,
}

// Adds the ids of a part's live rows.
fn add_live(live: &mut Vec<u32>, marks: &[bool], part: &Part) -> Result<(), AllocError>
    requires { length marks.now ≡ length part.now.rows }
    ensures { OnOk result (live.new.items ≡ live.old.items ++ map (λ r. r.id) (items_where_true marks.now part.now.rows)) }
{
    for i in 0..part.len() {
        if marks[i as usize] {
            live.push(part.row_id(i))?;
        }
    }
    Ok(())
}

// Adds a part that was read behind main.
fn add_part(alloc: Global, main: &mut Main, part: Part) -> Result<(), AllocError>
    requires fewer { length main.old.parts < 8 }
    requires behind { part.before ≡ dicts_behind main.old }
    requires few { rows_in main.old + length part.rows ≤ 2147483647 }
    ensures { OnOk result (main.new ≡ with_part main.old part.rows) }
{
    main.push(Arc::new(alloc, part)?)
}

impl Reader {
    // The part that a directory names, behind main.
    fn read_part<D: Disk>(
        &mut self,
        alloc: Global,
        disk: &mut D,
        part: &PartRef,
        columns: &[Column],
        main: &Main,
    ) -> Result<Part, PageError>
        requires width { length columns.now ≡ main.now.width }
        requires marks { length part.now.live ≡ part.now.rows }
        ensures found { IfOk result (λ read. FoundPart columns.now main.now part.now read self.old self.new (D.view disk.old)) }
        ensures damaged { IsErrOf result PageError.Damaged → IsTold (D.view disk.old) → (rows : List KeyRow) (reached : List ℕ)
            → StandsPart columns.now main.now part.now rows reached (D.view disk.old).seen.pages → ⊥ }
        ensures reads { ReadsOnly (D.view disk.old) (D.view disk.new) }
        ensures cause { IsErrOf result PageError.Disk → Rose (D.view disk.old).faults (D.view disk.new).faults }
        ensures still { IsOk result → (D.view disk.new).faults ≡ (D.view disk.old).faults }
    {
        let bytes = self.pages.segment(alloc, disk, part.first, part.length)?;
        let Some(read) = part_from(alloc, &bytes, columns, main)? else {
            return Err(PageError::Damaged);
        };
        if read.len() != part.rows {
            return Err(PageError::Damaged);
        }
        add_live(&mut self.live, part.live.as_slice(), &read)?;
        Ok(read)
    }

    // The parts of a table.
    fn read_main<D: Disk>(
        &mut self,
        alloc: Global,
        disk: &mut D,
        drawn: &Drawn,
    ) -> Result<Main, PageError>
        requires { MayRead drawn.now }
        ensures found { IfOk result (λ main. FoundMain drawn.now main self.old self.new (D.view disk.old)) }
        ensures damaged { IsErrOf result PageError.Damaged → IsTold (D.view disk.old) → (main : MainValue) (reached : List ℕ)
            → StandsMain reached (D.view disk.old).seen.pages drawn.now main → ⊥ }
        ensures reads { ReadsOnly (D.view disk.old) (D.view disk.new) }
        ensures cause { IsErrOf result PageError.Disk → Rose (D.view disk.old).faults (D.view disk.new).faults }
        ensures still { IsOk result → (D.view disk.new).faults ≡ (D.view disk.old).faults }
    {
        let columns = drawn.table.columns.as_slice();
        let mut main = Main::new(alloc, columns.len() as u8);
        let mut left = drawn.parts.as_slice();
        while let [part, others @ ..] = left {
            let read = self.read_part(alloc, disk, part, columns, &main)?;
            add_part(alloc, &mut main, read)?;
            left = others;
        }
        Ok(main)
    }

    /// The parts of each table.
    pub(crate) fn read_mains<D: Disk>(
        &mut self,
        alloc: Global,
        disk: &mut D,
        tables: &[Drawn],
    ) -> Result<Seq<Main>, PageError>
        requires { AllByRecursion MayRead tables.now }
        ensures found { IfOk result (λ mains. FoundMains tables.now mains self.old self.new (D.view disk.old)) }
        ensures damaged { IsErrOf result PageError.Damaged → IsTold (D.view disk.old) → (mains : List MainValue) (reached : List ℕ)
            → AllZip (StandsMain reached (D.view disk.old).seen.pages) tables.now mains → ⊥ }
        ensures reads { ReadsOnly (D.view disk.old) (D.view disk.new) }
        ensures cause { IsErrOf result PageError.Disk → Rose (D.view disk.old).faults (D.view disk.new).faults }
        ensures still { IsOk result → (D.view disk.new).faults ≡ (D.view disk.old).faults }
    {
        let mut mains = Seq::new(alloc);
        let mut left = tables;
        while let [drawn, others @ ..] = left {
            let main = self.read_main(alloc, disk, drawn)?;
            mains.push(main)?;
            left = others;
        }
        Ok(mains)
    }
}
