//! Reads an image from the page file.
ghost use Rattle.std.specs.Prelude.{◌≡◌, List, ℕ, IsOk, IfOk, IfSome, IfNone, IsErrOf};
ghost use Rattle.ut_outside.specs.Disk.{IsTold};
ghost use Rattle.ut_outside.specs.Faults.{Rose};
ghost use Rattle.ut_outside.specs.Run.{ReadsOnly};
ghost use Rattle.ut_plain.specs.Capture.{Directory};
ghost use Rattle.ut_pages.specs.declared.slot.Slot.{Slot};
ghost use Rattle.ut_pages.specs.Layout.{IsMade, IsSelected};
ghost use Rattle.ut_image.specs.declared.drawn.Drawn.{Drawn};
ghost use Rattle.ut_durable.specs.Images.{HasImage};
ghost use Rattle.ut_reading.specs.Reading.{IsImageIn, Begins};
ghost use Rattle.ut_reading.specs.Standing.{AreDrawnIn};

use crate::parts::Reader;
use std::alloc::{AllocError, Global};
use ut_image::{Drawn, are_own_ids, ids_of, image_from};
use ut_main::Main;
use ut_outside::Disk;
use ut_pages::{PageError, Pages, Root};
use ut_value::Seq;

/// What the selected root names: the tables of its directory, and each one's parts.
#[derive(Drop)]
pub struct Image {
    pub pages: Pages,
    pub root: Root,
    pub tables: Seq<Drawn>,
    pub mains: Seq<Main>,
}

// The tables of a directory's bytes. No bytes are the directory without tables.
fn tables_from(alloc: Global, bytes: &[u8], root: &Root) -> Result<Option<Seq<Drawn>>, AllocError>
    ensures found { IfOk result (λ o. IfSome o (λ v. AreDrawnIn root.now bytes.now v)) }
    ensures none { IfOk result (λ o. IfNone o ((v : List Drawn) → AreDrawnIn root.now bytes.now v → ⊥)) }
{
    if bytes.is_empty() {
        return Ok(Some(Seq::new(alloc)));
    }
    image_from(alloc, bytes, root.next, root.commits)
}

/// Reads the image of the selected root.
pub fn read_image<D: Disk>(alloc: Global, disk: &mut D) -> Result<Image, PageError>
    requires made { IsTold (D.view disk.old) → IsMade (D.view disk.old).seen.pages }
    ensures found { IfOk result (λ image. IsTold (D.view disk.old)
        → (d : Directory) × IsImageIn image d (D.view disk.old).seen.pages) }
    // Whatever the disk tells, what is in memory shows a directory that an image may have.
    ensures begins { IfOk result (λ image. (d : Directory) × Begins image.root image.tables image.mains d) }
    // Damaged exactly where no image is there.
    ensures damaged { IsErrOf result PageError.Damaged → IsTold (D.view disk.old)
        → (slot : Slot) (reached : List ℕ) (root : Root) (d : Directory) → IsSelected slot (D.view disk.old).seen.pages
        → HasImage slot reached root d (D.view disk.old).seen.pages → ⊥ }

    ensures reads { ReadsOnly (D.view disk.old) (D.view disk.new) }
    ensures cause { IsErrOf result PageError.Disk → Rose (D.view disk.old).faults (D.view disk.new).faults }
    ensures still { IsOk result → (D.view disk.new).faults ≡ (D.view disk.old).faults }
{
    let (pages, root, bytes) = Pages::read(alloc, disk)?;
    let Some(tables) = tables_from(alloc, &bytes, &root)? else {
        return Err(PageError::Damaged);
    };
    let live = ids_of(alloc, tables.as_slice())?;
    let mut reader = Reader { pages, live };
    let mains = reader.read_mains(alloc, disk, tables.as_slice())?;
    if !are_own_ids(alloc, &reader.live, root.next)? {
        return Err(PageError::Damaged);
    }
    let Reader { pages, live: _ } = reader;
    Ok(Image {
        pages,
        root,
        tables,
        mains,
    })
}
