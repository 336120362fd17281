//! What a savepoint captures: the tables, and where their rows stand.
ghost use Rattle.std.specs.Prelude.{◌≡◌, [], IfOk};
ghost use Rattle.check_oracle.specs.Store.{no_image, selected_of};

use std::alloc::{AllocError, Global};
use ut_plain::{Table, TableStages};
use ut_value::{Duplicate, Seq};

/// The tables and the stages of the journal's first entries, so many.
pub struct Image {
    pub length: u32,
    pub tables: Seq<Table>,
    pub stages: Seq<TableStages>,
}

// A drop of its own is one step of a proof, where a derived one is a step for each part, wherever a value is dropped.
impl Drop for Image {
    fn drop(self) {
        let Image {
            length: _,
            tables: _,
            stages: _,
        } = self;
    }
}

impl Image {
    /// The image of a store that was just made.
    pub fn new(alloc: Global) -> Image
        ensures { selected_of result ≡ no_image }
    {
        Image {
            length: 0,
            tables: Seq::new(alloc),
            stages: Seq::new(alloc),
        }
    }

    /// A copy.
    pub fn copy(&self, alloc: Global) -> Result<Image, AllocError>
        ensures { IfOk result (λ copy. copy ≡ self.now) }
    {
        let tables = self.tables.duplicate(alloc)?;
        let stages = self.stages.duplicate(alloc)?;
        Ok(Image {
            length: self.length,
            tables,
            stages,
        })
    }
}
