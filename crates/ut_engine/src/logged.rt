//! The store and its files.
ghost use Rattle.std.specs.Prelude.{◌≡◌, ◌<◌, ◌≤◌, ◌^◌, true, IfOk, OnOk, OnErr, IsErrOf};
ghost use Rattle.ut_outside.specs.declared.disk.Which.{Which};
ghost use Rattle.ut_outside.specs.Disk.{IsTold, content};
ghost use Rattle.ut_outside.specs.Faults.{Rose, HasCause};
ghost use Rattle.ut_outside.specs.Run.{Always, LeavesOnly, ReadsOnly};
ghost use Rattle.ut_pages.specs.Layout.{IsMade};
ghost use Rattle.ut_plain.specs.Journal.{Journal};
ghost use Rattle.ut_durable.specs.Journals.{HoldsJournal};
ghost use Rattle.ut_plain.specs.declared.statement.Statement.{Statement};
ghost use Rattle.ut_durable.specs.Calls.{MayGain};
ghost use Rattle.ut_nextid.specs.NextIds.{ending_of};
ghost use Rattle.ut_engine.specs.Handing.{Appended, AreReady, Concludes, HandsOut, NotAppended};
ghost use Rattle.ut_engine.specs.Opening.{MayOnlyRead};
ghost use Rattle.ut_engine.specs.Runs.{IsNew, Opens, NotMadeOrEmpty};

use crate::error::OpenError;
use crate::saving::log_file;
use std::alloc::Global;
use ut_durable::Durable;
use ut_nextid::{Ending, NextIds};
use ut_outside::{Disk, Failed, Which};
use ut_pages::Pages;
use ut_plain::Reply;
use ut_reading::{Image, read_image};
use ut_redo::Redo;
use ut_restart::reopen;
use ut_savepoint::Savepoint;
use ut_store::{Response, Store};

/// A store in memory before its files. Each call that may write is lent the disk.
pub(crate) struct LoggedStore {
    pub(crate) store: Store,
    /// Where the next frame goes, which slot is selected, and the pages that its root reaches.
    pub(crate) files: Durable,
    /// The file in which the selected root's log begins.
    pub(crate) begins: Which,
    /// The savepoint that is under way.
    pub(crate) saving: Option<Savepoint>,
    /// The next id of the journal.
    pub(crate) next: NextIds,
    /// Whether the disk has failed.
    pub(crate) down: bool,
}

// One step of a proof, wherever one is dropped.
impl Drop for LoggedStore {
    fn drop(self) {
        let LoggedStore {
            store: _,
            files: _,
            begins: _,
            saving: _,
            next: _,
            down: _,
        } = self;
    }
}

impl LoggedStore {
    /// Makes the files of a store without tables, which gives at most so many ids.
    pub(crate) fn make<D: Disk>(
        alloc: Global,
        disk: &mut D,
        rows: u32,
    ) -> Result<LoggedStore, OpenError>
        requires { rows ≤ 2 ^ 31 }
        // `Made` exactly where the store is made.
        ensures new { IfOk result (λ e. IsNew e rows (D.view disk.old) (D.view disk.new)) }
        ensures made { IsErrOf result OpenError.Made → IsTold (D.view disk.old) → IsMade (D.view disk.old).seen.pages }
        ensures cause { IsErrOf result OpenError.Disk → Rose (D.view disk.old).faults (D.view disk.new).faults }
        ensures others { (IsErrOf result OpenError.NotMade → ⊥) × (IsErrOf result OpenError.Damaged → ⊥) }
        // Files that are made are only read, whatever the answer, and so are all where memory is wanting.
        ensures reads { MayOnlyRead result (D.view disk.old) → ReadsOnly (D.view disk.old) (D.view disk.new) }
        // Of files that no crash leaves made, a crash at any moment leaves none that are made, or an empty store.
        ensures any_moment { IsTold (D.view disk.old) → Always (D.view disk.old) (λ c. IsMade c.pages → ⊥) → LeavesOnly (D.view disk.old) (D.view disk.new) NotMadeOrEmpty }
        ensures told { (D.view disk.new).told ≡ (D.view disk.old).told }
        ensures later { (D.view disk.old).faults ≤ (D.view disk.new).faults }
        ensures no_fault { OnOk result ((D.view disk.new).faults ≡ (D.view disk.old).faults) }
    {
        if Pages::made(disk)? {
            return Err(OpenError::Made);
        }
        let store = Store::new(alloc, rows)?; // before a file is touched
        let next = NextIds::opened(alloc, 1, &[])?;
        let redo = Redo::make(disk)?; // before the page file is made
        Pages::make(disk)?;
        Ok(LoggedStore {
            store,
            files: Durable::new(redo, Pages::fresh(alloc)),
            begins: Which::Redo,
            saving: None,
            next,
            down: false,
        })
    }

    /// Opens a store with what its files say. It writes nothing.
    pub(crate) fn open<D: Disk>(
        alloc: Global,
        disk: &mut D,
        rows: u32,
    ) -> Result<LoggedStore, OpenError>
        requires { rows ≤ 2 ^ 31 }
        ensures opens { IfOk result (λ e. Opens e rows (D.view disk.old) (D.view disk.new)) }
        // `NotMade` exactly where the store isn't made, `Damaged` exactly where it is and its files hold no journal.
        ensures not_made { IsErrOf result OpenError.NotMade → IsTold (D.view disk.old) → IsMade (D.view disk.old).seen.pages → ⊥ }
        ensures damaged { IsErrOf result OpenError.Damaged → IsTold (D.view disk.old) → IsMade (D.view disk.old).seen.pages × ((j : Journal) → HoldsJournal j (D.view disk.old).seen → ⊥) }
        ensures cause { IsErrOf result OpenError.Disk → Rose (D.view disk.old).faults (D.view disk.new).faults }
        ensures others { IsErrOf result OpenError.Made → ⊥ }
        ensures reads { ReadsOnly (D.view disk.old) (D.view disk.new) }
        ensures no_fault { OnOk result ((D.view disk.new).faults ≡ (D.view disk.old).faults) }
    {
        settle(disk)?;
        if !Pages::made(disk)? {
            return Err(OpenError::NotMade);
        }
        let Image {
            pages,
            root,
            tables,
            mains,
        } = read_image(alloc, disk)?;
        let begins = log_file(root.file);
        let (redo, entries) = Redo::read_all(alloc, disk, begins, root.offset)?;
        let next = NextIds::opened(alloc, root.next, entries.as_slice())?;
        let restored = reopen(alloc, &root, tables, mains, entries)?;
        let store = Store::restored(alloc, restored, rows)?;
        Ok(LoggedStore {
            store,
            files: Durable::new(redo, pages),
            begins,
            saving: None,
            next,
            down: false,
        })
    }

    /// Ends a statement: its response in memory is handed out, and the journal's next id noted. The store's was this one before.
    pub(crate) fn conclude<D: Disk>(
        &mut self,
        disk: &mut D,
        session: u8,
        ending: Ending,
        before: u32,
        response: Response,
    ) -> Reply
        requires seat { session < 17 }
        requires ready { AreReady self.old.files (D.view disk.old) }
        ensures { (st : Statement) → ending ≡ ending_of st
            → Concludes response session st before self.old (D.view disk.old) result self.new (D.view disk.new) }
    {
        let reply = self.hand_out(disk, response);
        let after = self.store.next_id();
        self.next.note(session, ending, &reply, before, after);
        reply
    }

    // Hands out the reply of a response: at once, or once the frame that it wrote is on the disk.
    fn hand_out<D: Disk>(&mut self, disk: &mut D, response: Response) -> Reply
        requires { AreReady self.old.files (D.view disk.old) }
        ensures { HandsOut response self.old (D.view disk.old) result self.new (D.view disk.new) }
    {
        match response {
            Response::Answered(reply) => reply,
            Response::Append(reply) => match self.append(disk) {
                Ok(()) => reply,
                Err(_) => {
                    drop(reply); // it is not handed out
                    Reply::DiskFault
                }
            },
        }
    }

    /// Appends the store's frame to the log. Where the disk fails, the store is down.
    pub(crate) fn append<D: Disk>(&mut self, disk: &mut D) -> Result<(), Failed>
        requires { AreReady self.old.files (D.view disk.old) }
        ensures any_moment { MayGain self.old.store.frame self.old.files (D.view disk.old) (D.view disk.new) }
        ensures ok { OnOk result (Appended self.old.files self.new.files self.old.store.frame (D.view disk.old) (D.view disk.new)) }
        ensures kept { OnOk result (self.new ≡ record self.old { files = self.new.files }) }
        ensures err { OnErr result (NotAppended (D.view disk.old) (D.view disk.new)) }
        ensures down { OnErr result (self.new ≡ record self.old { down = true }) }
    {
        match self.files.append(disk, self.store.frame()) {
            Ok(()) => Ok(()),
            Err(error) => {
                self.down = true;
                Err(error)
            }
        }
    }
}

// Syncs the three files, so that a crash leaves what a read returns.
fn settle<D: Disk>(disk: &mut D) -> Result<(), Failed>
    ensures settled { OnOk result (IsTold (D.view disk.old) → Always (D.view disk.new) (λ c. (file : Which) → content file c ≡ content file (D.view disk.old).seen)) }
    ensures reads { ReadsOnly (D.view disk.old) (D.view disk.new) }
    ensures cause { HasCause (D.view disk.old).faults (D.view disk.new).faults result }
{
    disk.sync(Which::Redo)?;
    disk.sync(Which::Redo2)?;
    disk.sync(Which::Pages)
}
