//! What a store knows of its files, as laws that a program above may rest on.
ghost use Rattle.ut_durable.specs.Laws.{AppendIsStored, SwitchIsStored, BeginIsStored, NextMayBeWritten, PageIsStored, SealIsStored, FlipIsStored, DropIsStored, StoredHoldsAll, OpenedIsStored, MadeIsStored, CapturedIsDirectory, CapturedIsImage, ChainsArePlan, FreePagesAscend};
ghost use Rattle.ut_durable.specs.Groups.{WaitIsStored, WaitLeaves, GroupIsStored, GroupLeaves};
ghost use Rattle.ut_durable.specs.Moments.{AppendLeaves, StayLeaves, SwitchLeaves, FlipLeaves, PrefixOfMore, PrefixOfFewer};

use ut_outside::Disk;

/// Groups of entries: what is known goes on, and at each moment a crash leaves the journal as it was, or with all of them.
pub fn group_laws<D: Disk>()
    ensures wait { WaitIsStored D.view }
    ensures wait_leaves { WaitLeaves D.view }
    ensures group { GroupIsStored D.view }
    ensures group_leaves { GroupLeaves D.view }
{}

/// What is known goes on with each call and each phase of a savepoint.
pub fn saving_laws<D: Disk>()
    ensures append { AppendIsStored D.view }
    ensures switch { SwitchIsStored D.view }
    ensures begin { BeginIsStored D.view }
    ensures next { NextMayBeWritten D.view }
    ensures page { PageIsStored D.view }
    ensures seal { SealIsStored D.view }
    ensures flip { FlipIsStored D.view }
    ensures drop { DropIsStored D.view }
{}

/// It holds at the beginning, and with it each crash leaves the whole journal.
pub fn stored_laws<D: Disk>()
    ensures opened { OpenedIsStored D.view }
    ensures made { MadeIsStored D.view }
    ensures holds { StoredHoldsAll D.view }
{}

/// At each moment of a call a crash leaves the journal.
pub fn moment_laws<D: Disk>()
    ensures append { AppendLeaves D.view }
    ensures stay { StayLeaves D.view }
    ensures switch { SwitchLeaves D.view }
    ensures flip { FlipLeaves D.view }
{}

/// Prefixes of journals.
pub fn prefix_laws()
    ensures more { PrefixOfMore }
    ensures fewer { PrefixOfFewer }
{}

/// What is captured and planned is the image of the journal.
pub fn image_laws()
    ensures directory { CapturedIsDirectory }
    ensures captured { CapturedIsImage }
    ensures planned { ChainsArePlan }
    ensures free { FreePagesAscend }
{}
