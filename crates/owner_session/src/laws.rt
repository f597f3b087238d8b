//! Laws of sessions, as contracts of a function that does nothing.
ghost use Rattle.std.specs.Prelude.{List, ◌++◌, map};
ghost use Rattle.outside.specs.ConnectionModel.{ConnectionModel};
ghost use Rattle.link_frames.specs.Scripts.{IsDone, Stops};
ghost use Rattle.owner_session.specs.SessionWork.{Deed, Input, session};
ghost use Rattle.owner_session.specs.Runs.{entries_of};
ghost use Rattle.owner_session.specs.Requests.{PutsRequests};
ghost use Rattle.owner_session.specs.Orders.{Alternates, KeepsFirst, StepsFirst, CommitsEach};

use crate::session_owner::SessionOwner;

/// Whatever comes and whatever the owner makes: each frame is followed by its answer, no entry is
/// installed before the journal has it, none is appended but what the owner just made, and where
/// all is done each batch was committed and told of. Wherever it stopped, it has put requests
/// alone, the last perhaps in part: none proposes but these batches and the journal's, and none
/// installs but an entry that the journal has.
pub fn sessions_in_order<O: SessionOwner>()
    ensures alternates { (state : O.State) (entries : List O.Entry) (batches : List O.Batch)
        (input : Input O.State O.Entry)
        → Alternates (session O.forms state entries batches input).events }
    ensures keeps_first { (state : O.State) (entries : List O.Entry) (batches : List O.Batch)
        (input : Input O.State O.Entry)
        → KeepsFirst O.forms.install entries
        (session O.forms state entries batches input).events }
    ensures steps_first { (state : O.State) (entries : List O.Entry) (batches : List O.Batch)
        (input : Input O.State O.Entry)
        → StepsFirst state (session O.forms state entries batches input).events }
    ensures commits_each { (state : O.State) (entries : List O.Entry) (batches : List O.Batch)
        (input : Input O.State O.Entry)
        → CommitsEach O.forms batches (session O.forms state entries batches input) }
    ensures puts_requests { (state : O.State) (entries : List O.Entry) (batches : List O.Batch)
        (input : Input O.State O.Entry) (deeds : List (Deed O.State O.Batch O.Entry))
        (before : ConnectionModel) (after : ConnectionModel)
        → Stops (session O.forms state entries batches input).events deeds before after
        → PutsRequests O.forms (map O.forms.batch entries ++ batches)
        (entries ++ entries_of deeds) before after }
    ensures puts_requests_done { (state : O.State) (entries : List O.Entry)
        (batches : List O.Batch) (input : Input O.State O.Entry)
        (deeds : List (Deed O.State O.Batch O.Entry))
        (before : ConnectionModel) (after : ConnectionModel)
        → IsDone (session O.forms state entries batches input).events deeds before after
        → PutsRequests O.forms (map O.forms.batch entries ++ batches)
        (entries ++ entries_of deeds) before after }
{}
