//! That what the laws of honest stores ask of a connection can be.

ghost use Rattle.std.specs.Prelude.{◌≡◌, ℕ, ◌<◌, ◌≤◌, ◌^◌, List, Option, Some, IfSome, IsSome, IsTrue};
ghost use Rattle.std.specs.Str.{IsUtf8};
ghost use Rattle.outside.specs.Shelf.{Files};
ghost use Rattle.link_frames.specs.Scripts.{Event};
ghost use Rattle.link_frames.specs.Serving.{max_turns};
ghost use Rattle.vo_spec.specs.declared.records.Entry.{Entry};
ghost use Rattle.vo_spec.specs.declared.tables.Batch.{Batch};
ghost use Rattle.vo_spec.specs.declared.tables.Command.{Command};
ghost use Rattle.vo_spec.specs.Conditions.{Query};
ghost use Rattle.vo_spec.specs.Secret.{Secret, public_of_secret};
ghost use Rattle.owner_state.specs.Held.{Held};
ghost use Rattle.vo_store.specs.Loading.{store_behind};
ghost use Rattle.vo_store.specs.StoreState.{StoreState};
ghost use Rattle.owner_session.specs.SessionWork.{Deed, Input};
ghost use Rattle.vo_spec.specs.Keys.{is_public_key};
ghost use Rattle.vo_commands.specs.Texts.{IsQueryText};
ghost use Rattle.honest_peers.specs.Answering.{AreServed, frames_put};
ghost use Rattle.honest_peers.specs.Asking.{IsAsked};
ghost use Rattle.honest_peers.specs.Owning.{IsOwnerAfter, IsStoreAfter};
ghost use Rattle.honest_peers.specs.Serving.{IsIdle};

/// However a store stands: for any frames that are put, no more than a connection may have, there
/// are bytes to come that are its answers to them, and so there are for each query that is asked
/// with its key, also of a version. Of a session, whose frames go by what comes, `sessions_are_served` tells.
pub fn connections_are_served()
    ensures frames { (s : StoreState) (events : List (Event (Deed Held Batch Entry)))
        → frames_put events ≤ max_turns
        → (coming : List ℕ) × (later : StoreState) × AreServed s events coming later }
    ensures asked { (s : StoreState) (key text : List ℕ) (at : Option ℕ) (files : Files) (q : Query)
        → files key ≡ Some s.key → IsTrue (is_public_key s.key) → IsUtf8 text → IsQueryText text q
        → IfSome at (λ version. version < 2 ^ 64)
        → (coming : List ℕ) × IsAsked key text at files s q coming }
{}

/// A store that has loaded an owner's plain journal stands behind the batches of that owner; and
/// where owner and store stand behind the same batches, there are bytes to come by which a session
/// of them, in which no more are committed, comes to its end. So what `sessions_end_plainly` asks
/// for can be, for each owner that starts and each that stands behind what is sealed.
pub fn sessions_are_served()
    ensures loaded { (secret : Secret) (batches : List (List Command)) (held : Held)
        (es : List Entry) → IsOwnerAfter secret batches held es
        → IsStoreAfter secret batches (store_behind (public_of_secret secret) es)
        × IsSome (store_behind (public_of_secret secret) es).installed }
    ensures session { (secret : Secret) (batches : List (List Command)) (held : Held)
        (es : List Entry) (s : StoreState) → IsOwnerAfter secret batches held es
        → IsStoreAfter secret batches s → IsSome s.installed
        → (input : Input Held Entry) × IsIdle held es s input }
{}
