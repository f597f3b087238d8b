//! What is released is never lost: not by a run that ends, nor by one that the machine stops.
ghost use Rattle.std.specs.Prelude.{ℕ, List, []};
ghost use Rattle.outside.specs.DiskModel.{DiskModel, fresh};
ghost use Rattle.vo_spec.specs.declared.records.Record.{Record};
ghost use Rattle.honest_peers.specs.Crashes.{GoesThrough, KeepsReleased};

/// A disk goes through any number of stages: a run of `own` that comes to its end, of any key and
/// over calls of the outside that fail or not; a journal that is in use when the machine stops,
/// inside a call or between two; a stop while none is. Whatever a stop leaves then is a journal
/// that has each record which was released at its version, and no two of these records are of one
/// version, for which a key has one leaf.
pub fn crashes_lose_nothing_released()
    ensures { (found : List ℕ) (released : List (List Record)) (drive : DiskModel)
        (all : List Record) → GoesThrough released (fresh found) [] drive all
        → KeepsReleased drive all }
{}
