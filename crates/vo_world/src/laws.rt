//! What holds of every schedule, as the contract of a function that does nothing.
ghost use Rattle.std.specs.Prelude.{ℕ, List};
ghost use Rattle.vo_spec.specs.Secret.{Secret};
ghost use Rattle.vo_laws.specs.Sealing.{SignsValidly};
ghost use Rattle.vo_world.specs.declared.events.Event.{Event};
ghost use Rattle.vo_world.specs.declared.events.Said.{Said};
ghost use Rattle.vo_world.specs.Runs.{Runs};
ghost use Rattle.vo_world.specs.Soundness.{IsSound};
ghost use Rattle.vo_world.specs.Steps.{start};
ghost use Rattle.vo_world.specs.WorldModel.{WorldModel};

/// Whatever events come, in whatever order and with whatever bytes: the journal is the owner's; no
/// stop takes a released record away, and no two of these are of one version; no client's versions
/// fall; and what a client accepted an audit by the journal judges, and calls unsigned only where
/// the record was never released.
pub fn schedules_are_sound()
    ensures { (key : Secret) (clients : ℕ) (events : List Event) (said : List Said)
        (w : WorldModel) → SignsValidly key → Runs (start key clients) events said w → IsSound w }
{}
