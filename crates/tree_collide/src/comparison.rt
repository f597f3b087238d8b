//! Two byte strings of one digest.
ghost use Rattle.std.specs.Prelude.{◌≡◌};
ghost use Rattle.vo_spec.specs.Sha256.{sha256};
ghost use Rattle.tree_collide.specs.Agreements.{HoldsOrCollides};

use vo_spec::Collision;

/// None where the strings are the same, else the two of them.
pub fn compare(first: Vec<u8>, second: Vec<u8>) -> Option<Collision>
    requires { sha256 first.items ≡ sha256 second.items }
    ensures { HoldsOrCollides result (first.items ≡ second.items)
        (λ x y. (x ≡ first.items) × (y ≡ second.items)) }
{
    if first.as_slice() == second.as_slice() {
        return None;
    }
    Some(Collision::new(first, second))
}
