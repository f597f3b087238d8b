//! Two byte strings of one digest.
ghost use Rattle.std.specs.Prelude.{◌≡◌};
ghost use Rattle.vo_spec.specs.Sha256.{sha256};
ghost use Rattle.lms_forge.specs.Comparing.{Compared};

use vo_spec::Collision;

/// None where the strings are the same, else the two of them.
pub(crate) fn compare(first: Vec<u8>, second: Vec<u8>) -> Option<Collision>
    requires { sha256 first.items ≡ sha256 second.items }
    ensures { Compared first.items second.items result }
{
    if first.as_slice() == second.as_slice() {
        return None;
    }
    Some(Collision::new(first, second))
}
