//! Law: the work that a command is does to a tree what the command means.
ghost use Rattle.std.specs.Prelude.{◌≡◌, Ok, Some, None, IfSome};
ghost use Rattle.vo_spec.specs.declared.tables.Command.{Command};
ghost use Rattle.vo_spec.specs.Honest.{Stored, tree_after};
ghost use Rattle.mb_update.specs.declared.ops.Op.{Op};
ghost use Rattle.row_works.specs.Operations.{changed_tree, operation};

/// A command's work makes of its table's tree what the command makes of it, and a command without
/// one leaves it as it is.
pub fn operations_do_what_commands_do()
    ensures some { (c : Command) (s : Stored) (op : Op) → operation s.schema c ≡ Some op
        → tree_after c s ≡ changed_tree op s.tree }
    ensures none { (c : Command) (s : Stored) → operation s.schema c ≡ None
        → tree_after c s ≡ Ok s.tree }
{}
