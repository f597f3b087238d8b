//! What a column may show.
ghost use Rattle.std.specs.Prelude.{◌≡◌, ◌&&◌};
ghost use Rattle.vo_spec.specs.Lent.{value_of};
ghost use Rattle.vo_spec.specs.Tables.{allows as may_have};
ghost use Rattle.vo_spec.specs.Values.{is_of_kind};

use crate::columns::takes;
use crate::nulls::allows;
use vo_spec::{Column, ValueRef};

/// Whether the column takes the value: it is of the column's kind, and NULL only where the column
/// is nullable.
// Inlined: asked of each cell that is shown.
#[inline(always)]
pub fn may_show(column: &Column, value: ValueRef<'_>) -> bool
    ensures { result ≡ (is_of_kind column.now.kind (value_of value.entry)
        && may_have column.now (value_of value.entry)) }
{
    takes(column.kind, value) && allows(column, value)
}

#[cfg(test)]
mod tests {
    use super::*;
    use vo_spec::{Kind, Name};

    #[test]
    fn null_shows_in_nullable_columns_alone(rt: HostRuntime) {
        let mut column = Column {
            name: Name::from_vec(Vec::new(rt.alloc())),
            kind: Kind::Int,
            nullable: false,
        };
        assert!(rt; may_show(&column, ValueRef::Int(7)));
        assert!(rt; !may_show(&column, ValueRef::Text(b"7")));
        assert!(rt; !may_show(&column, ValueRef::Null));
        column.nullable = true;
        assert!(rt; may_show(&column, ValueRef::Null));
    }
}
