//! Rows of a query's sources, one of each, side by side.
ghost use Rattle.std.specs.Prelude.{◌≡◌, [], ◌∷◌};
ghost use Rattle.vo_spec.specs.declared.values.Value.{Value as Plain};
ghost use Rattle.vo_spec.specs.Lent.{value_of};
ghost use Rattle.vo_spec.specs.Results.{ColumnPlace as PlainColumnPlace, place_value};
ghost use Rattle.query_binding.specs.HeldSources.{place_seen};

use crate::row_views::RowView;
use query_binding::ColumnPlace;
use vo_spec::ValueRef;

/// Rows, one of each source, as what they have at each column's place.
pub trait PlaceValues {
    ghost values: { Self → PlainColumnPlace → Plain };

    /// The value of the column at the place.
    fn value(&self, place: ColumnPlace) -> ValueRef<'_>
        ensures { value_of result ≡ values self.now (place_seen place) };
}

/// A left row without a right one.
#[derive_where(Clone, Copy)]
pub struct LeftRow<'r, L> {
    pub left: &'r L,
}

/// A left row with a right one beside it.
#[derive_where(Clone, Copy)]
pub struct RowPair<'r, L, R> {
    pub left: &'r L,
    pub right: &'r R,
}

impl<L: RowView> PlaceValues for LeftRow<'_, L> {
    ghost values = { λ rows. place_value (L.row_view rows.left.now ∷ []) };

    fn value(&self, place: ColumnPlace) -> ValueRef<'_> {
        match place.bound_source {
            0 => self.left.field(place.column),
            _ => ValueRef::Bool(false),
        }
    }
}

impl<L: RowView, R: RowView> PlaceValues for RowPair<'_, L, R> {
    ghost values = { λ rows. place_value
        (L.row_view rows.left.now ∷ R.row_view rows.right.now ∷ []) };

    fn value(&self, place: ColumnPlace) -> ValueRef<'_> {
        match place.bound_source {
            0 => self.left.field(place.column),
            1 => self.right.field(place.column),
            _ => ValueRef::Bool(false),
        }
    }
}
