//! The sources of a query with their tables' schemas, and where a reference's column stands in
//! them.
ghost use Rattle.std.specs.Prelude.{◌≡◌, nat_lt, length, is_some};
ghost use Rattle.std.specs.Option.{option_map_or};
ghost use Rattle.std.specs.List.{list_any, count_by, position_or_len};
ghost use Rattle.vo_spec.specs.Results.{qualifies, means_column_of, no_bound_source, no_schema, bound_source_at, schema_at, place_of, kind_at, ref_kind};
ghost use Rattle.query_binding.specs.HeldSources.{bound_source_seen, bound_sources_seen, place_seen};

use table_list::{column_number, has_column};
use vo_spec::{Kind, Name, Ref, Schema};

/// A source of a query with its table's schema.
#[derive(Clone, Copy)]
pub struct BoundSource<'q> {
    pub alias: &'q Name,
    pub table: &'q Name,
    pub schema: &'q Schema,
}

/// The sources of a query that binds: one, or the two of a join.
#[derive(Clone, Copy)]
pub struct BoundSources<'q> {
    pub left: BoundSource<'q>,
    pub right: Option<BoundSource<'q>>,
}

/// Where a reference's column stands: the number of the source, and of the column in its schema.
#[derive(Clone, Copy, PartialEq, Eq, Debug)]
pub struct ColumnPlace {
    pub bound_source: usize,
    pub column: usize,
}

impl BoundSource<'_> {
    pub fn qualifies(&self, reference: &Ref) -> bool
        ensures { result ≡ qualifies reference.now (bound_source_seen self.now) }
    {
        match &reference.qualifier {
            Some(qualifier) => self.alias.as_bytes() == qualifier.as_bytes(),
            None => true,
        }
    }

    pub fn means_column_of(&self, reference: &Ref) -> bool
        ensures { result ≡ means_column_of reference.now (bound_source_seen self.now) }
    {
        self.qualifies(reference)
            && has_column(self.schema.columns.as_slice(), reference.column.as_bytes())
    }
}

impl<'q> BoundSources<'q> {
    pub fn len(&self) -> usize
        ensures { result ≡ length (bound_sources_seen self.now) }
    {
        match self.right {
            Some(_) => 2,
            None => 1,
        }
    }

    /// The source of this number, from 0.
    pub fn bound_source_at(&self, bound_source: usize) -> Option<BoundSource<'q>>
        ensures there { is_some result
            ≡ nat_lt bound_source (length (bound_sources_seen self.now)) }
        ensures value { option_map_or bound_source_seen result no_bound_source
            ≡ bound_source_at (bound_sources_seen self.now) bound_source }
    {
        match bound_source {
            0 => Some(self.left),
            1 => self.right,
            _ => None,
        }
    }

    pub fn schema_at(&self, bound_source: usize) -> Option<&'q Schema>
        ensures there { is_some result
            ≡ nat_lt bound_source (length (bound_sources_seen self.now)) }
        ensures value { option_map_or (λ s. s.now) result no_schema
            ≡ schema_at (bound_sources_seen self.now) bound_source }
    {
        match self.bound_source_at(bound_source) {
            Some(found) => Some(found.schema),
            None => None,
        }
    }

    /// Whether the qualifier is the alias of a source, or there is none.
    pub(crate) fn qualify(&self, reference: &Ref) -> bool
        ensures { result ≡ list_any (qualifies reference.now) (bound_sources_seen self.now) }
    {
        self.left.qualifies(reference)
            || match &self.right {
                Some(right) => right.qualifies(reference),
                None => false,
            }
    }

    pub(crate) fn mean_column_of(&self, reference: &Ref) -> bool
        ensures { result ≡ list_any (means_column_of reference.now) (bound_sources_seen self.now) }
    {
        self.left.means_column_of(reference)
            || match &self.right {
                Some(right) => right.means_column_of(reference),
                None => false,
            }
    }

    /// Whether two sources have the column.
    pub(crate) fn are_ambiguous(&self, reference: &Ref) -> bool
        ensures { result ≡ nat_lt 1
            (count_by (means_column_of reference.now) (bound_sources_seen self.now)) }
    {
        match &self.right {
            Some(right) => {
                self.left.means_column_of(reference) && right.means_column_of(reference)
            }
            None => false,
        }
    }

    /// The number of the source that has the column, or else how many sources there are.
    fn bound_source_of(&self, reference: &Ref) -> usize
        ensures { result ≡ position_or_len (means_column_of reference.now)
            (bound_sources_seen self.now) }
    {
        if self.left.means_column_of(reference) {
            return 0;
        }
        match &self.right {
            Some(right) if !right.means_column_of(reference) => 2,
            _ => 1,
        }
    }

    /// Where the reference's column stands, past all columns where no source has it.
    pub fn place_of(&self, reference: &Ref) -> ColumnPlace
        ensures { place_seen result ≡ place_of (bound_sources_seen self.now) reference.now }
    {
        let bound_source = self.bound_source_of(reference);
        let column = match self.schema_at(bound_source) {
            Some(schema) => column_number(schema.columns.as_slice(), reference.column.as_bytes()),
            None => 0,
        };
        ColumnPlace {
            bound_source,
            column,
        }
    }

    /// The kind of the column at the place, past all columns BIGINT.
    pub fn kind_at(&self, place: ColumnPlace) -> Kind
        ensures { result ≡ kind_at (bound_sources_seen self.now) (place_seen place) }
    {
        match self.schema_at(place.bound_source) {
            Some(schema) => table_list::kind_at(schema.columns.as_slice(), place.column),
            None => Kind::Int,
        }
    }
}
