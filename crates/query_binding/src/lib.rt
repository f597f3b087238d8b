//! The sources of a query, and whether the tables that it is asked of bear out its names and kinds.
#![tactic(auto)]

mod bind_fault;
mod binding;
mod bound_sources;
mod catalogs;
mod comparisons;
mod headers;
mod joins;
mod references;
mod schemas;
mod shown_columns;

pub use bind_fault::BindFault;
pub use binding::bind_sources;
pub use bound_sources::{BoundSource, BoundSources, ColumnPlace};
pub use headers::header;
pub use schemas::Schemas;
pub use shown_columns::shown_places;
