//! Queries bound to tables, their plans, what these need of the tables' trees, and what they show
//! of rows.
#![tactic(auto)]

mod answers;
mod binding;
mod bound_cond;
mod bound_query;
mod comparisons;
mod conjuncts;
mod copies;
mod intervals;
mod keys;
mod laws;
mod left_interval;
mod named_cells;
mod needs;
mod planning;
mod plans;
mod row_views;
mod rows;
mod truths;
mod used_tables;
mod value_order;

pub use answers::{keep_first_rows, push_alone, push_pair, push_pairs};
pub use binding::bind;
pub use bound_cond::{BoundCond, BoundOperand, BoundTest, Conjunct};
pub use bound_query::{BoundJoin, Query};
pub use conjuncts::conjuncts_of;
pub use copies::copy_need;
pub use keys::value_of_key;
pub use laws::{bindings_keep_conditions, plans_keep_needs, plans_keep_results};
pub use needs::{has_join_value, is_narrow, meets_left, right_need};
pub use planning::plan;
pub use plans::Plan;
pub use query_binding::{BindFault, BoundSource, BoundSources, ColumnPlace, Schemas, header};
pub use row_views::{RowView, value_at};
pub use rows::{LeftRow, PlaceValues, RowPair};
pub use truths::all_hold;
pub use used_tables::{has_one_tree, same_table, tables_used};
pub use vo_spec::{Catalog, Interval, Need, QueryText};
