//! Predicates, reads and answers, and the slice of a row's live columns (Cassandra's slice reads).
//!
//! Nothing here knows of shards or of how a table is kept.
#![tactic(auto)]

mod column;
mod law;
mod live;
mod meeting;
mod ordering;
mod predicate;
mod read;
mod selecting;

pub use column::{Column, Columns};
pub use law::{
    live_columns_are_the_table, normal_forms_leave_what_is_met, parts_make_the_same_of_a_row,
    ranges_meet_where_their_ends_do, reads_rest_on_the_same, rows_rest_on_ranges_that_are_met,
    worked_meetings, worked_meetings_of_cut_walks, worked_rests,
};
pub use live::{columns_changed, live_columns};
pub use meeting::has_name_between;
pub use ordering::{are_in_order, set_of};
pub use predicate::{Names, Predicate, check_range};
pub use read::{Answer, AnsweredRow, Keys, Read};
pub use selecting::select;
