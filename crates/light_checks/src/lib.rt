//! No check that the rules ask for in a short unit is too heavy to be numbered, and no sum of one reaches the machine's limit.
#![tactic(auto)]

mod expressions;
mod laws;
mod structs;
mod sums;

pub use expressions::an_expression_alone_is_refused_where_no_rule_derives_it;
pub use laws::{
    a_condition_has_numbers, a_refused_body_has_a_line_without_rule,
    a_refused_condition_has_no_rule, a_refused_statement_has_no_rule,
    a_refused_unit_has_its_reason, a_short_unit_has_a_table_within, a_simple_statement_has_numbers,
    an_expression_has_numbers, light_checks_have_numbers,
};
pub use structs::structs_are_laid_out_again;
pub use sums::{
    a_pointers_bounds_reach_no_limit, a_small_form_reaches_no_limit, derived_checks_are_small,
};
