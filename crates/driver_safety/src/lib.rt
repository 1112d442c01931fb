//! What an accepted driver cannot do, as laws over the definitions alone: where a state is good, what the rules derive evaluates to what they take it for, or fails a
//! check, and leaves a good state. There is no code: each law is a public function without a body, whose contract is the law.
#![tactic(auto)]

mod laws;

pub use laws::{
    every_answer_is_taken, every_answer_leaves_good, every_assignment_is_sound,
    every_call_is_sound, every_call_of_the_kernel_is_lawful, every_first_frame_is_good,
    every_function_has_its_head, every_function_has_its_slots, every_grant_keeps_the_memory,
    every_grant_leaves_good, every_handler_takes_a_number, every_load_is_good,
    every_place_is_sound, every_result_is_taken, every_return_is_sound, every_run_is_safe,
    every_start_is_good, every_step_is_safe, every_step_stays_inside, every_table_has_its_types,
    every_text_can_be_loaded, every_text_is_readable, every_unit_has_arms, every_value_is_sound,
    every_zero_is_sound,
};
