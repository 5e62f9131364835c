// Each law is a function that can be called.

#[test]
fn laws_of_the_lane_are_there() {
    core_model::each_event_keeps_the_lane_lawful();
    core_model::a_step_is_its_callers_alone();
    core_model::starts_and_ends_are_noted();
    core_model::a_step_stores_into_one_word();
    core_model::a_lane_opens_as_its_table();
    core_model::ended_commands_stand_in_the_history();
    core_model::held_announcements_are_left();
    core_model::held_rows_are_left();
    core_model::each_row_has_one_use();
    core_model::counts_stay_in_range();
    core_model::words_can_be_coded();
    core_model::words_show_the_last_queue();
    core_model::announced_batch_is_its_owners();
    step_core::every_schedule_leaves_a_lawful_lane();
    step_core::groups_are_the_commands_that_were_started();
}
