//! Calls each law of the crates under test once and asserts nothing: a law does nothing, and its
//! clause is proved.
use atl_action::{nobody_is_taught_twice, units_learn_by_orders, units_study_as_begun};
use atl_instant::days_go_with_men;
use atl_market::pots::{each_pot_is_shared, takers_alone_get};
use atl_market::produce::units_produce_all_at_once;
use atl_market::recruit::recruits_join_all_at_once;
use atl_market::shares::splitting_keeps_others;
use atl_market::tax::tax_pays_all_at_once;
use atl_market::{units_trade_all_at_once, work_pays_all_at_once};
use atl_month::{
    each_unit_can_spare, months_have_no_order, one_phase_has_room, phases_move_little,
};
use atl_phase::{mailings_have_no_order, one_order_counts, orders_are_in_mailings};
use atl_report::{only_what_is_seen_is_reported, others_events_are_not_reported};

#[test]
fn states_laws_of_the_month() {
    mailings_have_no_order();
    orders_are_in_mailings();
    one_order_counts();
    takers_alone_get();
    each_pot_is_shared();
    splitting_keeps_others();
    days_go_with_men();
    tax_pays_all_at_once();
    recruits_join_all_at_once();
    units_produce_all_at_once();
    work_pays_all_at_once();
    units_trade_all_at_once();
    nobody_is_taught_twice();
    units_learn_by_orders();
    units_study_as_begun();
    months_have_no_order();
    phases_move_little();
    one_phase_has_room();
    each_unit_can_spare();
    only_what_is_seen_is_reported();
    others_events_are_not_reported();
}
