//! What the stories of the sites of all data centres are together.
//!
//! Where what came to each site was sent by an actor of its sender's site, the journals of all sites are those of a run: so all that is
//! promised of runs is promised of what the sites answered. And a site that does its steps again, as after a crash, goes on from where
//! it was.
#![tactic(auto)]

mod law;

pub use law::{
    answers_are_meant, answers_of_sites, idle_sites_have_answered, one_site_comes_back,
    one_site_is_right, outcomes_are_told, same_steps_same_story, sites_are_a_run, sites_come_back,
};
