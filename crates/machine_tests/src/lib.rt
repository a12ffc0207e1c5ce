//! Tests of public calls on machines, worlds, scripts, boards and workers, of what no clause says: that those which may
//! want memory succeed where there is some, at which pages clones stall, in order, which texts are no scripts, what a
//! report looks like, which numbers stand behind the names of constants, that threads get their turns and claim each
//! page once, and that a family comes to one report, whoever runs which machine when. They stand here and not in the
//! crates of the calls, since a crate with tests is proved twice, and this one has nothing else.
#![tactic(auto)]

#[cfg(test)]
mod absent;
#[cfg(test)]
mod drive_script_tests;
#[cfg(test)]
mod equal;
#[cfg(test)]
mod families;
#[cfg(test)]
mod fetched;
#[cfg(test)]
mod firsts;
#[cfg(test)]
mod guests;
#[cfg(test)]
mod host_workers_tests;
#[cfg(test)]
mod io_edge_tests;
#[cfg(test)]
mod machine_names_tests;
#[cfg(test)]
mod meeting;
#[cfg(test)]
mod numbers;
#[cfg(test)]
mod page_claims_tests;
#[cfg(test)]
mod run_report_tests;
#[cfg(test)]
mod siblings;
#[cfg(test)]
mod stretches;
#[cfg(test)]
mod texts;
#[cfg(test)]
mod together;
#[cfg(test)]
mod told;
#[cfg(test)]
mod turn_board_tests;
#[cfg(test)]
mod vm_cell_tests;
#[cfg(test)]
mod world_core_tests;
