//! A driver for programs in C, and in any language that calls C: `include/mdb.h` declares what is here. A caller that is not Rattle is checked by
//! nothing, so each call tests what it can, and requires no more than its types say.
#![tactic(auto)]

mod address_list;
mod callers;
mod check_numbers;
mod checks;
mod connections;
mod document_faults;
mod documents;
mod driver_pools;
mod fact_list;
mod fact_parts;
mod facts;
mod fleets;
mod found_hosts;
mod given;
mod host_text;
mod known;
mod lines;
mod monitors;
mod next_checks;
mod outcomes;
mod pool_callers;
mod pool_causes;
mod pool_dues;
mod pool_opening;
mod pool_pins;
mod pool_state_numbers;
mod pool_states;
mod pool_steps;
mod pool_workers;
mod pools;
mod rescan;
mod server_numbers;
mod server_texts;
mod timers;
mod told_steps;
mod topology_numbers;
mod topology_texts;
mod txt_records;
mod txt_text;
mod types;
mod which;
