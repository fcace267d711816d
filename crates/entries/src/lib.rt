// Every entry for other languages: numbers and slices only. One static library holds them all.
#![tactic(auto)]

mod aiger_entry;
mod answers;
mod build_entry;
mod depth_entry;
mod explain_entry;
mod fold_entry;
mod list_entry;
mod merge_entry;
mod plan_entry;
mod read_entry;
mod replay_entry;
mod rule_number;
mod sheet_entry;
mod write_entry;
