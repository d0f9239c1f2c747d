//! Tests of the machine and what it runs, of symbolic runs, and of the fork tree and its workers.
#![tactic(auto)]

#[cfg(test)]
mod of_cow_pages;
#[cfg(test)]
mod of_elf_load;
#[cfg(test)]
mod of_fork_tree;
#[cfg(test)]
mod of_free_nodes;
#[cfg(test)]
mod of_node_split;
#[cfg(test)]
mod of_prog_gen;
#[cfg(test)]
mod of_row_files;
#[cfg(test)]
mod of_rv_decode;
#[cfg(test)]
mod of_rv_machine;
#[cfg(test)]
mod of_sym_machine;
#[cfg(test)]
mod of_sym_state;
#[cfg(test)]
mod of_tree_core;
#[cfg(test)]
mod of_turn_lock;
#[cfg(test)]
mod of_work_gate;
#[cfg(test)]
mod of_work_run;
#[cfg(test)]
mod programs;
#[cfg(test)]
mod tally;
