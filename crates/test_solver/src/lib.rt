//! Tests of what answers questions: terms and their tables, formulas, logs, the search and the circuits, slices, answers that are
//! kept, samples, and `ask`.
#![tactic(auto)]

#[cfg(test)]
mod of_bit_blast;
#[cfg(test)]
mod of_bv_dag;
#[cfg(test)]
mod of_cdcl_core;
#[cfg(test)]
mod of_cnf_form;
#[cfg(test)]
mod of_cow_vec;
#[cfg(test)]
mod of_model_pool;
#[cfg(test)]
mod of_proof_check;
#[cfg(test)]
mod of_query_cache;
#[cfg(test)]
mod of_query_decide;
#[cfg(test)]
mod of_query_front;
#[cfg(test)]
mod of_query_pick;
#[cfg(test)]
mod of_query_slice;
#[cfg(test)]
mod of_term_simplify;
#[cfg(test)]
mod of_term_table;
#[cfg(test)]
mod operation_rows;
