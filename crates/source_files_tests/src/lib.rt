//! Tests of `globs`, `source_tree` and `index_pool`, and of `source_files` on files of the folder that they run in, by
//! their public calls.
#![tactic(auto)]

#[cfg(test)]
mod called;
#[cfg(test)]
mod closed_streams;
#[cfg(test)]
mod counts;
#[cfg(test)]
mod displays;
#[cfg(test)]
mod excluded;
#[cfg(test)]
mod faults;
#[cfg(test)]
mod free_folders;
#[cfg(test)]
mod left_out;
#[cfg(test)]
mod limits;
#[cfg(test)]
mod lists;
#[cfg(test)]
mod mended;
#[cfg(test)]
mod numbered;
#[cfg(test)]
mod out_folders;
#[cfg(test)]
mod outputs;
#[cfg(test)]
mod patterns;
#[cfg(test)]
mod pool_calls;
#[cfg(test)]
mod roots;
#[cfg(test)]
mod second_looks;
#[cfg(test)]
mod short_reads;
#[cfg(test)]
mod tree_calls;
#[cfg(test)]
mod trees;
#[cfg(test)]
mod waiting;
#[cfg(test)]
mod well_known;
#[cfg(test)]
mod wide_folders;
