//! Lemmas of lists, options, tests and orders that name no word of this project.
//!
//! It has proofs alone, and stands on std. In the order of reading: `proofs/Lists.antt`, what holds of each
//! element where lists are joined, filtered or searched; `proofs/Tests.antt`, what a test says where it passes;
//! `proofs/Places.antt`, what stands at a place; `proofs/Told.antt`, what is said where there is a value;
//! `proofs/Totals.antt`, sums over lists; `proofs/Filters.antt`, filters, and permutations key by key;
//! `proofs/Permuted.antt`, what lists with the same sums have in common; `proofs/Numbered.antt`, lists that
//! fall apart by a number of each element.
#![tactic(auto)]
