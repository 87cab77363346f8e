//! Tests that call each published function of the libraries once, as a program that uses them would, and tests of
//! `index_hooks`, `scip_symbol` and `scip_model`.
#![tactic(auto)]

#[cfg(test)]
mod adding;
#[cfg(test)]
mod asking;
#[cfg(test)]
mod broken;
#[cfg(test)]
mod document_calls;
#[cfg(test)]
mod documents;
#[cfg(test)]
mod entities;
#[cfg(test)]
mod hook_calls;
#[cfg(test)]
mod index_hooks_calls;
#[cfg(test)]
mod index_pool_calls;
#[cfg(test)]
mod listed;
#[cfg(test)]
mod merging;
#[cfg(test)]
mod own_hooks;
#[cfg(test)]
mod proto_decl_calls;
#[cfg(test)]
mod proto_lex_calls;
#[cfg(test)]
mod proto_link_calls;
#[cfg(test)]
mod proto_parse_calls;
#[cfg(test)]
mod protoscip_calls;
#[cfg(test)]
mod ready;
#[cfg(test)]
mod scip_model_calls;
#[cfg(test)]
mod scip_query_calls;
#[cfg(test)]
mod scip_symbol_calls;
#[cfg(test)]
mod scip_wire_calls;
#[cfg(test)]
mod shared;
#[cfg(test)]
mod symbols;
