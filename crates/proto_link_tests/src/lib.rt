//! Tests of `proto_lex`, `comment_texts`, `proto_parse`, `proto_decl` and `proto_link`, by their public calls.
#![tactic(auto)]

#[cfg(test)]
mod answers;
#[cfg(test)]
mod calls;
#[cfg(test)]
mod cleaned;
#[cfg(test)]
mod declared;
#[cfg(test)]
mod details;
#[cfg(test)]
mod displays;
#[cfg(test)]
mod doubts;
#[cfg(test)]
mod facts;
#[cfg(test)]
mod generated;
#[cfg(test)]
mod items;
#[cfg(test)]
mod kept;
#[cfg(test)]
mod large;
#[cfg(test)]
mod lexer;
#[cfg(test)]
mod listed;
#[cfg(test)]
mod meanings;
#[cfg(test)]
mod nul;
#[cfg(test)]
mod prefixes;
#[cfg(test)]
mod reached;
#[cfg(test)]
mod rows;
#[cfg(test)]
mod scans;
#[cfg(test)]
mod scopes;
#[cfg(test)]
mod sources;
#[cfg(test)]
mod text;
#[cfg(test)]
mod trees;
