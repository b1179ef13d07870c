//! Hash keys of GCM (SP 800-38D, 6.3 to 7.2): how many of them make a forged tag right. There is no code: each law is
//! the contract of a function that does nothing.
//!
//! Proved of messages (`laws`): the blocks are a field, a polynomial over it has at most as many roots as its degree,
//! and GHASH is almost XOR-universal. A tag of GCM is the hash of the message under the hash key, which is AES of the
//! block 0, plus a mask, which is AES of the IV's first counter block. Whatever was sealed under a key, with whatever
//! masks: at most n hash keys, of all 2^128, make a given tag right that was not sealed, of a message with
//! authenticated octets, where n is the number of blocks of the longest message; and if no IV was used twice, what was
//! sealed allows every hash key.
//!
//! No law is about probability, or says that AES gives blocks that look random.
#![tactic(auto)]

pub mod laws;
