//! Pools for C, behind handles: the exports alone. `include/yuzgont.h` declares the calls as C makes them, and docs/EMBEDDING.md says what a host
//! has to know. The library that they stand on is `c_api`: a static library exports its own functions and no others.
//!
//! The contract of each export is that of the call: the pool has made a step, or is unchanged. On a handle without a pool a call answers NoPool,
//! and the handle stays without one; only `yuzgont_create` makes a pool there, and `yuzgont_free` does nothing.
//!
//! C has to keep these rules: no pointer is null, a handle is zero at first and is then written by these calls only, it is never copied, and
//! calls on one handle come one after another. What a handle owns lives until `yuzgont_free`, and no call keeps a pointer of C. The header's own
//! functions check these rules as far as C can. Nothing here waits or takes a lock.
#![tactic(auto)]

pub mod exports;
