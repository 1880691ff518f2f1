//! Houses in which an allocation or a thread is refused, as tests. `tests/refuse-allocations` runs each with each
//! allocation refused in turn, and `tests/refuse-threads` with each thread: they assert what may come, and print what came.
#![tactic(auto)]

#[cfg(test)]
mod tests;
