//! Longest runs in a row: who has a core after each of some orders.

ghost use Rattle.std.specs.Prelude.{◌≡◌, ◌+◌, ◌<◌, ◌≤◌, ◌==◌, Bool, IfSome, None, Some, drop, length, slice_index_or};
ghost use Rattle.arb_draw.specs.Spans.{begins, run_at, run_length};

/// A longest run of one thread in a row, from an index on and up to another, which isn't in it.
#[derive(Clone, Copy, Debug, PartialEq, Eq)]
pub struct Span {
    /// The thread's number among all threads.
    pub thread: u16,
    /// The first index of the run.
    pub from: usize,
    /// The index after its last.
    pub to: usize,
}

/// The first index from `index` on that isn't the thread's.
fn run_end(row: &[Option<u16>], thread: u16, index: usize) -> usize
    requires { index ≤ length row.now }
    ensures run { result ≡ index + run_length thread (drop index row.now) }
    ensures within { result ≤ length row.now }
{
    for end in index..row.len() {
        if row[end] != Some(thread) {
            return end;
        }
    }
    row.len()
}

/// Whether a thread's run begins at an index where the thread is: it isn't at the index before.
fn begins(row: &[Option<u16>], thread: u16, index: usize) -> bool
    requires { index < length row.now }
    ensures { result ≡ begins thread row.now index }
{
    index == 0 || row[index - 1] != Some(thread)
}

/// The run that begins at an index, if one does.
pub(crate) fn run_at(row: &[Option<u16>], index: usize) -> Option<Span>
    requires { index < length row.now }
    ensures run { result ≡ run_at row.now index }
    ensures within { IfSome result (λ span. (span.from < length row.now) × (span.to ≤ length row.now)) }
{
    let thread = row[index]?;
    if begins(row, thread, index) {
        Some(Span {
            thread,
            from: index,
            to: run_end(row, thread, index),
        })
    } else {
        None
    }
}
