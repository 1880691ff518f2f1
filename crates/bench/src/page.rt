//! The part `page`: the reading of a page word.
//!
//! A thread is on a core. One reader reads its place word again and again: alone, with other readers, and while a writer
//! stores that word. Beside it the same word of a table without a rule is loaded, in the same loops.
//!
//! Words are read in two ways. Chained, each read waits for the value that was read before, since that one says which word
//! is next: so a read takes as long as its value takes to come. Otherwise no read waits for another, and the processor
//! has several under way: so a read takes as long as it keeps others from being made.

ghost use Rattle.arb_model.specs.Layout.{word_count};
ghost use Rattle.std.specs.Prelude.{◌<◌, ◌≡◌};

use crate::house::thread;
use crate::machine::{NARROW, open_pages};
use crate::meanwhile::{Signal, place, read_until, store_on};
use crate::roles::await_count;
use crate::times::{RUNS, print_pieces};
use crate::words::{BareTable, BareWriter, PageWords, Words};
use anyhow::{Result, ensure};
use arb_config::Topology;
use arb_core::ClientId;
use arb_core::layout::{FIRST_CORE, FIRST_PLACE};
use arb_house::Publisher;
use arb_page::{Blank, Set};
use std::marker::Brand;
use std::rt::Clock;
use std::sync::atomic::Ordering::SeqCst;
use std::thread::{Threads, join, map_vec};
use std::time::{Duration, Instant};

/// How many words are read for one time.
const READS: u64 = 500_000;

/// The settings that are timed, with their names: how many others read the same word meanwhile, or `None` where the writer
/// stores it.
const SETTINGS: [(&str, Option<u64>); 4] = [
    ("alone", Some(0)),
    ("one_reader", Some(1)),
    ("three_readers", Some(3)),
    ("writer", None),
];

/// What is timed in each setting, with the names: words of pages and of the table without a rule, apart and then chained.
const READINGS: [&str; 4] = ["read", "load", "chained_read", "chained_load"];

/// 0 where a place word names the first core, asked back or not, and some other number elsewhere.
fn strangeness(word: u64) -> u64 {
    (word | 1) ^ (FIRST_CORE | 1)
}

/// Reads the place word of the first thread so often. Gives 0 where each time it was on the first core.
pub fn read_words<W: Words>(words: &mut W, reads: u64) -> u64 {
    let mut strange = 0;
    for _ in 0..reads {
        strange |= strangeness(words.word(FIRST_PLACE));
    }
    strange
}

/// The place word of the first thread where a value is that of a thread on the first core: so its read waits for the value.
fn word_after(value: u64) -> usize
    ensures { result < word_count }
{
    FIRST_PLACE + (value / 8 % 8) as usize
}

/// Reads the same word so often, each time with the value before. Gives 0 where each time it was on the first core.
fn chain_words<W: Words>(words: &mut W, reads: u64) -> u64 {
    let mut strange = 0;
    let mut value = FIRST_CORE;
    for _ in 0..reads {
        value = words.word(word_after(value));
        strange |= strangeness(value);
    }
    strange
}

/// Times words that are read apart or chained.
fn time_words<W: Words, R: Clock>(
    rt: &R,
    words: &mut W,
    chained: bool,
    times: &mut Vec<Duration>,
) -> Result<()> {
    for _ in 0..RUNS {
        let start = Instant::now(rt)?;
        let strange = if chained {
            chain_words(words, READS)
        } else {
            read_words(words, READS)
        };
        times.push(start.elapsed(rt)?)?;
        ensure!(strange == 0, "a word was read that was never stored");
    }
    Ok(())
}

/// The times of each reading, one after the other.
fn time_all<K: Set, R: Clock + AllocGlobal>(
    rt: &R,
    mut pages: PageWords<K>,
    mut bare: &BareTable,
) -> Result<Vec<Duration>> {
    let mut times = Vec::new(rt.alloc());
    for chained in [false, true] {
        time_words(rt, &mut pages, chained, &mut times)?;
        time_words(rt, &mut bare, chained, &mut times)?;
    }
    Ok(times)
}

/// Times a reader once the others have begun, and lets them end.
fn time_beside<K: Set, R: Clock + AllocGlobal>(
    rt: &R,
    pages: PageWords<K>,
    bare: &BareTable,
    others: u64,
    signal: &Signal,
) -> Result<Vec<Duration>> {
    let begun = await_count(&signal.begun, others);
    let times = time_all(rt, pages, bare);
    signal.over.store(true, SeqCst);
    ensure!(begun, "a thread did not start");
    times
}

/// Times a reader on new pages and a new table without a rule, while other threads read or store.
fn time_setting<K: Set + Send + Sync, R: Threads + Clock + AllocGlobal + Sync>(
    rt: &R,
    topology: &Topology,
    blank: Blank,
    others: Option<u64>,
) -> Result<Vec<Duration>>
    requires name { (blank.table ≡ K.table) × (blank.machine ≡ K.machine) }
    requires topology { blank.machine ≡ topology.now }
{
    let thread = thread(0, 0)?;
    let (bare, seat) = BareTable::open(rt.alloc())?;
    let bare = &bare;
    let mut writer = BareWriter::new(bare, seat);
    let (pages, mut page_writer) = blank.name::<K>();
    let mut reader = page_writer.tell(&pages).into_reader();
    let mut publisher = Publisher::new(topology, page_writer);
    place(&pages, &mut publisher, &mut writer, thread);
    reader.learn(&pages, publisher.tell(&pages));
    let words = PageWords {
        pages: &pages,
        reader,
    };
    match others {
        Some(count) => time_among_readers(rt, words, bare, count),
        None => time_beside_writer(rt, words, bare, publisher, writer, thread),
    }
}

/// Times a reader while so many others read.
fn time_among_readers<K: Set + Send + Sync, R: Threads + Clock + AllocGlobal + Sync>(
    rt: &R,
    mut words: PageWords<K>,
    bare: &BareTable,
    count: u64,
) -> Result<Vec<Duration>> {
    let (pages, signal) = (words.pages, &Signal::new());
    let mut readers = Vec::new(rt.alloc());
    for _ in 0..count {
        // it has seen what this reader has
        let reader = words.reader.tell(pages).into_reader();
        readers.push(PageWords { pages, reader })?;
    }
    let (read, times) = join(
        rt,
        move || map_vec(rt, readers, &|reader| read_until(reader, bare, signal)),
        move || time_beside(rt, words, bare, count, signal),
    );
    let all_stored = read?.iter().all(|strange| *strange == 0);
    ensure!(all_stored, "a word was read that was never stored");
    times
}

/// Times a reader while a writer stores.
fn time_beside_writer<K: Set + Send + Sync, R: Threads + Clock + AllocGlobal + Sync>(
    rt: &R,
    words: PageWords<K>,
    bare: &BareTable,
    publisher: Publisher<K>,
    writer: BareWriter,
    thread: ClientId,
) -> Result<Vec<Duration>> {
    let (pages, signal) = (words.pages, &Signal::new());
    let (stored, times) = join(
        rt,
        move || store_on(pages, publisher, writer, thread, signal),
        move || time_beside(rt, words, bare, 1, signal),
    );
    ensure!(stored, "the writer reached the limit on orders");
    times
}

/// Prints how many words were read in a setting, or how long one took.
fn print_reading<R: Print + AllocGlobal>(
    rt: &R,
    reading: &str,
    setting: &str,
    times: Vec<Duration>,
    timed: bool,
) -> Result<()> {
    let name = format!(in rt.alloc(); "page.{reading}.{setting}")?;
    let counted = "words, each names the first core";
    print_pieces(rt, name.as_str(), times, READS, counted, timed)
}

/// Reads words in each setting. Prints what was read, or how long a word took.
pub fn page<R: Threads + Clock + Print + AllocGlobal + Sync>(rt: &R, timed: bool) -> Result<()> {
    let topology = NARROW.topology(rt.alloc())?;
    for (setting, others) in SETTINGS {
        let blank = open_pages(rt.alloc(), &topology)?;
        let mut times = time_setting::<Brand, _>(rt, &topology, blank, others)?;
        for reading in READINGS {
            let later = times.split_off(RUNS.min(times.len()))?;
            print_reading(rt, reading, setting, times, timed)?;
            times = later;
        }
    }
    Ok(())
}
