//! The command line.

use arb_config::MAX_MANAGED;
use arb_draw::{Choice, Scale};
use clap::{Arg, ArgAction, ArgMatches, Command, Error};
use std::alloc::{AllocError, Global};
use std::convert::AsStr;

/// What the command line asks for.
#[derive(Clone, Copy)]
pub enum Task<'a> {
    /// The due numbers on a machine with so many managed cores, 1 to 128.
    Due { cores: u8 },
    /// Work on the machine of a configuration file.
    OnMachine { file: &'a str, work: Work },
}

/// What is done with a machine.
#[derive(Clone, Copy)]
pub enum Work {
    /// It is described in a line.
    Check,
    /// It runs the script on standard input.
    Run,
    /// It runs the script by threads: with all orders in script order, or each client's alone.
    Play { ordered: bool },
    /// It answers each line of standard input as it comes, with the machine's limit on orders or without.
    Live { endless: bool },
    /// A run of the script on standard input is drawn.
    Draw { choice: Choice },
}

const DUE_HELP: &str = "\
Reads request rows from standard input and prints the cores due to applications 0 to 15.

A row is an application (0 to 15) and one to eight entries: how many cores (0 to 128) it wants at levels
0, 1 and so on; missing entries are 0. Level 0 is served first, and a level that can't be served in full is
divided evenly, smaller application numbers first. No application has two rows, and one without a row wants
nothing. Lines without a word, or whose first word begins with #, are skipped. The input has at most 4096 bytes.
The output is one line of sixteen numbers.

Example:
  $ printf '0 1 5\\n1 0 5\\n2 0 0 3\\n' | arbiter due --cores 4
  3 1 0 0 0 0 0 0 0 0 0 0 0 0 0 0";

const CHECK_HELP: &str = "\
Reads a machine's configuration from a file and prints what it describes, or why it is refused.

The file is TOML of at most 65536 bytes. It has a table `[[socket]]` for each of 1 to 8 sockets, with two lists
of core numbers (0 to 1023), which may be empty: `managed`, the cores that the arbiter hands out, 1 to 128 over all
sockets, and `unmanaged`, the cores that the ordinary scheduler keeps, at least one over all sockets. No core is
listed twice. At the top it may set `grace`, how many microseconds a thread may keep a core that is asked back
(1 to 1000000000, 10000 if left out), and `orders`, how many orders a run may enter (1 to 1000000, 1000000 if left
out). There are no other keys.

Example:
  $ cat two-sockets.toml
  grace = 10000

  [[socket]]
  managed = [1, 2, 3]
  unmanaged = [0]

  [[socket]]
  managed = [5, 6, 7]
  unmanaged = [4]

  $ arbiter check two-sockets.toml
  ok: 2 sockets, 6 managed, 2 unmanaged, grace 10000, orders 1000000";

const RUN_HELP: &str = "\
Reads a script of orders from standard input, gives them one after another to the arbiter of the machine that FILE
describes, and prints a line for each with its reply, and then who has each core.

A line of a script is a client, an order, and what the order takes. A client is an application (0 to 15) and a thread
of it (0 to 31) with a dot between them, or `clock`. The orders:

  0.0 join          application 0 joins
  0.0 ask 2 0 1     it wants so many cores (0 to 128) at levels 0, 1 and so on, one to eight of them; the rest are 0
  0.0 cap 4         of what it wants, level 0 first, at most so many cores count (0 to 128)
  0.0 block         the thread gives up its core, if it has one, and waits for one
  0.0 retire        the thread gives up its core or its wait, and is unmanaged
  0.0 leave         the application leaves, with all its threads
  0.0 status        how many cores are due, owned and asked back, and how many threads wait
  clock tick 10000  the moment is so many microseconds (0 to 2^64 - 1); who kept a core too long is moved off it

Any order may be written with any client; the arbiter refuses what it doesn't allow. A line has at most 200 bytes.
Lines without a word, or whose first word begins with #, are skipped. The script has at most 16777216 bytes. Once as
many orders were given as the configuration's `orders` allows, each further one is printed as full. `arbiter check
--help` says what FILE holds.

Example:
  $ printf '0.0 join\\n0.0 ask 2\\n0.0 block\\n' | arbiter run --config two-sockets.toml
  0.0 join -> joined
  0.0 ask 2 0 0 0 0 0 0 0 -> due 2
  0.0 block -> now core 1
  core 1 socket 0 owner 0.0
  core 2 socket 0 free
  core 3 socket 0 free
  core 5 socket 1 free
  core 6 socket 1 free
  core 7 socket 1 free";

const PLAY_HELP: &str = "\
Reads a script of orders from standard input and runs it by threads: one serves the arbiter of the machine that FILE
describes, and each client that the script names has one of its own, which gives that client's orders in script order.
Prints a line for each order with its reply, in the order in which they reached the arbiter, and then who has each core.

Without `--ordered` that order may differ from one run to the next. With it, all orders go in script order, and what is
printed is what `arbiter run` prints. Once as many orders were entered as the configuration's `orders` allows, all others
are printed as full, behind them and in script order. The script has at most 16777216 bytes. `arbiter run --help` says
what its lines are, and `arbiter check --help` what FILE holds.

Example:
  $ printf '0.0 join\\n0.0 ask 2\\n1.0 join\\n0.0 block\\n' | arbiter play --config two-sockets.toml --ordered
  0.0 join -> joined
  0.0 ask 2 0 0 0 0 0 0 0 -> due 2
  1.0 join -> joined
  0.0 block -> now core 1
  core 1 socket 0 owner 0.0
  core 2 socket 0 free
  core 3 socket 0 free
  core 5 socket 1 free
  core 6 socket 1 free
  core 7 socket 1 free";

const LIVE_HELP: &str = "\
Reads lines from standard input as they come and answers each at once, so that a program can keep the arbiter of the
machine that FILE describes on a pipe, and a person can try a machine by hand.

A line is a line of a script, as `arbiter run --help` says, or the word `cores`. An order is answered by its line of what
`arbiter run` prints, and `cores` by the line of each core and a line `end`. A line without a word, or whose first word
begins with #, gets no answer. Any other line is answered by `error: ` and what is wrong with it, and changes nothing.
Lines are numbered from 1, each of them. All answers are written before more input is read. At the end of the input,
however much there was, the status is 0. `arbiter check --help` says what FILE holds.

Once as many orders were given as the configuration's `orders` allows, each further one is answered as full. With
`--endless` orders have no limit: no answer is full, and `orders` plays no part.

Example:
  $ printf '0.0 join\\n0.0 ask 2\\n0.0 blok\\n0.0 block\\ncores\\n' | arbiter live --config two-sockets.toml
  0.0 join -> joined
  0.0 ask 2 0 0 0 0 0 0 0 -> due 2
  error: line 3: S2 unknown order
  0.0 block -> now core 1
  core 1 socket 0 owner 0.0
  core 2 socket 0 free
  core 3 socket 0 free
  core 5 socket 1 free
  core 6 socket 1 free
  core 7 socket 1 free
  end";

const DRAW_HELP: &str = "\
Reads a script of orders from standard input, gives them to the arbiter of the machine that FILE describes, and prints
a picture of who had which core: an SVG, which a browser shows.

Time runs to the right: in orders, or with `--by-time` in the clock's microseconds, where orders at one moment share
it. Each managed core has a row, with a bar in the application's colour for each span in which one thread had the core;
where the core is asked back the bar is hatched. Below, each application has a panel of how many cores it owned, was
due and wanted, and how many of its threads waited. A bar says its thread, its core and its orders where the mouse
rests on it.

The script has at most 16777216 bytes. A picture shows at most 2000 orders and 20000 bars: `--from` and `--to` choose
the orders, which are numbered from 1. The script is run from its first order on all the same. `arbiter run --help`
says what its lines are, and `arbiter check --help` what FILE holds.

Example:
  $ printf '0.0 join\\n0.0 ask 2\\n0.0 block\\n' | arbiter draw --config two-sockets.toml > run.svg
  $ grep -c 'class=\"bar\"' run.svg
  1";

const HELP: &str = "\
Divides the cores of a machine among applications that run their own user threads.

Reads from standard input or from a file and prints on standard output. The status is 0 where the work was done;
1 where an input was refused, or reading, writing or memory failed, with one line on standard error that says why;
and 2 where the command line was refused.

Example:
  $ echo '0 2' | arbiter due --cores 4
  2 0 0 0 0 0 0 0 0 0 0 0 0 0 0 0";

/// The name by which the configuration file is looked up.
const FILE: &str = "file";

/// The number of managed cores.
fn cores_arg<'a>(alloc: Global) -> Arg<'a> {
    Arg::new(alloc, "cores")
        .long("cores")
        .value_name("N")
        .required(true)
        .action(ArgAction::Set)
        .value_parser(clap::value_parser!(u8).range(1..=MAX_MANAGED as i64))
        .help("How many managed cores the machine has, 1 to 128")
}

/// `due --cores N`.
fn due_command<'a>(alloc: Global) -> Result<Command<'a>, AllocError> {
    Command::new(alloc, "due")
        .about("Print the cores due to sixteen applications")
        .long_about(DUE_HELP)
        .arg(cores_arg(alloc))
}

/// The configuration file of a machine, which a command must have.
fn file_arg<'a>(alloc: Global, help: &'a str) -> Arg<'a> {
    Arg::new(alloc, FILE)
        .value_name("FILE")
        .required(true)
        .action(ArgAction::Set)
        .help(help)
}

/// `check FILE`.
fn check_command<'a>(alloc: Global) -> Result<Command<'a>, AllocError> {
    Command::new(alloc, "check")
        .about("Check a machine's configuration file")
        .long_about(CHECK_HELP)
        .arg(file_arg(alloc, "The configuration file"))
}

/// A command on a machine: `NAME --config FILE`.
fn machine_command<'a>(
    alloc: Global,
    name: &'a str,
    about: &'a str,
    help: &'a str,
) -> Result<Command<'a>, AllocError> {
    let config = file_arg(alloc, "The machine's configuration file").long("config");
    Command::new(alloc, name)
        .about(about)
        .long_about(help)
        .arg(config)
}

/// An option without a value: `--NAME`.
fn flag_arg<'a>(alloc: Global, name: &'a str, help: &'a str) -> Arg<'a> {
    Arg::new(alloc, name)
        .long(name)
        .action(ArgAction::SetTrue)
        .help(help)
}

/// `play --config FILE [--ordered]`.
fn play_command<'a>(alloc: Global) -> Result<Command<'a>, AllocError> {
    let about = "Run a script of orders by threads, and print what came of each";
    let help = "Give the orders of all clients in script order";
    machine_command(alloc, "play", about, PLAY_HELP)?.arg(flag_arg(alloc, "ordered", help))
}

/// `live --config FILE [--endless]`.
fn live_command<'a>(alloc: Global) -> Result<Command<'a>, AllocError> {
    let about = "Answer each line of orders as it comes";
    let help = "Take orders without a limit, whatever the configuration's `orders` allows";
    machine_command(alloc, "live", about, LIVE_HELP)?.arg(flag_arg(alloc, "endless", help))
}

/// `draw --config FILE [--from N] [--to N] [--by-time]`.
fn draw_command<'a>(alloc: Global) -> Result<Command<'a>, AllocError> {
    let about = "Draw a picture of who had which core over a script";
    machine_command(alloc, "draw", about, DRAW_HELP)?
        .arg(order_arg(
            alloc,
            "from",
            "The first order that is drawn (the script's first if left out)",
        ))?
        .arg(order_arg(
            alloc,
            "to",
            "The last order that is drawn (the script's last if left out)",
        ))?
        .arg(flag_arg(
            alloc,
            "by-time",
            "Let the clock's microseconds run to the right, and not orders",
        ))
}

/// The number of an order, counted from 1.
fn order_arg<'a>(alloc: Global, name: &'a str, help: &'a str) -> Arg<'a> {
    Arg::new(alloc, name)
        .long(name)
        .value_name("N")
        .action(ArgAction::Set)
        .value_parser(clap::value_parser!(u32).range(1..))
        .help(help)
}

/// One command more, where there is memory for both.
fn add<'a>(
    command: Result<Command<'a>, AllocError>,
    more: Result<Command<'a>, AllocError>,
) -> Result<Command<'a>, AllocError> {
    command?.subcommand(more?)
}

/// The program, before its commands.
fn bare_command<'a>(alloc: Global) -> Command<'a> {
    Command::new(alloc, "arbiter")
        .version("0.1.0")
        .about("A proved core arbiter")
        .long_about(HELP)
        .subcommand_required(true)
}

/// All commands.
fn arbiter_command<'a>(alloc: Global) -> Result<Command<'a>, AllocError> {
    let run_about = "Run a script of orders, and print what came of each";
    let command = bare_command(alloc).subcommand(due_command(alloc)?);
    let command = add(command, check_command(alloc));
    let command = add(command, machine_command(alloc, "run", run_about, RUN_HELP));
    let command = add(command, play_command(alloc));
    let command = add(command, live_command(alloc));
    add(command, draw_command(alloc))
}

/// What the words of a command line ask for, the program's own name being the first word; `None` where
/// `clap` gave no command that is known here.
///
/// # Errors
/// `clap`'s own: a refused command line, a text to show (help or the version), or out of memory.
pub fn parse<'a, S: AsStr>(alloc: Global, words: &'a [S]) -> Result<Option<Task<'a>>, Error> {
    let matches = arbiter_command(alloc)?.try_get_matches_from(words)?;
    Ok(task_of(&matches))
}

fn task_of<'a>(matches: &ArgMatches<'a>) -> Option<Task<'a>> {
    let (name, found) = matches.subcommand()?;
    if name == "due" {
        let cores = found.get_one::<u8>("cores")?;
        return Some(Task::Due { cores });
    }
    let work = work_of(name, found)?;
    let file = found.get_str(FILE)?;
    Some(Task::OnMachine { file, work })
}

/// What the command of a name does with a machine, where it is known here.
fn work_of<'a>(name: &str, found: &ArgMatches<'a>) -> Option<Work> {
    match name {
        "check" => Some(Work::Check),
        "run" => Some(Work::Run),
        "play" => Some(Work::Play {
            ordered: found.get_flag("ordered"),
        }),
        "live" => Some(Work::Live {
            endless: found.get_flag("endless"),
        }),
        "draw" => Some(Work::Draw {
            choice: choice_of(found),
        }),
        _ => None,
    }
}

/// What is to be drawn of a script.
fn choice_of<'a>(found: &ArgMatches<'a>) -> Choice {
    Choice {
        from: found.get_one::<u32>("from"),
        to: found.get_one::<u32>("to"),
        scale: if found.get_flag("by-time") {
            Scale::Time
        } else {
            Scale::Orders
        },
    }
}
