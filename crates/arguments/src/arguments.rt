//! The words of the command line: options, defaults and help, and the job that they ask for.
ghost use Rattle.std.specs.Prelude.{◌≡◌, ◌∷◌, false, IfErr, IfOk, List, [], map, pos, string_bytes};
ghost use Rattle.std.specs.declared.io.ErrorKind.TheVariants.{OutOfMemory as RanOut};
ghost use Rattle.clap.specs.Values.{kind_of};
ghost use Rattle.clap.specs.declared.builder.value_parser.ValueParser.TheVariants.{Signed};
ghost use Rattle.clap.specs.declared.error.kind.ErrorKind.TheVariants.{InvalidValue};
ghost use Rattle.clap.specs.Words.{FailsBy, HasKind, IsParsedFrom, Kinds, app_of, fault_of, found_of};
ghost use Rattle.clap.specs.Words.{matches_of, rows_of, rule_of};
ghost use Rattle.arguments.specs.Arguments.{HasSettingsOf, IsFaultOf, IsJobOf, is_given, morsel_rule, number_rule};
ghost use Rattle.arguments.specs.Arguments.{app_of_words, required_rule, the_app};

use base::limits::{LARGEST_MORSEL, LONGEST_FILE, MOST_GATHERERS, MOST_PARTITIONS, MOST_WORKERS};
use clap::builder::ValueParser;
use clap::error::ErrorKind;
use clap::parser::ValueSource;
use clap::{Arg, ArgAction, ArgMatches, Command, Error, value_parser};
use outcomes::{Crew, Settings};
use std::alloc::{AllocError, Global};
use std::io;

/// What `--version` says after the program's name: the version, its date as in `CHANGELOG.md`, and
/// the logic that it was proved in, which `rt version` names.
const VERSION: &str = "0.2.16 (2026-12-01, proved in Rattle's logic dac8208d650f15bf)";

/// How the program is called: the query is one word, which a shell takes in quotes.
const USAGE: &str = "itch_bars [OPTIONS] <FILE> \"<QUERY>\"";

/// What help says of `--workers`.
const WORKERS_HELP: &str =
    "Threads that work, 1 to 64: more take less time, up to\none for each processor";

/// What help says of `--morsel`.
const MORSEL_HELP: &str =
    "Least size of the pieces in which standard input is\nheld, 1 to 1073741824; \
    over 65536 of them are refused.\nA file is held in such pieces only if this option is\ngiven";

/// What help says of `--partitions`.
const PARTITIONS_HELP: &str =
    "Parts of the orders, 1 to 256, that threads look up one\nby one: the greatest prime up to N";

/// What help says of `--gatherers`.
const GATHERERS_HELP: &str =
    "Threads that put together what the workers find, 1 to\n8: more help only if one can't keep up";

/// What help says after the options, in lines of at most 80 columns.
const AFTER_HELP: &str = "\
These numbers change the time and the memory that a run takes, not its answer.
A file that is named takes least of both without --morsel: it isn't held in
memory.

Queries:
  sales        time and sales: a line for each sale, by its place in the file
  bars 5 m     a line for each security and interval; s, m or h, 1 s to 24 h
After either, if wanted:
  as of 16:00:00                       only messages up to this moment count
After these, `where` and some of these, joined by `and`, each at most once:
  symbol in MSFT,AAPL                  these securities
  time from 09:30:00 until 16:00:00    from the start on, before the end
  kind in E,C,P,Q                      executions, executions with a price,
                                       trades, crosses
Symbols are case-sensitive; one that the file doesn't have gives no lines, and
is no fault. No spaces stand in a list. The whole grammar is in docs/FORMATS.md
of the program's repository.

Columns:
  sales        time,symbol,kind,price,shares,number
  bars         symbol,start,first,high,low,last,volume,trades,average
Times are of the exchange's clock, prices in dollars. An average of
410.5075+12750/25850 is 410.5075 dollars and 12750/25850 of a ten-thousandth
of a dollar.

Examples:
  itch_bars day.itch sales
  itch_bars day.itch \"bars 5 m where symbol in MSFT and kind in E,P\"
  zcat day.itch.gz | itch_bars - \"sales as of 12:00:00 where symbol in AAPL\"

Output:
The answer goes to standard output: use > to write it to a file. A fault goes
to standard error as one line. The status is
  0  the query was answered
  1  the file has a fault, or is too long
  2  the words or the query are wrong, or --morsel is too small for the file
  3  memory ran out
  4  the file can't be opened or read
  5  the output can't be written";

/// What the command line asks for.
#[derive(Drop)]
pub struct Job {
    /// The path of the day file, or `-` for standard input.
    pub file: String,
    /// The text of the query.
    pub query: String,
    /// Whether the words give a size of morsels, in which even a file is then held that can be read by blocks.
    pub morsel_given: bool,
    pub settings: Settings,
}

/// Why there is no job.
#[derive(Drop)]
pub enum WordsFault {
    /// Help was asked for: status 0, where it can be written.
    Help { text: String },
    /// The version was asked for: the same.
    Version { text: String },
    /// The words are wrong: status 2.
    Wrong { text: String },
    /// A growth was refused: status 3.
    Memory,
}

impl From<AllocError> for WordsFault {
    ghost use Rattle.arguments.specs.declared.arguments.WordsFault.TheVariants.{Memory};

    ghost from_gives = { λ _ fault. fault ≡ Memory };

    fn from(_error: AllocError) -> WordsFault {
        WordsFault::Memory
    }
}

/// What is reported where the words themselves can't be read: that memory ran out, or else that one
/// of them isn't UTF-8.
pub fn reading_fault(alloc: Global, reading: io::ErrorKind) -> WordsFault
    ensures memory { reading ≡ RanOut → result ≡ WordsFault.Memory }
    ensures wrong { IsFaultOf (InvalidValue ∷ []) result }
{
    if reading == io::ErrorKind::OutOfMemory {
        return WordsFault::Memory;
    }
    match not_utf8(alloc) {
        Ok(error) => words_fault(alloc, &error),
        Err(AllocError) => WordsFault::Memory,
    }
}

/// The error of a word that isn't UTF-8.
fn not_utf8(alloc: Global) -> Result<Error, AllocError>
    ensures { IfOk result (λ error. kind_of error ≡ InvalidValue) }
{
    let mut command = clap_command(alloc)?;
    command.error(ErrorKind::InvalidValue, "a word is not valid UTF-8")
}

/// The job that the words of a command line ask for. The first word is the program's name.
pub fn command(alloc: Global, words: &[String]) -> Result<Job, WordsFault>
    ensures job { IfOk result (IsJobOf (matches_of the_app (map string_bytes words.now))) }
    ensures right { IfOk result (λ _. fault_of the_app (map string_bytes words.now) ≡ []) }
    ensures fault { IfErr result (IsFaultOf (fault_of the_app (map string_bytes words.now))) }
{
    match matched(alloc, words) {
        Ok(matches) => Ok(job_of(alloc, &matches)?),
        Err(error) => Err(words_fault(alloc, &error)),
    }
}

/// What `clap` matches in the words.
fn matched<'a>(alloc: Global, words: &'a [String]) -> Result<ArgMatches<'a>, Error>
    ensures rows { IfOk result (λ m. rows_of (found_of m)
        ≡ matches_of the_app (map string_bytes words.entry.now)) }
    ensures parsed { IfOk result (λ m. (command : _) × (app_of command ≡ the_app) × IsParsedFrom command m) }
    ensures kinds { FailsBy (fault_of the_app (map string_bytes words.entry.now)) result }
{
    let command = clap_command(alloc)?;
    command.try_get_matches_from(words)
}

/// The program's command line.
fn clap_command<'a>(alloc: Global) -> Result<Command<'a>, AllocError>
    ensures { IfOk result (λ c. app_of c ≡ the_app) }
{
    let command = words_command(alloc)?;
    with_options(alloc, command)
}

/// The program's command line without its options.
fn words_command<'a>(alloc: Global) -> Result<Command<'a>, AllocError>
    ensures { IfOk result (λ c. app_of c ≡ app_of_words) }
{
    let file = required_argument(alloc, "FILE", "A day file, unpacked; - is standard input");
    let asked = "What to answer, as below; it is one word, so put it in quotes";
    Command::new(alloc, "itch_bars")
        .version(VERSION)
        .about("Answers a query over a day file of Nasdaq TotalView-ITCH 5.0")
        .override_usage(USAGE)
        .after_help(AFTER_HELP)
        .arg(file)?
        .arg(required_argument(alloc, "QUERY", asked))
}

/// The command line with the options, too.
fn with_options<'a>(alloc: Global, command: Command<'a>) -> Result<Command<'a>, AllocError>
    requires { app_of command ≡ app_of_words }
    ensures { IfOk result (λ c. app_of c ≡ the_app) }
{
    command
        .arg(number_option(alloc, "workers", MOST_WORKERS, "4", WORKERS_HELP))?
        .arg(morsel_option(alloc))?
        .arg(number_option(alloc, "partitions", MOST_PARTITIONS, "64", PARTITIONS_HELP))?
        .arg(number_option(alloc, "gatherers", MOST_GATHERERS, "1", GATHERERS_HELP))
}

/// A word that has to be given.
fn required_argument<'a>(alloc: Global, name: &'a str, help: &'a str) -> Arg<'a>
    ensures rule { rule_of result ≡ required_rule name.entry.now }
    ensures local { result.global ≡ false }
{
    Arg::new(alloc, name)
        .required(true)
        // (written, though clap would choose it: only then does its contract keep the least number of values)
        .action(ArgAction::Set)
        .help(help)
}

/// What reads a number from 1 to `most`.
fn number_parser<'a>(most: u32) -> ValueParser<'a>
    ensures { result ≡ Signed (pos 1) (pos most) }
{
    value_parser!(u32).range(1..=i64::from(most))
}

/// An option with a number from 1 to `most`, and the default if it is left out.
fn number_option<'a>(
    alloc: Global,
    name: &'a str,
    most: u32,
    default: &'a str,
    help: &'a str,
) -> Arg<'a>
    ensures rule { rule_of result ≡ number_rule name.entry.now (Signed (pos 1) (pos most)) default.entry.now }
    ensures local { result.global ≡ false }
{
    read_option(alloc, name, "N", number_parser(most), default, help)
}

/// The least size of a morsel.
fn morsel_option<'a>(alloc: Global) -> Arg<'a>
    ensures rule { rule_of result ≡ morsel_rule }
    ensures local { result.global ≡ false }
{
    let parser = value_parser!(u64).range(1..=LARGEST_MORSEL as i64);
    read_option(alloc, "morsel", "BYTES", parser, "1048576", MORSEL_HELP)
}

/// An option with a value that the parser reads, and the default if it is left out.
fn read_option<'a>(
    alloc: Global,
    name: &'a str,
    value_name: &'a str,
    parser: ValueParser<'a>,
    default: &'a str,
    help: &'a str,
) -> Arg<'a>
    ensures rule { rule_of result ≡ number_rule name.entry.now parser.entry default.entry.now }
    ensures local { result.global ≡ false }
{
    Arg::new(alloc, name)
        .long(name)
        .value_name(value_name)
        .action(ArgAction::Set)
        .value_parser(parser)
        .default_value(default)
        .help(help)
}

/// The job of what was matched.
fn job_of(alloc: Global, matches: &ArgMatches<'_>) -> Result<Job, AllocError>
    requires { (command : _) × (app_of command ≡ the_app) × IsParsedFrom command matches.now }
    ensures { IfOk result (IsJobOf (rows_of (found_of matches.now))) }
{
    let file = matches.get_str("FILE").unwrap();
    let query = matches.get_str("QUERY").unwrap();
    Ok(Job {
        file: String::from_str(alloc, file)?,
        query: String::from_str(alloc, query)?,
        morsel_given: is_given(matches, "morsel"),
        settings: settings_of(matches),
    })
}

/// Whether the words give an option, so that its value isn't its default.
#[tactic(auto, using(crate::proofs::FoundValues::given_by_source))]
fn is_given(matches: &ArgMatches<'_>, id: &str) -> bool
    ensures { result ≡ is_given id.now (rows_of (found_of matches.now)) }
{
    match matches.value_source(id) {
        Some(ValueSource::CommandLine) => true,
        Some(ValueSource::DefaultValue) | None => false,
    }
}

/// The settings of what was matched.
fn settings_of(matches: &ArgMatches<'_>) -> Settings
    requires { (command : _) × (app_of command ≡ the_app) × IsParsedFrom command matches.now }
    ensures { HasSettingsOf (rows_of (found_of matches.now)) result }
{
    let workers = matches.get_one::<u32>("workers").unwrap();
    let morsel = matches.get_one::<u64>("morsel").unwrap();
    let parts = matches.get_one::<u32>("partitions").unwrap();
    let gatherers = matches.get_one::<u32>("gatherers").unwrap();
    let crew = Crew { workers, gatherers };
    Settings {
        crew,
        morsel,
        parts,
        limit: LONGEST_FILE,
    }
}

/// Help or the version, or what is wrong with the words.
fn words_fault(alloc: Global, error: &Error) -> WordsFault
    ensures { (kinds : Kinds) → HasKind kinds error.now → IsFaultOf kinds result }
{
    let Ok(text) = format!(in alloc; "{error}") else {
        return WordsFault::Memory;
    };
    match error.kind() {
        ErrorKind::OutOfMemory => WordsFault::Memory,
        ErrorKind::DisplayHelp => WordsFault::Help { text },
        ErrorKind::DisplayVersion => WordsFault::Version { text },
        _ => WordsFault::Wrong { text },
    }
}
