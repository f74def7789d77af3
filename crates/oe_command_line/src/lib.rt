#![tactic(auto)]
//! The words of the command line.
ghost use Rattle.std.specs.Prelude.{◌≡◌, ◌≢◌, ◌↔◌, ◌⊎◌, ◌==◌, ◌∷◌, [], ℕ, Bool, true, false};
ghost use Rattle.std.specs.Prelude.{◌≤◌, IsFalse, List, None, Option, codes, decimal, length, map};
ghost use Rattle.std.specs.Prelude.{slice_index, MatchOption, MatchResult};
ghost use Rattle.oe_rows.specs.declared.layouts.Layout.{Layout};
ghost use Rattle.oe_command_line.specs.Words.{Asks, AsksScript, AsksSerial, AsksDrive, AsksAudit};
ghost use Rattle.oe_command_line.specs.Words.{AsksLoad, AsksFollowing};
ghost use Rattle.oe_command_line.specs.Words.{AsksExplain, AsksOpened, AsksExtents, AsksLayout, AsksFile};
ghost use Rattle.oe_command_line.specs.Words.{Names, NamesFile, IsPlain, csv_words, layout_word};
ghost use Rattle.oe_command_line.specs.Words.{AreSerialOptions, AreTablesOptions};
ghost use Rattle.oe_command_line.specs.Words.{AreDriveOptions, busy_words};
ghost use Rattle.oe_command_line.specs.Words.{AreNumbered, AreAudited, AreBehindSource, AreLoaded};
ghost use Rattle.oe_command_line.specs.declared.BehindSource.{BehindSource};
ghost use Rattle.oe_command_line.specs.declared.options.AuditOptions.{AuditOptions};
ghost use Rattle.oe_command_line.specs.declared.options.LoadOptions.{LoadOptions};
ghost use Rattle.oe_command_line.specs.declared.options.Separator.{Separator};
ghost use Rattle.oe_command_line.specs.declared.Numbered.{Numbered};
ghost use Rattle.oe_command_line.specs.declared.SerialOptions.{SerialOptions};
ghost use Rattle.oe_command_line.specs.declared.DriveOptions.{DriveOptions};
ghost use Rattle.oe_command_line.specs.declared.Task.{Task};

mod options;

use clap::Error;
use oe_help::refusal;
use oe_numbers::{DriveNumbers, FollowingNumbers, LoadNumbers, Ordinal, number_of};
use oe_rows::Layout;
use oe_values::{ExtentCount, Number};
pub use options::{AuditOptions, LoadOptions, Separator};
use options::{audit_options, load_options, options_of};
use std::alloc::Global;
use std::convert::AsStr;

/// What the program is asked to do.
#[derive(Clone, Copy)]
pub enum Task<'a> {
    /// To answer the script on standard input.
    Script,
    /// To answer the script in the file of that name.
    File(&'a str),
    /// To answer the script in the file of that name, or on standard input, and to say why lines
    /// are answered `BadLine`.
    Explain(Option<&'a str>),
    /// To answer the script in the file of that name, or on standard input, from the population in
    /// the files of a directory, with such an undo ring.
    Opened {
        directory: &'a str,
        extents: ExtentCount,
        layout: Layout,
        file: Option<&'a str>,
    },
    /// To decide whether the replies in a file are serial, from the population in the files of a
    /// directory where one is named, and to compare the tables at the end with the files of
    /// another, where that is named. The files are dumps or comma-separated values.
    Serial {
        file: &'a str,
        from: Option<&'a str>,
        tables: Option<&'a str>,
        separator: Separator,
    },
    /// To run terminals in threads of their own, to write their commits to the file of that name,
    /// where one is named, and to tell which locks were in the way, where that is asked for.
    Drive {
        numbers: DriveNumbers,
        commits: Option<&'a str>,
        is_busy: bool,
    },
    /// To audit the tables in the files of a directory, or in a file, or on standard input where
    /// the name is `-`, and to compare them with the files of another directory, as they were
    /// before, where one is named.
    Audit {
        source: &'a str,
        before: Option<&'a str>,
        options: AuditOptions,
    },
    /// To print a load.
    Load {
        numbers: LoadNumbers,
        options: LoadOptions,
    },
    /// To print a load that begins on the tables in the files of a directory.
    Following {
        directory: &'a str,
        numbers: FollowingNumbers,
        options: LoadOptions,
    },
}

/// The options of a file of replies.
#[derive(Clone, Copy)]
struct SerialOptions<'a> {
    from: Option<&'a str>,
    tables: Option<&'a str>,
    separator: Separator,
}

/// The options of a drive.
#[derive(Clone, Copy)]
struct DriveOptions<'a> {
    commits: Option<&'a str>,
    is_busy: bool,
}

/// What the words behind an audit's source say.
#[derive(Clone, Copy)]
struct BehindSource<'a> {
    before: Option<&'a str>,
    options: AuditOptions,
}

/// The numbers of a load on tables that are there, and its options.
#[derive(Clone, Copy)]
struct Numbered {
    numbers: FollowingNumbers,
    options: LoadOptions,
}

/// Finds what these words ask for; the first is the program's name.
///
/// An error is a command line that is none of the forms, a request for help, or a want of memory.
pub fn job<'a, S: AsStr>(alloc: Global, words: &'a [S]) -> Result<Task<'a>, Error>
    ensures { MatchResult result
        (Asks (map S.text words.now))
        (λ _. (task : Task) → Asks (map S.text words.now) task → ⊥) }
{
    match asked(words) {
        Some(task) => Ok(task),
        None => Err(refusal(alloc, words)),
    }
}

// Finds the task that these words ask for.
fn asked<'a, S: AsStr>(words: &'a [S]) -> Option<Task<'a>>
    ensures { MatchOption result
        ((task : Task) → Asks (map S.text words.now) task → ⊥)
        (Asks (map S.text words.now)) }
{
    if let Some(task) = script_of(words) {
        return Some(task);
    }
    if let Some(task) = explain_of(words) {
        return Some(task);
    }
    if let Some(task) = opened_of(words) {
        return Some(task);
    }
    if let Some(task) = serial_of(words) {
        return Some(task);
    }
    if let Some(task) = audit_of(words) {
        return Some(task);
    }
    if let Some(task) = load_of(words) {
        return Some(task);
    }
    if let Some(task) = following_of(words) {
        return Some(task);
    }
    drive_of(words)
}

// Finds the script that these words ask for.
fn script_of<'a, S: AsStr>(words: &'a [S]) -> Option<Task<'a>>
    ensures { MatchOption result
        ((task : Task) → AsksScript (map S.text words.now) task → ⊥)
        (AsksScript (map S.text words.now)) }
{
    if words.len() < 2 || words[1].as_str() != "script" {
        return None;
    }
    if words.len() == 2 {
        return Some(Task::Script);
    }
    match file_of(words) {
        Some(name) => Some(Task::File(name)),
        None => None,
    }
}

// Finds the script that these words ask for, where they ask why lines are bad.
fn explain_of<'a, S: AsStr>(words: &'a [S]) -> Option<Task<'a>>
    ensures { MatchOption result
        ((task : Task) → AsksExplain (map S.text words.now) task → ⊥)
        (AsksExplain (map S.text words.now)) }
{
    if words.len() < 3 || words[1].as_str() != "script" || words[2].as_str() != "--explain" {
        return None;
    }
    if words.len() == 3 {
        return Some(Task::Explain(None));
    }
    match file_of(&words[1..]) {
        Some(name) => Some(Task::Explain(Some(name))),
        None => None,
    }
}

// Finds the word behind a mark, with which words begin, and the words behind that.
fn behind<'a, S: AsStr>(mark: &str, words: &'a [S]) -> Option<(&'a str, &'a [S])>
    ensures { MatchOption result
        ((word : List ℕ) (rest : List (List ℕ)) →
        map S.text words.now ≡ mark.now ∷ word ∷ rest → ⊥)
        (λ p. map S.text words.now ≡ mark.now ∷ p.0.now ∷ map S.text p.1.now) }
{
    if words.len() < 2 || words[0].as_str() != mark {
        return None;
    }
    Some((words[1].as_str(), &words[2..]))
}

// Finds the directory behind a mark, with which words begin, and the words behind that.
fn directory_behind<'a, S: AsStr>(mark: &str, words: &'a [S]) -> Option<(&'a str, &'a [S])>
    ensures { MatchOption result
        ((directory : List ℕ) (rest : List (List ℕ)) → IsPlain directory →
        map S.text words.now ≡ mark.now ∷ directory ∷ rest → ⊥)
        (λ p. IsPlain p.0.now
        × (map S.text words.now ≡ mark.now ∷ p.0.now ∷ map S.text p.1.now)) }
{
    let Some((directory, rest)) = behind(mark, words) else {
        return None;
    };
    if is_option(directory) {
        return None;
    }
    Some((directory, rest))
}

// Finds the script that these words ask for, where it begins with the population of a directory.
fn opened_of<'a, S: AsStr>(words: &'a [S]) -> Option<Task<'a>>
    ensures { MatchOption result
        ((task : Task) → AsksOpened (map S.text words.now) task → ⊥)
        (AsksOpened (map S.text words.now)) }
{
    if words.len() < 2 || words[1].as_str() != "script" {
        return None;
    }
    let Some((directory, rest)) = directory_behind("--from", &words[2..]) else {
        return None;
    };
    extents_of(directory, rest)
}

// Finds the script that the words behind its directory ask for.
fn extents_of<'a, S: AsStr>(directory: &'a str, words: &'a [S]) -> Option<Task<'a>>
    ensures { MatchOption result
        ((task : Task) → AsksExtents directory.now (map S.text words.now) task → ⊥)
        (AsksExtents directory.now (map S.text words.now)) }
{
    let Some((word, rest)) = behind("--extents", words) else {
        let all: ExtentCount = Number::new(4_096).unwrap();
        return layout_of(directory, all, words);
    };
    match number_of(word) {
        Some(extents) => layout_of(directory, extents, rest),
        None => None,
    }
}

// Finds the script that the words behind its extents ask for.
fn layout_of<'a, S: AsStr>(
    directory: &'a str,
    extents: ExtentCount,
    words: &'a [S],
) -> Option<Task<'a>>
    ensures { MatchOption result
        ((task : Task) → AsksLayout directory.now extents (map S.text words.now) task → ⊥)
        (AsksLayout directory.now extents (map S.text words.now)) }
{
    let Some((word, rest)) = behind("--layout", words) else {
        return opened_file_of(directory, extents, Layout::WholeRows, words);
    };
    match layout_named(word) {
        Some(layout) => opened_file_of(directory, extents, layout, rest),
        None => None,
    }
}

// Reads the number of a layout.
fn layout_named(word: &str) -> Option<Layout>
    ensures { MatchOption result
        ((layout : Layout) → word.now ≡ layout_word layout → ⊥)
        (λ layout. word.now ≡ layout_word layout) }
{
    if word == "1" {
        return Some(Layout::WholeRows);
    }
    if word == "2" {
        return Some(Layout::ChangedColumns);
    }
    None
}

// Finds the script that the words behind its layout ask for.
fn opened_file_of<'a, S: AsStr>(
    directory: &'a str,
    extents: ExtentCount,
    layout: Layout,
    words: &'a [S],
) -> Option<Task<'a>>
    ensures { MatchOption result
        ((task : Task) → AsksFile directory.now extents layout (map S.text words.now) task → ⊥)
        (AsksFile directory.now extents layout (map S.text words.now)) }
{
    if words.is_empty() {
        return Some(Task::Opened {
            directory,
            extents,
            layout,
            file: None,
        });
    }
    match name_of(words) {
        Some(file) => Some(Task::Opened {
            directory,
            extents,
            layout,
            file: Some(file),
        }),
        None => None,
    }
}

// Finds the file of replies that these words ask for, with its options.
fn serial_of<'a, S: AsStr>(words: &'a [S]) -> Option<Task<'a>>
    ensures { MatchOption result
        ((task : Task) → AsksSerial (map S.text words.now) task → ⊥)
        (AsksSerial (map S.text words.now)) }
{
    if words.len() < 3 || words[1].as_str() != "serial" {
        return None;
    }
    if let Some(file) = file_of(words) {
        return Some(Task::Serial {
            file,
            from: None,
            tables: None,
            separator: Separator::Tabs,
        });
    }
    let file = words[2].as_str();
    if is_option(file) {
        return None;
    }
    match serial_options_of(&words[3..]) {
        Some(options) => Some(Task::Serial {
            file,
            from: options.from,
            tables: options.tables,
            separator: options.separator,
        }),
        None => None,
    }
}

// Finds the options of a file of replies that these words say.
fn serial_options_of<'a, S: AsStr>(words: &'a [S]) -> Option<SerialOptions<'a>>
    ensures { MatchOption result
        ((o : SerialOptions) →
        AreSerialOptions (map S.text words.now) o.from o.tables o.separator → ⊥)
        (λ o. AreSerialOptions (map S.text words.now) o.from o.tables o.separator) }
{
    match directory_behind("--from", words) {
        Some((from, rest)) => tables_options_of(Some(from), rest),
        None => tables_options_of(None, words),
    }
}

// Finds the options that words behind the first directory say.
fn tables_options_of<'a, S: AsStr>(
    from: Option<&'a str>,
    words: &'a [S],
) -> Option<SerialOptions<'a>>
    ensures { MatchOption result
        ((o : SerialOptions) → AreTablesOptions (map S.text words.now) o.tables o.separator → ⊥)
        (λ o. (o.from ≡ from.entry)
        × AreTablesOptions (map S.text words.now) o.tables o.separator) }
{
    let Some((tables, rest)) = directory_behind("--tables", words) else {
        return match separator_said(words) {
            Some(separator) => Some(SerialOptions {
                from,
                tables: None,
                separator,
            }),
            None => None,
        };
    };
    match separator_said(rest) {
        Some(separator) => Some(SerialOptions {
            from,
            tables: Some(tables),
            separator,
        }),
        None => None,
    }
}

// Finds what stands between the fields of files by these words.
fn separator_said<S: AsStr>(words: &[S]) -> Option<Separator>
    ensures { MatchOption result
        ((between : Separator) → map S.text words.now ≡ csv_words between → ⊥)
        (λ between. map S.text words.now ≡ csv_words between) }
{
    if words.is_empty() {
        return Some(Separator::Tabs);
    }
    if words.len() != 1 || words[0].as_str() != "--csv" {
        return None;
    }
    Some(Separator::Commas)
}

// Finds the file that words name.
fn name_of<'a, S: AsStr>(words: &'a [S]) -> Option<&'a str>
    ensures { MatchOption result
        ((file : List ℕ) → Names (map S.text words.now) file → ⊥)
        (λ file. Names (map S.text words.now) file.now) }
{
    match words.len() {
        1 => {
            let name = words[0].as_str();
            if is_option(name) {
                return None;
            }
            Some(name)
        }
        2 => {
            let mark = words[0].as_str();
            if is_no_mark(mark) {
                return None;
            }
            Some(words[1].as_str())
        }
        _ => None,
    }
}

// Finds the file that the words behind a verb name.
fn file_of<'a, S: AsStr>(words: &'a [S]) -> Option<&'a str>
    requires { 2 ≤ length words.now }
    ensures { MatchOption result
        ((file : List ℕ) → NamesFile (map S.text words.now) file → ⊥)
        (λ file. NamesFile (map S.text words.now) file.now) }
{
    name_of(&words[2..])
}

// Finds the drive that these words ask for.
fn drive_of<'a, S: AsStr>(words: &'a [S]) -> Option<Task<'a>>
    ensures { MatchOption result
        ((task : Task) → AsksDrive (map S.text words.now) task → ⊥)
        (AsksDrive (map S.text words.now)) }
{
    if words.len() < 2 || words[1].as_str() != "drive" {
        return None;
    }
    if words.len() < 9 {
        return None;
    }
    let Some(numbers) = DriveNumbers::read(&words[2..9]) else {
        return None;
    };
    match drive_options_of(&words[9..]) {
        Some(options) => Some(Task::Drive {
            numbers,
            commits: options.commits,
            is_busy: options.is_busy,
        }),
        None => None,
    }
}

// Finds the options of a drive that these words say.
fn drive_options_of<'a, S: AsStr>(words: &'a [S]) -> Option<DriveOptions<'a>>
    ensures { MatchOption result
        ((o : DriveOptions) → AreDriveOptions (map S.text words.now) o.commits o.is_busy → ⊥)
        (λ o. AreDriveOptions (map S.text words.now) o.commits o.is_busy) }
{
    let Some((commits, rest)) = directory_behind("--commits", words) else {
        return match busy_said(words) {
            Some(is_busy) => Some(DriveOptions {
                commits: None,
                is_busy,
            }),
            None => None,
        };
    };
    match busy_said(rest) {
        Some(is_busy) => Some(DriveOptions {
            commits: Some(commits),
            is_busy,
        }),
        None => None,
    }
}

// Tells whether these words ask for a table of locks that were in the way; none where they are
// others.
fn busy_said<S: AsStr>(words: &[S]) -> Option<bool>
    ensures { MatchOption result
        ((is_busy : Bool) → map S.text words.now ≡ busy_words is_busy → ⊥)
        (λ is_busy. map S.text words.now ≡ busy_words is_busy) }
{
    if words.is_empty() {
        return Some(false);
    }
    if words.len() != 1 || words[0].as_str() != "--busy" {
        return None;
    }
    Some(true)
}

// Finds the audit that these words ask for.
fn audit_of<'a, S: AsStr>(words: &'a [S]) -> Option<Task<'a>>
    ensures { MatchOption result
        ((task : Task) → AsksAudit (map S.text words.now) task → ⊥)
        (AsksAudit (map S.text words.now)) }
{
    if words.len() < 3 || words[1].as_str() != "audit" {
        return None;
    }
    let source = words[2].as_str();
    if is_no_source(source) {
        return None;
    }
    match behind_source(&words[3..]) {
        Some(behind) => Some(Task::Audit {
            source,
            before: behind.before,
            options: behind.options,
        }),
        None => None,
    }
}

// Finds the directory and the options that the words behind an audit's source say.
fn behind_source<'a, S: AsStr>(words: &'a [S]) -> Option<BehindSource<'a>>
    ensures { MatchOption result
        ((b : BehindSource) → AreBehindSource (map S.text words.now) b.before b.options → ⊥)
        (λ b. AreBehindSource (map S.text words.now) b.before b.options) }
{
    match directory_behind("--before", words) {
        Some((before, rest)) => {
            let Some(options) = audited(rest) else {
                return None;
            };
            Some(BehindSource {
                before: Some(before),
                options,
            })
        }
        None => {
            let Some(options) = audited(words) else {
                return None;
            };
            Some(BehindSource {
                before: None,
                options,
            })
        }
    }
}

// Finds the options of an audit that words say.
fn audited<S: AsStr>(words: &[S]) -> Option<AuditOptions>
    ensures { MatchOption result
        ((a : AuditOptions) → AreAudited (map S.text words.now) a → ⊥)
        (AreAudited (map S.text words.now)) }
{
    let Some(options) = options_of(words) else {
        return None;
    };
    audit_options(&options)
}

/// Tells whether a word names no source of an audit: it is taken for an option.
fn is_no_source(word: &str) -> bool
    ensures { IsFalse result ↔ (IsPlain word.now ⊎ (word.now ≡ codes "-")) }
{
    is_option(word) && word != "-"
}

// Finds the load that these words ask for.
fn load_of<'a, S: AsStr>(words: &'a [S]) -> Option<Task<'a>>
    ensures { MatchOption result
        ((task : Task) → AsksLoad (map S.text words.now) task → ⊥)
        (AsksLoad (map S.text words.now)) }
{
    if words.len() < 2 || words[1].as_str() != "load" {
        return None;
    }
    if words.len() < 9 {
        return None;
    }
    let Some(numbers) = LoadNumbers::read(&words[2..9]) else {
        return None;
    };
    match loaded(&words[9..], numbers.requests) {
        Some(options) => Some(Task::Load { numbers, options }),
        None => None,
    }
}

// Finds the options of a load of that number of requests a terminal.
fn loaded<S: AsStr>(words: &[S], requests: Ordinal) -> Option<LoadOptions>
    ensures { MatchOption result
        ((l : LoadOptions) → AreLoaded (map S.text words.now) requests l → ⊥)
        (AreLoaded (map S.text words.now) requests) }
{
    let Some(options) = options_of(words) else {
        return None;
    };
    load_options(&options, requests)
}

// Finds the load that these words ask for, where it begins on the tables of a directory.
fn following_of<'a, S: AsStr>(words: &'a [S]) -> Option<Task<'a>>
    ensures { MatchOption result
        ((task : Task) → AsksFollowing (map S.text words.now) task → ⊥)
        (AsksFollowing (map S.text words.now)) }
{
    if words.len() < 2 || words[1].as_str() != "load" {
        return None;
    }
    let Some((directory, rest)) = directory_behind("--from", &words[2..]) else {
        return None;
    };
    match numbers_of(rest) {
        Some(following) => Some(Task::Following {
            directory,
            numbers: following.numbers,
            options: following.options,
        }),
        None => None,
    }
}

// Finds the numbers and the options that the words behind a load's directory say.
fn numbers_of<S: AsStr>(words: &[S]) -> Option<Numbered>
    ensures { MatchOption result
        ((n : Numbered) → AreNumbered (map S.text words.now) n → ⊥)
        (AreNumbered (map S.text words.now)) }
{
    if words.len() < 4 {
        return None;
    }
    let Some(numbers) = FollowingNumbers::read(&words[..4]) else {
        return None;
    };
    match loaded(&words[4..], numbers.requests) {
        Some(options) => Some(Numbered { numbers, options }),
        None => None,
    }
}

/// Tells whether a word is taken for an option.
fn is_option(word: &str) -> bool
    ensures { result ≡ (slice_index word.now 0 == 45) }
{
    word.starts_with('-')
}

/// Tells whether a word is not the mark behind which no word is an option.
fn is_no_mark(word: &str) -> bool
    ensures { IsFalse result ↔ (word.now ≡ codes "--") }
{
    word != "--"
}
