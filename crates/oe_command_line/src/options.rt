//! The options of audits and loads: each stands at most once, in any order.
//!
//! One walk reads the words of both; then each command takes its own, and refuses the other's.
ghost use Rattle.std.specs.Prelude.{◌≡◌, ◌≢◌, ◌+◌, ◌≤◌, ℕ, List, MatchOption, None, decimal, map};
ghost use Rattle.std.specs.Prelude.{unwrap_or};
ghost use Rattle.std.specs.Int.{IsInRange};
ghost use Rattle.oe_numbers.specs.Kinds.{Names as NamesKinds, none_named};
ghost use Rattle.oe_numbers.specs.declared.forms.Form.{Form};
ghost use Rattle.oe_numbers.specs.declared.forms.Items.{Items};
ghost use Rattle.oe_numbers.specs.declared.kinds.Kinds.{Kinds};
ghost use Rattle.oe_command_line.specs.Words.{Says, Adds, AddsFlag, AddsWord, no_options};
ghost use Rattle.oe_command_line.specs.Words.{flag_word, mark_word};
ghost use Rattle.oe_command_line.specs.Words.{has_flag, with_flag, separator_of};
ghost use Rattle.oe_command_line.specs.Words.{IsOfForm, IsOfItems, AreForAudit, AreForLoad};
ghost use Rattle.oe_command_line.specs.declared.options.AuditOptions.{AuditOptions};
ghost use Rattle.oe_command_line.specs.declared.options.Flag.{Flag};
ghost use Rattle.oe_command_line.specs.declared.options.LoadOptions.{LoadOptions};
ghost use Rattle.oe_command_line.specs.declared.options.Mark.{Mark};
ghost use Rattle.oe_command_line.specs.declared.options.Mark.TheVariants as mark;
ghost use Rattle.oe_command_line.specs.declared.options.Options.{Options};

use oe_numbers::{Form, Items, Kinds, Ordinal, number_of};
use oe_values::Number;
use std::convert::AsStr;

/// What stands between the fields of a line in a file of tables.
#[derive(Clone, Copy)]
pub enum Separator {
    /// A tab, as in a dump.
    Tabs,
    /// A comma: these are comma-separated values.
    Commas,
}

/// The options of an audit.
#[derive(Clone, Copy)]
pub struct AuditOptions {
    /// How many orders the population had in each district.
    pub initial: Option<u32>,
    /// Each list is cut behind this number of rows.
    pub first: Option<u32>,
    /// What stands between the fields of its files.
    pub separator: Separator,
    /// The report is JSON.
    pub is_json: bool,
}

/// The options of a load.
#[derive(Clone, Copy)]
pub struct LoadOptions {
    /// The number of the first request that each terminal asks for.
    pub first: Ordinal,
    /// The kinds that are drawn; all, where none is named.
    pub kinds: Kinds,
    /// What becomes of unused items.
    pub items: Items,
    /// What is written.
    pub form: Form,
}

/// An option that is a word alone.
#[derive(Clone, Copy)]
enum Flag {
    Csv,
    Json,
    Flat,
    Mix,
    Busy,
}

/// An option with a word behind it.
#[derive(Clone, Copy)]
enum Mark {
    First,
    Initial,
    Kinds,
}

/// The options that words say, of an audit or a load.
#[derive(Clone, Copy)]
pub(crate) struct Options {
    first: Option<Number<1, 4_294_967_295>>,
    initial: Option<Number<0, 4_294_967_295>>,
    kinds: Option<Kinds>,
    is_csv: bool,
    is_json: bool,
    is_flat: bool,
    is_mix: bool,
    is_busy: bool,
}

/// Finds the options that these words say.
pub(crate) fn options_of<S: AsStr>(words: &[S]) -> Option<Options>
    ensures { MatchOption result
        ((o : Options) → Says no_options (map S.text words.now) o → ⊥)
        (Says no_options (map S.text words.now)) }
{
    let none = Options {
        first: None,
        initial: None,
        kinds: None,
        is_csv: false,
        is_json: false,
        is_flat: false,
        is_mix: false,
        is_busy: false,
    };
    options_from(none, words)
}

// Finds the options that these words say besides some, in any order.
fn options_from<S: AsStr>(so_far: Options, words: &[S]) -> Option<Options>
    ensures { MatchOption result
        ((o : Options) → Says so_far (map S.text words.now) o → ⊥)
        (Says so_far (map S.text words.now)) }
{
    if words.is_empty() {
        return Some(so_far);
    }
    if let Some(next) = with_flag(&so_far, words[0].as_str()) {
        return options_from(next, &words[1..]);
    }
    if words.len() < 2 {
        return None;
    }
    match with_word(&so_far, words[0].as_str(), words[1].as_str()) {
        Some(next) => options_from(next, &words[2..]),
        None => None,
    }
}

// Finds the option of that name that is a word alone.
fn flag_of(word: &str) -> Option<Flag>
    ensures { MatchOption result
        ((f : Flag) → word.now ≢ flag_word f)
        (λ f. word.now ≡ flag_word f) }
{
    if word == "--csv" {
        return Some(Flag::Csv);
    }
    if word == "--json" {
        return Some(Flag::Json);
    }
    if word == "--flat" {
        return Some(Flag::Flat);
    }
    if word == "--mix" {
        return Some(Flag::Mix);
    }
    if word == "--busy" {
        return Some(Flag::Busy);
    }
    None
}

// Finds the option of that name that has a word behind it.
fn mark_of(word: &str) -> Option<Mark>
    ensures { MatchOption result
        ((m : Mark) → word.now ≢ mark_word m)
        (λ m. word.now ≡ mark_word m) }
{
    if word == "--first" {
        return Some(Mark::First);
    }
    if word == "--initial" {
        return Some(Mark::Initial);
    }
    if word == "--kinds" {
        return Some(Mark::Kinds);
    }
    None
}

// Tells whether options have one that is a word alone.
fn has_flag(o: &Options, flag: Flag) -> bool
    ensures { result ≡ has_flag flag o.now }
{
    match flag {
        Flag::Csv => o.is_csv,
        Flag::Json => o.is_json,
        Flag::Flat => o.is_flat,
        Flag::Mix => o.is_mix,
        Flag::Busy => o.is_busy,
    }
}

// Adds an option that is a word alone.
fn marked(o: &Options, flag: Flag) -> Options
    ensures { result ≡ with_flag flag o.now }
{
    match flag {
        Flag::Csv => Options { is_csv: true, ..*o },
        Flag::Json => Options {
            is_json: true,
            ..*o
        },
        Flag::Flat => Options {
            is_flat: true,
            ..*o
        },
        Flag::Mix => Options { is_mix: true, ..*o },
        Flag::Busy => Options {
            is_busy: true,
            ..*o
        },
    }
}

// Adds the option of that name that is a word alone, to options that lack it.
fn with_flag(o: &Options, word: &str) -> Option<Options>
    ensures { MatchOption result
        ((p : Options) → AddsFlag o.now word.now p → ⊥)
        (AddsFlag o.now word.now) }
{
    let Some(flag) = flag_of(word) else {
        return None;
    };
    if has_flag(o, flag) {
        return None;
    }
    Some(marked(o, flag))
}

// Adds the option of that name with the word behind it, to options that lack it.
fn with_word(o: &Options, name: &str, word: &str) -> Option<Options>
    ensures { MatchOption result
        ((p : Options) → Adds o.now name.now word.now p → ⊥)
        (Adds o.now name.now word.now) }
{
    match mark_of(name) {
        Some(Mark::First) => with_first(o, word),
        Some(Mark::Initial) => with_initial(o, word),
        Some(Mark::Kinds) => with_kinds(o, word),
        None => None,
    }
}

// Adds `--first` with its number to options that lack it.
fn with_first(o: &Options, word: &str) -> Option<Options>
    ensures { MatchOption result
        ((p : Options) → AddsWord mark.First o.now word.now p → ⊥)
        (AddsWord mark.First o.now word.now) }
{
    if o.first.is_some() {
        return None;
    }
    match number_of(word) {
        Some(number) => Some(Options {
            first: Some(number),
            ..*o
        }),
        None => None,
    }
}

// Adds `--initial` with its number to options that lack it.
fn with_initial(o: &Options, word: &str) -> Option<Options>
    ensures { MatchOption result
        ((p : Options) → AddsWord mark.Initial o.now word.now p → ⊥)
        (AddsWord mark.Initial o.now word.now) }
{
    if o.initial.is_some() {
        return None;
    }
    match number_of(word) {
        Some(number) => Some(Options {
            initial: Some(number),
            ..*o
        }),
        None => None,
    }
}

// Adds `--kinds` with its names to options that lack it.
fn with_kinds(o: &Options, word: &str) -> Option<Options>
    ensures { MatchOption result
        ((p : Options) → AddsWord mark.Kinds o.now word.now p → ⊥)
        (AddsWord mark.Kinds o.now word.now) }
{
    if o.kinds.is_some() {
        return None;
    }
    match Kinds::read(word.as_bytes()) {
        Some(kinds) => Some(Options {
            kinds: Some(kinds),
            ..*o
        }),
        None => None,
    }
}

/// Takes the options of an audit; none where others are said.
pub(crate) fn audit_options(o: &Options) -> Option<AuditOptions>
    ensures { MatchOption result ((a : AuditOptions) → AreForAudit o.now a → ⊥)
        (AreForAudit o.now) }
{
    if o.kinds.is_some() || o.is_flat || o.is_mix || o.is_busy {
        return None;
    }
    Some(AuditOptions {
        initial: number_in(o.initial),
        first: number_in(o.first),
        separator: separator_of(o.is_csv),
        is_json: o.is_json,
    })
}

// Tells what stands between the fields of files.
fn separator_of(is_csv: bool) -> Separator
    ensures { result ≡ separator_of is_csv }
{
    if is_csv {
        return Separator::Commas;
    }
    Separator::Tabs
}

// Gives the number of an option, if it was said.
fn number_in<const LOW: u32>(said: Option<Number<LOW, 4_294_967_295>>) -> Option<u32>
    ensures { result ≡ said.entry }
{
    match said {
        Some(number) => Some(number.get()),
        None => None,
    }
}

/// Takes the options of a load of that number of requests a terminal; none where others are said,
/// two that exclude each other, or where the number of the last request is past 1,000,000,000.
pub(crate) fn load_options(o: &Options, requests: Ordinal) -> Option<LoadOptions>
    ensures { MatchOption result
        ((l : LoadOptions) → AreForLoad o.now requests l → ⊥)
        (AreForLoad o.now requests) }
{
    if o.initial.is_some() || o.is_csv || o.is_json {
        return None;
    }
    let Some(first) = first_of(o.first, requests) else {
        return None;
    };
    let Some(items) = items_of(o) else {
        return None;
    };
    let Some(form) = form_of(o) else {
        return None;
    };
    Some(LoadOptions {
        first,
        kinds: kinds_of(o.kinds),
        items,
        form,
    })
}

// Tells what becomes of unused items; none where `--mix` stands beside the names of kinds.
fn items_of(o: &Options) -> Option<Items>
    ensures { MatchOption result ((i : Items) → IsOfItems o.now i → ⊥) (IsOfItems o.now) }
{
    if !o.is_mix {
        return Some(Items::Used);
    }
    if o.kinds.is_some() {
        return None;
    }
    Some(Items::AsDrawn)
}

// Tells what is written; none where `--busy` stands beside `--flat`.
fn form_of(o: &Options) -> Option<Form>
    ensures { MatchOption result ((f : Form) → IsOfForm o.now f → ⊥) (IsOfForm o.now) }
{
    if o.is_busy && o.is_flat {
        return None;
    }
    if o.is_busy {
        return Some(Form::Busy);
    }
    if o.is_flat {
        return Some(Form::Flat);
    }
    Some(Form::Script)
}

// Gives the number of the first request, 1 where none was said; none where the last's is past
// 1,000,000,000.
fn first_of(said: Option<Number<1, 4_294_967_295>>, requests: Ordinal) -> Option<Ordinal>
    ensures { MatchOption result
        (unwrap_or said 1 + requests ≤ 1_000_000_001 → ⊥)
        (λ n. (n ≡ unwrap_or said 1) × (n + requests ≤ 1_000_000_001)) }
{
    let Some(first) = said else {
        return Number::new(1);
    };
    if first.get() > 1_000_000_001 - requests.get() {
        return None;
    }
    Number::new(first.get())
}

// Gives the kinds that were named, or that none is.
fn kinds_of(said: Option<Kinds>) -> Kinds
    ensures { result ≡ unwrap_or said none_named }
{
    match said {
        Some(kinds) => kinds,
        None => Kinds::none(),
    }
}
