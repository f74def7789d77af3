//! The words with which forms begin, and those that tell which form is meant.
ghost use Rattle.std.specs.Prelude.{◌≡◌, ◌≤◌, ◌||◌, is_some, length};
ghost use Rattle.oe_values.specs.Front.{after_of};
ghost use Rattle.oe_reasons.specs.Verbs.{is_near, is_word, kind_of, kind_word, near_of, verb_of};
ghost use Rattle.oe_reasons.specs.Verbs.{verb_word};

use oe_values::fronts::after;

/// The word with which a form begins.
#[derive(Clone, Copy)]
pub enum Verb {
    Open,
    Begin,
    Next,
    Run,
    Save,
    Back,
    Rollback,
    Read,
    Audit,
    Purge,
    Rewind,
    Dump,
    Waits,
    Locks,
}

/// The third word of a form that begins or reads: which transaction, or which query.
#[derive(Clone, Copy)]
pub enum Kind {
    Payment,
    NewOrder,
    Delivery,
    Rename,
    Status,
    Level,
}

/// The verbs, in the order in which one is guessed.
const VERBS: [Verb; 14] = [
    Verb::Open,
    Verb::Begin,
    Verb::Next,
    Verb::Run,
    Verb::Save,
    Verb::Back,
    Verb::Rollback,
    Verb::Read,
    Verb::Audit,
    Verb::Purge,
    Verb::Rewind,
    Verb::Dump,
    Verb::Waits,
    Verb::Locks,
];

/// The kinds of transactions and queries.
const KINDS: [Kind; 6] = [
    Kind::Payment,
    Kind::NewOrder,
    Kind::Delivery,
    Kind::Rename,
    Kind::Status,
    Kind::Level,
];

/// Tells whether two texts are one.
#[tactic(auto, unfolding(crate::specs::Verbs::is_word))]
pub(crate) fn is_word(text: &[u8], word: &[u8]) -> bool
    ensures { result ≡ is_word text.now word.now }
{
    text == word
}

/// Tells whether one of two words begins with the other, which has a letter at least.
#[tactic(auto, unfolding(crate::specs::Verbs::is_near))]
fn is_near(word: &[u8], verb: &[u8]) -> bool
    ensures { result ≡ is_near word.now verb.now }
{
    if word.is_empty() {
        return false;
    }
    after(verb, word).is_some() || after(word, verb).is_some()
}

/// Gives the verb that a word is.
#[tactic(auto, unfolding(crate::specs::Verbs::verb_of))]
pub fn read_verb(word: &[u8]) -> Option<Verb>
    ensures { result ≡ verb_of word.now }
{
    VERBS
        .iter()
        .copied()
        .find(|verb| is_word(word, verb.word()))
}

/// Gives the first verb that begins with a word, or with which the word begins.
#[tactic(auto, unfolding(crate::specs::Verbs::near_of))]
pub fn near(word: &[u8]) -> Option<Verb>
    ensures { result ≡ near_of word.now }
{
    VERBS
        .iter()
        .copied()
        .find(|verb| is_near(word, verb.word()))
}

/// Gives the kind that a word is.
#[tactic(auto, unfolding(crate::specs::Verbs::kind_of))]
pub fn read_kind(word: &[u8]) -> Option<Kind>
    ensures { result ≡ kind_of word.now }
{
    KINDS
        .iter()
        .copied()
        .find(|kind| is_word(word, kind.word()))
}

impl Verb {
    /// Gives the verb's word.
    pub fn word(self) -> &'static [u8]
        ensures value { result.now ≡ verb_word self }
        ensures short { length result.now ≤ 8 }
    {
        match self {
            Verb::Open => b"open",
            Verb::Begin => b"begin",
            Verb::Next => b"next",
            Verb::Run => b"run",
            Verb::Save => b"save",
            Verb::Back => b"back",
            Verb::Rollback => b"rollback",
            Verb::Read => b"read",
            Verb::Audit => b"audit",
            Verb::Purge => b"purge",
            Verb::Rewind => b"rewind",
            Verb::Dump => b"dump",
            Verb::Waits => b"waits",
            Verb::Locks => b"locks",
        }
    }
}

impl Kind {
    /// Gives the kind's word.
    pub fn word(self) -> &'static [u8]
        ensures value { result.now ≡ kind_word self }
        ensures short { length result.now ≤ 8 }
    {
        match self {
            Kind::Payment => b"payment",
            Kind::NewOrder => b"neworder",
            Kind::Delivery => b"delivery",
            Kind::Rename => b"rename",
            Kind::Status => b"status",
            Kind::Level => b"level",
        }
    }
}
