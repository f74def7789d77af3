//! The kinds of transactions that a load is made of, and how they are named.
ghost use Rattle.std.specs.Prelude.{◌≡◌, ◌≢◌, false, MatchOption};
ghost use Rattle.oe_numbers.specs.Kinds.{kind_name, with_kind, none_named, Names};
ghost use Rattle.oe_numbers.specs.declared.kinds.Kind.{Kind};
ghost use Rattle.oe_numbers.specs.declared.kinds.Kinds.{Kinds};

use memchr::memchr;

/// One of the five transactions (clauses 2.4 to 2.8).
#[derive(Clone, Copy)]
pub enum Kind {
    NewOrder,
    Payment,
    Status,
    Delivery,
    Level,
}

/// Which of the five transactions are named.
#[derive(Clone, Copy)]
pub struct Kinds {
    pub new_order: bool,
    pub payment: bool,
    pub status: bool,
    pub delivery: bool,
    pub level: bool,
}

// Finds the kind of that name.
fn kind_of(name: &[u8]) -> Option<Kind>
    ensures { MatchOption result
        ((x : Kind) → name.now ≢ kind_name x)
        (λ x. name.now ≡ kind_name x) }
{
    if name == b"neworder".as_slice() {
        return Some(Kind::NewOrder);
    }
    if name == b"payment".as_slice() {
        return Some(Kind::Payment);
    }
    if name == b"status".as_slice() {
        return Some(Kind::Status);
    }
    if name == b"delivery".as_slice() {
        return Some(Kind::Delivery);
    }
    if name == b"level".as_slice() {
        return Some(Kind::Level);
    }
    None
}

impl Kinds {
    /// Names none.
    pub fn none() -> Kinds
        ensures { result ≡ none_named }
    {
        Kinds {
            new_order: false,
            payment: false,
            status: false,
            delivery: false,
            level: false,
        }
    }

    /// Names one more.
    fn with(self, kind: Kind) -> Kinds
        ensures { result ≡ with_kind kind self }
    {
        match kind {
            Kind::NewOrder => Kinds {
                new_order: true,
                ..self
            },
            Kind::Payment => Kinds {
                payment: true,
                ..self
            },
            Kind::Status => Kinds {
                status: true,
                ..self
            },
            Kind::Delivery => Kinds {
                delivery: true,
                ..self
            },
            Kind::Level => Kinds {
                level: true,
                ..self
            },
        }
    }

    /// Reads names with a comma between each two: `neworder`, `payment`, `status`, `delivery`,
    /// `level`, in any order. None where a part is none of them.
    pub fn read(word: &[u8]) -> Option<Kinds>
        ensures { MatchOption result ((k : Kinds) → Names word.now k → ⊥) (Names word.now) }
    {
        let mut kinds = Kinds::none();
        let mut left = word;
        while let Some(at) = memchr(b',', left) {
            let Some(kind) = kind_of(&left[..at]) else {
                return None;
            };
            kinds = kinds.with(kind);
            left = &left[at + 1..];
        }
        match kind_of(left) {
            Some(kind) => Some(kinds.with(kind)),
            None => None,
        }
    }
}
