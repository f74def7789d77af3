//! The commits of desks. No memory is taken where they are not asked for.
ghost use Rattle.std.specs.Prelude.{◌≡◌, ◌∷◌, ◌++◌, [], true, false, IsPermutation};
ghost use Rattle.oe_deeds.specs.Commits.{IsInOrder};

use oe_requests::{Reply, Request};
use oe_values::{Moment, Terminal};
use std::alloc::Global;

/// A commit: the moment that it made, the terminal that asked for it, and what that was replied.
#[derive(Drop)]
pub struct Commit {
    pub moment: Moment,
    pub terminal: Terminal,
    pub request: Request,
    pub reply: Reply,
}

/// The commits that were kept, where they are asked for. They are short where memory for one was
/// refused.
#[derive(Drop)]
pub struct Commits {
    pub kept: Vec<Commit>,
    pub is_asked: bool,
    pub is_short: bool,
}

impl Commits {
    /// Keeps nothing so far, and nothing later unless commits are asked for.
    pub fn new(alloc: Global, is_asked: bool) -> Commits
        ensures kept { result.kept.items ≡ [] }
        ensures asked { (result.is_asked ≡ is_asked) × (result.is_short ≡ false) }
    {
        Commits {
            kept: Vec::new(alloc),
            is_asked,
            is_short: false,
        }
    }

    // Appends a commit. Tells whether there was memory for it.
    fn push(&mut self, commit: Commit) -> bool
        ensures asked { self.new.is_asked ≡ self.old.is_asked }
        ensures short { self.new.is_short ≡ self.old.is_short }
        ensures kept { result ≡ true → self.new.kept.items ≡ self.old.kept.items ++ commit ∷ [] }
    {
        self.kept.push(commit).is_ok()
    }

    /// Keeps a commit, where commits are asked for.
    pub fn note(&mut self, moment: Moment, terminal: Terminal, request: &Request, reply: &Reply)
        ensures asked { self.new.is_asked ≡ self.old.is_asked }
        ensures idle { self.old.is_asked ≡ false → self.new ≡ self.old }
        ensures kept { self.old.is_asked ≡ true → self.new.is_short ≡ false
            → (self.old.is_short ≡ false) × (self.new.kept.items
            ≡ self.old.kept.items ++ (record {
              moment = moment;
              terminal = terminal;
              request = request.now;
              reply = reply.now;
            }) ∷ []) }
    {
        if !self.is_asked {
            return;
        }
        let commit = Commit {
            moment,
            terminal,
            request: request.copied(),
            reply: reply.copied(),
        };
        if !self.push(commit) {
            self.is_short = true;
        }
    }

    // Appends commits. Tells whether there was memory for them.
    fn append(&mut self, commits: Vec<Commit>) -> bool
        ensures asked { self.new.is_asked ≡ self.old.is_asked }
        ensures short { self.new.is_short ≡ self.old.is_short }
        ensures kept { result ≡ true
            → self.new.kept.items ≡ self.old.kept.items ++ commits.items }
    {
        let mut commits = commits;
        self.kept.append(&mut commits).is_ok()
    }

    /// Puts the commits of another behind these.
    pub fn add(&mut self, other: Commits)
        ensures asked { self.new.is_asked ≡ self.old.is_asked }
        ensures kept { self.new.is_short ≡ false → (self.old.is_short ≡ false)
            × (other.is_short ≡ false)
            × (self.new.kept.items ≡ self.old.kept.items ++ other.kept.items) }
    {
        let Commits {
            kept,
            is_asked: _,
            is_short,
        } = other;
        if !self.append(kept) || is_short {
            self.is_short = true;
        }
    }

    /// Puts them in the order of their moments.
    pub fn sort(&mut self)
        ensures moved { IsPermutation self.old.kept.items self.new.kept.items }
        ensures ordered { IsInOrder self.new.kept.items }
        ensures same { (self.new.is_asked ≡ self.old.is_asked)
            × (self.new.is_short ≡ self.old.is_short) }
    {
        sort(&mut self.kept);
    }
}

// Puts commits in the order of their moments.
fn sort(commits: &mut Vec<Commit>)
    ensures moved { IsPermutation commits.old.items commits.new.items }
    ensures ordered { IsInOrder commits.new.items }
{
    commits.sort_unstable_by_key(|commit| commit.moment.get());
}
