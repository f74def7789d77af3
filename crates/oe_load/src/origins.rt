//! What a load begins on.
ghost use Rattle.std.specs.Prelude.{◌≡◌, ◌++◌, ◌∷◌, []};
ghost use Rattle.oe_load.specs.Loads.{opening_text, ring_text};

use oe_lines::open_line;
use oe_numbers::Form;
use oe_store::Tables;
use oe_terms::Plan;
use oe_texts::{Pending, small, text};

/// The tables that a load's first line finds.
pub enum Origin {
    /// The population of its plan's scale, by formulas. A script opens it.
    Population,
    /// These. A script on them begins opened, and has no line `open`.
    Tables(Tables),
}

impl Origin {
    /// Lets go of the tables.
    pub(crate) fn discard(self) {
        match self {
            Origin::Population => {}
            Origin::Tables(tables) => tables.discard(),
        }
    }
}

/// Tells the line before the others: the opening of a population; on tables that are there none,
/// and before requests alone the extents, as a file of replies from such tables begins. A table has
/// none.
pub(crate) fn open(out: &mut Pending, plan: &Plan, origin: &Origin, form: Form)
    requires { out.old.items ≡ [] }
    ensures { out.new.items ≡ opening_text plan.now origin.now form }
{
    match origin {
        Origin::Population => match form {
            Form::Script | Form::Flat => {
                open_line(out, &plan.numbers.scale, plan.numbers.extents);
            }
            Form::Busy => {}
        },
        Origin::Tables(_) => match form {
            Form::Script | Form::Busy => {}
            Form::Flat => ring_line(out, plan),
        },
    }
}

/// Appends the line that says how many extents there are.
fn ring_line(out: &mut Pending, plan: &Plan)
    requires { out.old.items ≡ [] }
    ensures { out.new.items ≡ ring_text plan.now }
{
    text(out, b"open ");
    small(out, plan.numbers.extents.get());
    out.push(b'\n');
}
