//! What is read of a column: each type of value knows its form, and reads the texts that spell it.
ghost use Rattle.std.specs.Prelude.{◌≡◌, ℕ, List, Option, IfSome};
ghost use Rattle.std.specs.Option.{option_copied, option_map};
ghost use Rattle.oe_file_rows.specs.declared.forms.Form.{Form};
ghost use Rattle.oe_file_rows.specs.declared.forms.Form.TheVariants as form;
ghost use Rattle.oe_file_rows.specs.Line.{BeginsWith};
ghost use Rattle.oe_file_rows.specs.Value.{Value};
ghost use Rattle.oe_file_rows.specs.Value as says;
ghost use Rattle.oe_file_rows.specs.Rows.{number_or_null, stamp_or_null};
ghost use Rattle.oe_file_rows.specs.Word.{value_of};

use crate::forms::Form;
use crate::fronts::{money_front, number_front};
use crate::words::{balance, credit, flag, is_null, money, number, rate, stamp, text};
use oe_rows::Credit;
use oe_values::{Amount, Balance, Number, Rate, Stamp, Text};

/// A value that a column of a line may spell.
pub trait ColumnValue {
    /// The value as that of any column.
    ghost value: { Self → Value };

    /// The form of such columns.
    ghost column_form: { Form };

    /// Gives the form of such columns.
    fn form() -> Form
        ensures { result ≡ column_form };

    /// Reads the value that the text spells, where it spells one.
    fn read(field: &[u8]) -> Option<Self>
        ensures { option_map value result ≡ value_of column_form field.now };

    /// Reads the value of the field at the front, and what is left behind the field, without a
    /// search for its end. `None` tells nothing of the field.
    #[inline]
    fn read_front(rest: &[u8]) -> Option<(Self, Option<&[u8]>)>
        ensures { IfSome result (λ p. BeginsWith column_form (value p.0) rest.now
            (option_copied p.1)) }
    {
        let _rest = rest;
        None
    }
}

impl<const LOW: u32, const HIGH: u32> ColumnValue for Number<LOW, HIGH> {
    ghost value = { λ n. says.Number n };

    ghost column_form = { form.Number LOW HIGH };

    fn form() -> Form {
        Form::Number(LOW, HIGH)
    }

    #[tactic(auto, unfolding(crate::specs::Word::value_of))]
    fn read(field: &[u8]) -> Option<Self> {
        number(field)
    }

    #[inline]
    fn read_front(rest: &[u8]) -> Option<(Self, Option<&[u8]>)> {
        number_front(rest)
    }
}

impl<const LOW: u32, const HIGH: u32> ColumnValue for Option<Number<LOW, HIGH>> {
    ghost value = { number_or_null };

    ghost column_form = { form.NullableNumber LOW HIGH };

    fn form() -> Form {
        Form::NullableNumber(LOW, HIGH)
    }

    #[tactic(auto, unfolding(crate::specs::Word::value_of))]
    fn read(field: &[u8]) -> Option<Self> {
        if is_null(field) {
            return Some(None);
        }
        match number(field) {
            Some(number) => Some(Some(number)),
            None => None,
        }
    }
}

impl<const LEAST: usize, const MOST: usize> ColumnValue for Text<LEAST, MOST> {
    ghost value = { λ t. says.Text t };

    ghost column_form = { form.Text LEAST MOST };

    fn form() -> Form {
        Form::Text(LEAST, MOST)
    }

    #[tactic(auto, unfolding(crate::specs::Word::value_of))]
    fn read(field: &[u8]) -> Option<Self> {
        text(field)
    }
}

impl<const MOST: u64> ColumnValue for Amount<MOST> {
    ghost value = { λ n. says.Money n };

    ghost column_form = { form.Money MOST };

    fn form() -> Form {
        Form::Money(MOST)
    }

    #[tactic(auto, unfolding(crate::specs::Word::value_of))]
    fn read(field: &[u8]) -> Option<Self> {
        money(field)
    }

    #[inline]
    fn read_front(rest: &[u8]) -> Option<(Self, Option<&[u8]>)> {
        money_front(rest)
    }
}

impl ColumnValue for Balance {
    ghost value = { λ z. says.Balance z };

    ghost column_form = { form.Balance };

    fn form() -> Form {
        Form::Balance
    }

    #[tactic(auto, unfolding(crate::specs::Word::value_of))]
    fn read(field: &[u8]) -> Option<Self> {
        balance(field)
    }
}

/// A rate in four decimals. A rate is a number by its type, and would be read as one.
pub struct FourDecimals(pub Rate);

impl ColumnValue for FourDecimals {
    ghost value = { λ r. says.Rate r.0 };

    ghost column_form = { form.Rate };

    fn form() -> Form {
        Form::Rate
    }

    #[tactic(auto, unfolding(crate::specs::Word::value_of))]
    fn read(field: &[u8]) -> Option<Self> {
        match rate(field) {
            Some(rate) => Some(FourDecimals(rate)),
            None => None,
        }
    }
}

impl ColumnValue for Credit {
    ghost value = { λ c. says.Standing c };

    ghost column_form = { form.Credit };

    fn form() -> Form {
        Form::Credit
    }

    #[tactic(auto, unfolding(crate::specs::Word::value_of))]
    fn read(field: &[u8]) -> Option<Self> {
        credit(field)
    }
}

impl ColumnValue for bool {
    ghost value = { λ b. says.Flag b };

    ghost column_form = { form.Flag };

    fn form() -> Form {
        Form::Flag
    }

    #[tactic(auto, unfolding(crate::specs::Word::value_of))]
    fn read(field: &[u8]) -> Option<Self> {
        flag(field)
    }
}

impl ColumnValue for Stamp {
    ghost value = { λ n. says.Stamp n };

    ghost column_form = { form.Stamp };

    fn form() -> Form {
        Form::Stamp
    }

    #[tactic(auto, unfolding(crate::specs::Word::value_of))]
    fn read(field: &[u8]) -> Option<Self> {
        stamp(field)
    }
}

impl ColumnValue for Option<Stamp> {
    ghost value = { stamp_or_null };

    ghost column_form = { form.NullableStamp };

    fn form() -> Form {
        Form::NullableStamp
    }

    #[tactic(auto, unfolding(crate::specs::Word::value_of))]
    fn read(field: &[u8]) -> Option<Self> {
        if is_null(field) {
            return Some(None);
        }
        match stamp(field) {
            Some(stamp) => Some(Some(stamp)),
            None => None,
        }
    }
}
