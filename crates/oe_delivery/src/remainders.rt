//! What is left of the delivery of an order, once the order has its carrier: the lines that are
//! still to be dated, and the sum of the amounts of those that are done. An order has at most 15
//! lines, so that the sum stays far below what its type holds. Nothing here takes memory.
ghost use Rattle.std.specs.Prelude.{◌≡◌, ◌+◌, ◌<◌, ℕ, [], ◌∷◌, drop, length};
ghost use Rattle.std.specs.Option.{MatchOption};

use oe_requests::DeliveredOrder;
use oe_values::lines::Lines;
use oe_values::{Cents, CustomerNumber, LineAmount, LineNumber, OrderNumber};
use std::marker::Model;

/// OL_NUMBER of a line, in a list of such numbers.
#[derive(Clone, Copy)]
pub struct Listed {
    number: LineNumber,
}

impl Model for Listed {
    ghost Value = { ℕ };

    ghost view = { λ l. l.number };

    ghost inverse = { λ n. record { number = n } };
}

impl Listed {
    /// Makes a line of that number.
    pub fn new(number: LineNumber) -> Self
        ensures { result ≡ number }
    {
        Listed { number }
    }
}

impl Default for Listed {
    ghost is_default = { λ l. l ≡ 1 };

    fn default() -> Self {
        Listed {
            number: LineNumber::new(1).unwrap(),
        }
    }
}

/// The numbers of an order's lines.
pub type LineNumbers = Lines<Listed, 0, 15>;

/// An order that has its carrier, with the numbers of its lines, how many of them are dated, and
/// the sum of their OL_AMOUNTs.
#[derive(Drop)]
pub struct Remainder {
    order: OrderNumber,
    customer: CustomerNumber,
    numbers: LineNumbers,
    done: usize,
    sum: u64,
}

impl Model for Remainder {
    ghost use Rattle.std.specs.Prelude.{◌+◌, ◌*◌, ◌≤◌, drop, length};
    ghost use Rattle.oe_delivery.specs.Remainder.{Left};

    ghost Value = { Left };

    ghost view = { λ r. record {
      order = r.order;
      customer = r.customer;
      numbers = drop r.done r.numbers;
      sum = r.sum;
    } };

    ghost invariant = { λ r. r.sum + 999_999 * length (drop r.done r.numbers) ≤ 14_999_985 };
}

impl Remainder {
    /// Makes an order of that customer with lines of these numbers, none of them dated.
    pub fn new(order: OrderNumber, customer: CustomerNumber, numbers: LineNumbers) -> Self
        ensures { result
            ≡ record { order = order; customer = customer; numbers = numbers; sum = 0 } }
    {
        let _lines = numbers.as_slice();
        Remainder {
            order,
            customer,
            numbers,
            done: 0,
            sum: 0,
        }
    }

    /// Copies the value.
    pub fn copied(&self) -> Self
        ensures { result ≡ self.now }
    {
        Remainder {
            order: self.order,
            customer: self.customer,
            numbers: self.numbers.copied(),
            done: self.done,
            sum: self.sum,
        }
    }

    /// Gives O_ID.
    pub fn order(&self) -> OrderNumber
        ensures { result ≡ self.now.order }
    {
        self.order
    }

    /// Gives O_C_ID.
    pub fn customer(&self) -> CustomerNumber
        ensures { result ≡ self.now.customer }
    {
        self.customer
    }

    /// Gives the sum of the OL_AMOUNTs of the lines that are dated.
    pub fn sum(&self) -> Cents
        ensures { result ≡ self.now.sum }
    {
        Cents::new(self.sum)
    }

    /// Gives OL_NUMBER of the first line that is not dated; none where all are.
    pub fn next_number(&self) -> Option<LineNumber>
        ensures { MatchOption result (self.now.numbers ≡ []) (λ n.
            self.now.numbers ≡ n ∷ drop 1 self.now.numbers) }
    {
        match self.numbers.as_slice().get(self.done) {
            Some(listed) => Some(listed.number),
            None => None,
        }
    }

    /// Goes past the first line that is not dated, whose OL_AMOUNT that is. There is one.
    pub fn pass(&mut self, amount: LineAmount)
        requires { 0 < length self.old.numbers }
        ensures { self.new ≡ record {
          order = self.old.order;
          customer = self.old.customer;
          numbers = drop 1 self.old.numbers;
          sum = self.old.sum + amount;
        } }
    {
        let _lines = self.numbers.as_slice();
        self.sum += amount.cents();
        self.done += 1;
    }

    /// Gives what the delivery answers of it.
    pub fn delivered(&self) -> DeliveredOrder
        ensures { result
            ≡ record { order = self.now.order; customer = self.now.customer; sum = self.now.sum } }
    {
        DeliveredOrder {
            order: self.order,
            customer: self.customer,
            sum: Cents::new(self.sum),
        }
    }
}
