//! Which orders a load has, and what is written of it. Clause numbers are TPC Benchmark C 5.11's.

/// What becomes of an unused item, which 1 in 100 orders asks for as its last (clauses 2.4.1.4 and
/// 2.4.1.5).
#[derive(Clone, Copy)]
pub enum Items {
    /// The last item that is there takes its place: no order is rolled back for it.
    Used,
    /// It is asked for, and the order is rolled back (clause 2.4.2.3).
    AsDrawn,
}

/// What is written of a load.
#[derive(Clone, Copy)]
pub enum Form {
    /// A script in which the terminals' transactions overlap.
    Script,
    /// The requests alone.
    Flat,
    /// A table of what was in the way of a script.
    Busy,
}
