//! What every script keeps, whatever its lines ask for and in whatever order. Each public function
//! has an empty body and carries one law, of what `oe_script` says that an input may be answered.
#![tactic(auto)]

ghost use Rattle.oe_script_laws.specs.Beside.{Others_see_nothing};
ghost use Rattle.oe_script_laws.specs.Laws.{Lines_are_deeds, Worlds_are_reached, Audits_hold, More_audits_hold, Movements_hold, Reads_are_of_moments, Scripts_are_runs, Lines_without_rollback, Outputs_without_rollback, Answers_are_determined, Rewinds_restore, Faults_cut_outputs};
ghost use Rattle.oe_model.specs.System.{system};

/// Of each line that is answered it is known what it was: none of the forms, an opening, one that
/// shows a table or who waits for whom, or steps of the machine with their answers.
pub fn lines_are_deeds()
    ensures { Lines_are_deeds }
{}

/// Each state that the lines of a script pass through is one that steps led to from a population,
/// or nothing is open yet.
pub fn worlds_are_reached()
    ensures { Worlds_are_reached }
{}

/// Between any two lines conditions 1 to 4 (clauses 3.3.2.1 to 3.3.2.4) hold of the version of each
/// moment, and of the tables where nothing is open. Each line that asks for an audit of one of
/// them, at a moment that is kept, is answered that the condition holds.
pub fn audits_hold()
    ensures { Audits_hold }
{}

/// Between any two lines conditions 5 to 10 and 12 (clauses 3.3.2.5 to 3.3.2.10 and 3.3.2.12) hold
/// of the version of each moment, since they hold of the population that the script opened. Each
/// line that asks for an audit of any of the eleven conditions, at a moment that is kept, is
/// answered that the condition holds.
pub fn more_audits_hold()
    ensures { More_audits_hold }
{}

/// Between any two lines what New-Order, Payment and Delivery keep besides (`Movements` of
/// `oe_movements`) holds of the version of each moment, and of the tables where nothing is open.
pub fn movements_hold()
    ensures { Movements_hold }
{}

/// Each line that asks a query of a moment that is kept is answered what is found in the version of
/// that moment, whatever is open: in what the first commits leave, up to that moment, run one at a
/// time, each with its whole effect. These are the commits that the script's lines and answers tell
/// of (`commits_of`), also those that purges have forgotten.
pub fn reads_are_of_moments()
    ensures { Reads_are_of_moments }
{}

/// From the opening on, the lines are one run of the machine. So each commit is the whole effect of
/// its request on the newest version, although others overlapped it; each refusal that rolls a
/// transaction back is its program's own; and the same transactions, run one at a time, make the
/// same commits.
pub fn scripts_are_runs()
    ensures { Scripts_are_runs }
{}

/// Each line that asks for a rewind to a moment that is kept, while nothing is open, leaves the
/// moment's version, of the commits that the script's lines and answers tell of; to moment 0, as
/// long as nothing was purged, the population. A purge makes the version of its moment the base
/// that a run goes on from.
pub fn rewinds_restore()
    ensures { Rewinds_restore }
{}

/// Beside an open transaction each step of others is answered as it is without that transaction,
/// but that `NotQuiet` counts one fewer, unless it gives way to it: its answer is `Busy` with that
/// terminal, `AlreadyOpen` of it, `NotQuiet 1`, or `UndoFull` while it holds an extent. A step that
/// gives way is answered otherwise without it.
pub fn others_see_nothing()
    ensures { Others_see_nothing system }
{}

/// A script without the lines of a transaction that was rolled back, and without those that gave way
/// to it, has the same other answers, and leaves the same state; but `NotQuiet` counts one fewer.
pub fn rollback_leaves_no_trace()
    ensures { Lines_without_rollback }
{}

/// A whole input without the lines of a transaction that was rolled back has the same other output,
/// but that lines which are none of the forms have their new numbers.
pub fn outputs_without_rollback()
    ensures { Outputs_without_rollback }
{}

/// Where no line is refused memory, lines determine their answers and the state that they leave,
/// and an input its output.
pub fn answers_are_determined()
    ensures { Answers_are_determined }
{}

/// Where a run of a script ends with a fault, in the midst of any transactions: after one of the
/// reader exactly the answers of all whole lines that were read were written, and whatever input
/// follows, an output of all of it begins so; after one of the writer what was written is a
/// beginning of an output of what was read.
pub fn faults_cut_outputs()
    ensures { Faults_cut_outputs }
{}
