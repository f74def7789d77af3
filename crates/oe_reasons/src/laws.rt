//! What ties the table of forms to the grammar, and shows that its lists are whole.
ghost use Rattle.oe_reasons.specs.Laws.{Lists_are_whole, Ranges_are_the_grammars, Verbs_are_read};
ghost use Rattle.oe_reasons.specs.Laws.{Words_are_right};

/// The numbers of a column go from its least to its greatest exactly where the grammar's forms
/// have them.
pub fn ranges_are_the_grammars()
    ensures { Ranges_are_the_grammars }
{}

/// Of a line that the grammar has, the form's own words are the line's, none of its other words is
/// wrong in the form, and its words are neither too few nor too many.
pub fn words_are_right()
    ensures { Words_are_right }
{}

/// Each verb, and each kind of transaction or query, is read as what it is.
pub fn verbs_are_read()
    ensures { Verbs_are_read }
{}

/// The list of forms and ranges leaves out no form, and no column but a form's own words.
pub fn lists_are_whole()
    ensures { Lists_are_whole }
{}
