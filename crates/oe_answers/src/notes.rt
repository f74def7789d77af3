//! Notes for a person on what can't be judged. A note that can't be written whole is let go.
ghost use Rattle.oe_answers.specs.Endings.{Told};
ghost use Rattle.oe_answers.specs.Notes.{verdict_note, comparison_verdict_note, audit_verdict_note};

use oe_comparison::Verdict as ComparisonVerdict;
use oe_fields::Format;
use oe_file_audit::{Side, Verdict as AuditVerdict};
use oe_file_serial::Verdict;
use oe_io::ports::Outlet;

/// Tells why lines of a file of replies have no form.
#[tactic(auto, using(crate::proofs::NoteFacts::told))]
pub(crate) fn tell_verdict<E: Outlet>(verdict: &Verdict<'_>, errors: &mut E)
    ensures { Told (E.sink errors.old) (E.sink errors.new) (verdict_note verdict.now) }
{
    if let Verdict::Unreadable(bad) = verdict {
        let _told = oe_file_serial::write_bad_lines(bad, errors);
    }
}

/// Tells which lines can't be read, of a file of replies or of tables.
#[tactic(auto, using(crate::proofs::NoteFacts::told))]
pub(crate) fn tell_comparison<E: Outlet>(verdict: &ComparisonVerdict<'_>, errors: &mut E)
    ensures { Told (E.sink errors.old) (E.sink errors.new) (comparison_verdict_note verdict.now) }
{
    match verdict {
        ComparisonVerdict::Replies(replies) => tell_verdict(replies, errors),
        ComparisonVerdict::Same | ComparisonVerdict::Differs(_) => {}
        ComparisonVerdict::Unreadable(faults) => {
            let _told = oe_comparison::write_faults(faults, errors);
        }
    }
}

/// Tells why nothing is judged, where nothing is.
#[tactic(auto, using(crate::proofs::NoteFacts::told))]
pub(crate) fn tell_audit<E: Outlet>(format: Option<Format>, verdict: &AuditVerdict, errors: &mut E)
    ensures { Told (E.sink errors.old) (E.sink errors.new) (audit_verdict_note format verdict.now) }
{
    match verdict {
        AuditVerdict::Holds | AuditVerdict::Fails => {}
        AuditVerdict::Unreadable(faults) => {
            let _told = oe_file_audit::write_faults(Side::Now, format, faults.as_slice(), errors);
        }
        AuditVerdict::UnreadableBefore(faults) => {
            let format = Some(format.unwrap_or(Format::Tabs));
            let _told = oe_file_audit::write_faults(
                Side::Before,
                format,
                faults.as_slice(),
                errors,
            );
        }
        AuditVerdict::Lacking(lack) => {
            let _told = oe_file_audit::write_lack(*lack, errors);
        }
    }
}
