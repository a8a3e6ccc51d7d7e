//! What is written of a run.
ghost use Rattle.std.specs.Prelude.{flat_map};
ghost use Rattle.text_ends.specs.Faults.{HasCause};
ghost use Rattle.text_ends.specs.Writing.{Writes};
ghost use Rattle.camlheap_run.specs.Writing.{run_text};

use crate::write::sections::write_section;
use crate::write::summary::write_summary;
use run_turns::DomainRun;
use text_ends::{Failed, Sink};

/// What is written of a run.
#[derive(Clone, Copy, Debug, PartialEq, Eq)]
pub(crate) enum Report {
    /// For each domain its heading and the lines of its replies.
    Replies,
    /// For each domain a line with figures of its replies.
    Summary,
}

// Writes what a report has of one domain.
pub(crate) fn write_run<K: Sink>(out: &mut K, report: Report, run: &DomainRun) -> Result<(), Failed>
    ensures cause { HasCause (K.faults out.old) (K.faults out.new) result }
    ensures bytes { Writes (K.written out.old) (K.written out.new) result (run_text report run.now) }
{
    match report {
        Report::Replies => write_section(out, run.domain().number(), run.replies()),
        Report::Summary => write_summary(out, run),
    }
}

// Writes the report of runs, in order.
pub(crate) fn write_report<K: Sink>(
    out: &mut K,
    report: Report,
    runs: &[DomainRun],
) -> Result<(), Failed>
    ensures cause { HasCause (K.faults out.old) (K.faults out.new) result }
    ensures bytes { Writes (K.written out.old) (K.written out.new) result (flat_map (run_text report) runs.now) }
{
    'runs: for run in runs {
        write_run(out, report, run)?;
    }
    Ok(())
}
