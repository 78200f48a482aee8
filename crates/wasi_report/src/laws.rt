//! Theorems about the texts of reports: no two reports that differ have the same text. So a test may compare texts.
ghost use Rattle.wasi_report.specs.AuditReadBack.{AuditsAreDetermined};
ghost use Rattle.wasi_report.specs.GuestsReadBack.{GuestsAreDetermined};
ghost use Rattle.wasi_report.specs.ReadBack.{ReportsAreDetermined};
ghost use Rattle.wasi_report.specs.TrialReadBack.{TrialsAreDetermined};

/// Two reports with the same text are equal. It holds of reports whose numbers fit 64 bits, whose bytes are bytes, and
/// whose directories have their names in strictly rising byte order, as each report that `report` writes.
pub fn reports_are_determined()
    ensures determined { ReportsAreDetermined }
{}

/// Two audits with the same text are equal. It holds of audits whose numbers fit 64 bits, as each that `audit_in`
/// writes.
pub fn audits_are_determined()
    ensures determined { AuditsAreDetermined }
{}

/// Two trials with the same text are equal. It holds of trials whose numbers fit 64 bits, whose bytes are bytes, and
/// whose directories have their names in strictly rising byte order, as each trial that `trial_in` writes.
pub fn trials_are_determined()
    ensures determined { TrialsAreDetermined }
{}

/// Two reports on several guests with the same text are equal. It holds of those whose numbers fit 64 bits, whose bytes
/// are bytes, and whose directories have their names in strictly rising byte order, as each that `guests_in` writes.
pub fn guests_are_determined()
    ensures determined { GuestsAreDetermined }
{}
