// Laws of reports.
ghost use Rattle.run_report.specs.FlatText.{ReportsHaveFlatParts};

/// The flat part of a report is what its flat state alone gives.
pub fn reports_have_flat_parts()
    ensures { ReportsHaveFlatParts }
{}
