// A row of a sheet.
ghost use Rattle.std.specs.Prelude.{◌≡◌};
ghost use Rattle.sheets.specs.Strips.{blank_row};

use line::Run;
use rules::Action;
use service::Service;

// A run of services under one decision.
pub type SheetRow = Run<Service, Option<Action>>;

// The row that stands after a line.
pub(crate) fn blank_row() -> SheetRow
    ensures { result ≡ blank_row }
{
    Run::blank(None)
}
