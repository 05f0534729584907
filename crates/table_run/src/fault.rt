// Why a table is not run to its end.
ghost use Rattle.std.specs.Prelude.{◌≡◌};
ghost use Rattle.table_run.specs.declared.fault.TableRunFault.TheVariants.{Run, Text};

use runs::RunFault;
use table_text::TextFault;

// The text is refused, or the run is stopped.
#[derive(Clone, Copy)]
pub enum TableRunFault {
    Text(TextFault),
    Run(RunFault),
}

impl From<TextFault> for TableRunFault {
    ghost from_gives = { λ fault result. result ≡ Text fault };

    fn from(fault: TextFault) -> TableRunFault {
        TableRunFault::Text(fault)
    }
}

impl From<RunFault> for TableRunFault {
    ghost from_gives = { λ fault result. result ≡ Run fault };

    fn from(fault: RunFault) -> TableRunFault {
        TableRunFault::Run(fault)
    }
}
