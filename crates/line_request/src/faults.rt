//! Faults of an envelope's bytes, as they are printed.

ghost use Rattle.std.specs.Prelude.{◌≡◌, IfOk, string_bytes};
ghost use Rattle.line_request.specs.TranslatedLines.{fault_name, line_of_fault};

use scp_codec::Fault;
use std::alloc::{AllocError, Global};

/// The line of a fault: `bad`, its number and its name. An error says that it is out of memory.
pub(crate) fn line_of_fault(alloc: Global, fault: Fault) -> Result<String, AllocError>
    ensures { IfOk result (λ line. string_bytes line ≡ line_of_fault fault) }
{
    let number = fault.number();
    let name = name_of(fault);
    format!(in alloc; "bad {number} {name}\n")
}

fn name_of(fault: Fault) -> &'static str
    ensures { result.now ≡ fault_name fault }
{
    match fault {
        Fault::Truncated => "Truncated",
        Fault::TrailingBytes => "TrailingBytes",
        Fault::Version => "Version",
        Fault::Kind => "Kind",
        Fault::Limit => "Limit",
        Fault::BadSlices => "BadSlices",
        Fault::BadStatement => "BadStatement",
        Fault::SpareVersion => "SpareVersion",
    }
}
