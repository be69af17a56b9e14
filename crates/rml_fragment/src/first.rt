// The first of some faults. The text's reader is shown one fault, and it is to be the one that he meets first.
ghost use Rattle.std.specs.Prelude.{◌≡◌, Some};
ghost use Rattle.rml_fragment.specs.Search.{earlier_of, earlier, fault_unless};

use rml_lex::{Fault, FaultCode};

// The fault that comes first: by its place, and at one place by the number of its code.
pub fn earlier(first: Option<Fault>, other: Option<Fault>) -> Option<Fault>
    ensures { result ≡ earlier first other }
{
    match first {
        None => other,
        Some(first) => match other {
            None => Some(first),
            Some(other) => Some(earlier_of(first, other)),
        },
    }
}

// The earlier of a fault and one that may be missing.
pub fn first_with(fault: Fault, other: Option<Fault>) -> Fault
    ensures { Some result ≡ earlier (Some fault) other }
{
    match other {
        None => fault,
        Some(other) => earlier_of(fault, other),
    }
}

// The earlier of two faults.
fn earlier_of(first: Fault, other: Fault) -> Fault
    ensures { result ≡ earlier_of first other }
{
    if first.at < other.at {
        first
    } else if other.at < first.at {
        other
    } else if first.code.number() <= other.code.number() {
        first
    } else {
        other
    }
}

// A fault at this place, where something is not so.
pub fn fault_unless(is_so: bool, code: FaultCode, at: u64) -> Option<Fault>
    ensures { result ≡ fault_unless is_so code at }
{
    if is_so {
        None
    } else {
        Some(Fault { code, at })
    }
}
