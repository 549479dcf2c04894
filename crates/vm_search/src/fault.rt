//! What ends a search without an answer.

use vm_memory::{MemFault, Trap, faults};

/// A key or a next place that can't be read, a key size that is none, or more structures to look at
/// than there may be.
#[derive(Clone, Copy, Debug, PartialEq, Eq)]
pub enum SearchStop {
    Read(MemFault),
    BadSearch,
    Spent,
}

impl From<MemFault> for SearchStop {
    ghost use Rattle.std.specs.Prelude.{◌≡◌};
    ghost use Rattle.vm_search.specs.declared.fault.SearchStop.TheVariants.{Read};

    ghost from_gives = { λ fault stop. stop ≡ Read fault };

    fn from(fault: MemFault) -> SearchStop {
        SearchStop::Read(fault)
    }
}

impl From<SearchStop> for Trap {
    ghost use Rattle.std.specs.Prelude.{◌≡◌};
    ghost use Rattle.vm_memory.specs.declared.fault.Trap.TheVariants.{Fault};
    ghost use Rattle.vm_search.specs.Fault.{search_fault_code};

    ghost from_gives = { λ stop trap. trap ≡ Fault (search_fault_code stop) };

    fn from(stop: SearchStop) -> Trap {
        match stop {
            SearchStop::Read(fault) => Trap::from(fault),
            SearchStop::BadSearch => Trap::Fault(faults::BAD_SEARCH),
            SearchStop::Spent => Trap::Fault(faults::BUDGET_SPENT),
        }
    }
}
