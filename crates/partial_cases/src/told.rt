use dev_traits::{OutsideFault, ReadFault};
use load_csv::LoadFault;
use pk_model::Reply;
use std::alloc::{AllocError, Global};

/// What a turn replied.
pub fn reply_text(alloc: Global, reply: &Reply) -> Result<String, AllocError> {
    match reply {
        Reply::Published(v) => format!(in alloc; "published {v}"),
        Reply::Opened(v) => format!(in alloc; "opened {v}"),
        Reply::Floor(v) => format!(in alloc; "floor {v}"),
        Reply::Expired(v) => format!(in alloc; "expired {v}"),
        Reply::NotYet(v) => format!(in alloc; "not-yet {v}"),
        Reply::Closed(place) => format!(in alloc; "closed {place}"),
        Reply::StoreFault(count) => format!(in alloc; "store-fault {count}"),
        Reply::Damaged(damaged) => {
            format!(in alloc; "damaged file {} {:?}", damaged.file, damaged.part)
        }
        Reply::Worn(number) => format!(in alloc; "worn {number}"),
        Reply::ManyVersions => "many-versions".to_string(alloc),
        Reply::Memory => Err(AllocError),
        _ => "another reply".to_string(alloc),
    }
}

/// Why a load wasn't prepared.
pub fn outside_text(alloc: Global, fault: &OutsideFault) -> Result<String, AllocError> {
    match fault {
        OutsideFault::Fault => "fault".to_string(alloc),
        OutsideFault::Damaged(damaged) => {
            format!(in alloc; "damaged file {} {:?}", damaged.file, damaged.part)
        }
        OutsideFault::Memory => Err(AllocError),
    }
}

/// Why rows were not made again, or not read.
pub fn read_text(alloc: Global, fault: &ReadFault) -> Result<String, AllocError> {
    match fault {
        ReadFault::StoreFault => "failed".to_string(alloc),
        ReadFault::Damaged(damaged) => {
            format!(in alloc; "damaged file {} {:?}", damaged.file, damaged.part)
        }
        ReadFault::Memory => Err(AllocError),
    }
}

/// Why a load file was refused.
pub fn load_text(alloc: Global, fault: &LoadFault) -> Result<String, AllocError> {
    match fault {
        LoadFault::Memory => Err(AllocError),
        _ => format!(in alloc; "{fault:?}"),
    }
}
