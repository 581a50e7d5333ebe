use dev_traits::{Damaged, DevError, Failed, MakeFault, OutsideFault, Part, ReadFault, Shown};
use std::alloc::{AllocError, AllocFailed, Global};

fn fault_of(word: &str) -> Option<OutsideFault> {
    match word {
        "maker failed" => Some(OutsideFault::from(MakeFault::from(DevError::Failed))),
        "maker memory" => Some(OutsideFault::from(MakeFault::from(DevError::Memory))),
        "maker handed" => Some(OutsideFault::from(MakeFault::from(AllocFailed { value: 1 }))),
        "reader failed" => Some(OutsideFault::from(ReadFault::from(Failed))),
        "reader damaged" => Some(OutsideFault::from(ReadFault::Damaged(Damaged {
            file: 7,
            part: Part::Block(2),
            shown: Shown::Form,
        }))),
        "reader memory" => Some(OutsideFault::from(ReadFault::from(AllocError))),
        "reader handed" => Some(OutsideFault::from(ReadFault::from(AllocFailed { value: 1 }))),
        _ => None,
    }
}

/// `fault NAME`: how a fault of a device that was passed up prints.
pub fn fault(alloc: Global, words: &str) -> Result<String, AllocError> {
    match fault_of(words) {
        Some(fault) => format!(in alloc; "{fault}"),
        None => "no fault".to_string(alloc),
    }
}
