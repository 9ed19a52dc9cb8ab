use crate::over_memory::{fail_call, give_epoch, recover_epochs};
use member_disk::MemoryDisk;
use segment_store::StoreFault;
use std::alloc::Global;

fn epoch(alloc: Global, disk: &mut MemoryDisk) -> Option<u64> {
    match recover_epochs(alloc, disk) {
        Ok(epochs) => {
            if epochs.epoch(2) == 9 {
                Some(epochs.epoch(1))
            } else {
                None
            }
        }
        Err(_) => None,
    }
}

// Gives stream 2 epoch 9 and stream 1 epoch 1, and then epoch 2 in a job of which the nth call of the disk fails.
fn stop(alloc: Global, disk: &mut MemoryDisk, n: u64) -> Option<()> {
    let mut epochs = recover_epochs(alloc, disk).ok()?;
    give_epoch(disk, &mut epochs, 2, 9).ok()?;
    give_epoch(disk, &mut epochs, 1, 1).ok()?;
    fail_call(disk, 0, n.max(1)).ok()?;
    let is_right = match give_epoch(disk, &mut epochs, 1, 2) {
        Ok(receipt) => n > 4 && receipt.stream() == 1 && receipt.member() == 0,
        Err(StoreFault::Disk) => n <= 4 && epochs.epoch(1) == 1,
        Err(_) => false,
    };
    if is_right { Some(()) } else { None }
}

// The epoch of stream 1 after such a job, without a crash or after one.
fn after(alloc: Global, n: u64, image: Option<u8>) -> Option<u64> {
    let mut disk = MemoryDisk::new(alloc);
    stop(alloc, &mut disk, n)?;
    if let Some(image) = image {
        disk.crash(0, image.min(3)).ok()?;
    }
    let first = epoch(alloc, &mut disk)?;
    disk.crash(0, 0).ok()?;
    let second = epoch(alloc, &mut disk)?;
    if first == second { Some(first) } else { None }
}

#[test]
fn an_epoch_is_stopped_at_each_call(rt: HostRuntime) {
    for (n, wants) in [
        (1, [1, 1, 1, 1]),
        (2, [1, 1, 1, 1]),
        (3, [1, 1, 1, 1]),
        (4, [1, 2, 1, 2]),
        (5, [2, 2, 2, 2]),
    ] {
        for (image, want) in (0u8..4).zip(wants) {
            assert_eq!(rt;
                after(rt.alloc(), n, Some(image)),
                Some(want),
                "call {n}, image {image}"
            );
        }
        if n < 5 {
            assert_eq!(rt; after(rt.alloc(), n, None), Some(wants[1]), "call {n}");
        }
    }
}
