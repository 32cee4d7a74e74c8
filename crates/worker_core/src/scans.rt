//! When a worker scans, and which shard.

// Once every shard was scanned in vain, one look in this many scans a shard. Only looks that found no id count.
const LOOKS_BETWEEN_SCANS: u32 = 16;

// Which shard a worker scans next, and whether it scans at all. While scans find tasks, it scans at each look that
// found no id. Otherwise it scans rarely, to leave the turns to the workers that have work.
#[derive(Drop)]
pub(crate) struct Scans {
    // The shard to scan next.
    pub(crate) next: u32,
    // How many scans have found nothing since the last one that found a task.
    pub(crate) missed: u32,
    // How many looks have found no id.
    looks: u32,
}

impl Scans {
    // The first scan is of this shard.
    pub(crate) fn new(first: u32) -> Scans {
        Scans {
            next: first,
            missed: 0,
            looks: 0,
        }
    }

    // Whether a look that found no id scans one of this many shards.
    pub(crate) fn is_due(&mut self, shards: u32) -> bool {
        self.looks = self.looks.wrapping_add(1);
        self.missed < shards || self.looks % LOOKS_BETWEEN_SCANS == 0
    }
}
