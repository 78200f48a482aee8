//! What tells whether two paths name one node.
ghost use Rattle.std.specs.Prelude.{◌≡◌};
ghost use Rattle.wasi_fs.specs.MetadataHash.{metadata_hash};

use wasi_host::Metadata;

/// A hash of 128 bits in two halves: equal exactly for metadata of one node. The crate's `MetadataHashValue`, where the
/// lower half is the node's number in place of a hash of device and inode.
#[derive(Clone, Copy, Debug, PartialEq, Eq)]
pub struct MetadataHashValue {
    pub lower: u64,
    pub upper: u64,
}

impl MetadataHashValue {
    /// The bits of the double that is nearest to pi, by which the halves differ.
    const DIFFERENCE: u64 = 4_614_256_656_552_045_848;

    /// The hash of a node's metadata.
    pub fn new(metadata: &Metadata) -> MetadataHashValue
        ensures hash { result ≡ metadata_hash metadata.now }
    {
        let lower = metadata.ino();
        MetadataHashValue {
            lower,
            upper: lower ^ MetadataHashValue::DIFFERENCE,
        }
    }
}
