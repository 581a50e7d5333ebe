ghost use Rattle.std.specs.Prelude.{◌≡◌};
ghost use Rattle.index_file.specs.Hash as spec;

/// The 64-bit FNV-1a of key bytes. It takes no memory.
pub fn hash(bytes: &[u8]) -> u64
    ensures { result ≡ spec.hash bytes.now }
{
    let mut state: u64 = 14_695_981_039_346_656_037;
    for byte in bytes {
        state = (state ^ *byte as u64).wrapping_mul(1_099_511_628_211);
    }
    state
}
