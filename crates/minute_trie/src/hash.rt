//! MurmurHash3, the variant of 32 bits, with the seed 0.
ghost use Rattle.std.specs.Prelude.{◌≡◌, ◌≤◌, ◌<◌, ◌^◌, length, slice_index};
ghost use Rattle.minute_trie.specs.Murmur.{scrambled, mixed, word_of, tail_of, finalized, murmur};

/// A block, scrambled.
#[tactic(auto, unfolding(crate::specs::Murmur::scrambled))]
fn scramble(block: u32) -> u32
    ensures { result ≡ scrambled block }
{
    block
        .wrapping_mul(0xcc9e_2d51)
        .rotate_left(15)
        .wrapping_mul(0x1b87_3593)
}

/// The state after a whole block.
#[tactic(auto, unfolding(crate::specs::Murmur::mixed))]
fn mix(state: u32, block: u32) -> u32
    ensures { result ≡ mixed state block }
{
    (state ^ scramble(block))
        .rotate_left(13)
        .wrapping_mul(5)
        .wrapping_add(0xe654_6b64)
}

/// The byte there, or 0 past the end.
fn byte_at(bytes: &[u8], at: usize) -> u32
    ensures value { result ≡ slice_index bytes.now at }
    ensures small { result < 256 }
{
    match bytes.get(at) {
        Some(byte) => u32::from(*byte),
        None => 0,
    }
}

/// One to three bytes as a number, or 0 for none.
fn tail(bytes: &[u8]) -> u32
    requires { length bytes.now < 4 }
    ensures { result ≡ tail_of bytes.now }
{
    byte_at(bytes, 0) + 256 * (byte_at(bytes, 1) + 256 * byte_at(bytes, 2))
}

/// The first four bytes as a number.
fn word(bytes: &[u8]) -> u32
    requires { 4 ≤ length bytes.now }
    ensures { result ≡ word_of (slice_index bytes.now 0) (slice_index bytes.now 1) (slice_index bytes.now 2) (slice_index bytes.now 3) }
{
    byte_at(bytes, 0)
        + 256 * (byte_at(bytes, 1) + 256 * (byte_at(bytes, 2) + 256 * byte_at(bytes, 3)))
}

/// Spreads the bits of the state.
#[tactic(auto, unfolding(crate::specs::Murmur::finalized, crate::specs::Murmur::xor_shifted))]
fn finalize(state: u32) -> u32
    ensures { result ≡ finalized state }
{
    let state = state ^ (state >> 16);
    let state = state.wrapping_mul(0x85eb_ca6b);
    let state = state ^ (state >> 13);
    let state = state.wrapping_mul(0xc2b2_ae35);
    state ^ (state >> 16)
}

/// The hash of the bytes: MurmurHash3 (x86, 32 bits) with the seed 0, as Austin Appleby
/// published it.
pub fn hash32(bytes: &[u8]) -> u32
    ensures { result ≡ murmur bytes.now }
{
    let mut state = 0;
    let mut rest = bytes;
    while rest.len() >= 4 {
        state = mix(state, word(rest));
        rest = &rest[4..];
    }
    let state = state ^ scramble(tail(rest));
    finalize(state ^ (bytes.len() % 0x1_0000_0000) as u32)
}
