// Frames of two channels, taken apart.
ghost use Rattle.std.specs.Prelude.{◌≡◌, ◌+◌, ◌*◌, ◌<◌, ℕ, [], ◌∷◌, length};
ghost use Rattle.samples.specs.session_model.specs.Samples.{sample, samples_of, stored, up};

// The sample that two bytes store.
fn sample_16(low: u8, high: u8) -> i32
    ensures { result ≡ up 16 (stored 16 (low ∷ high ∷ [])) }
{
    i32::from_le_bytes([0, 0, low, high])
}

/// Sets two channels to those that the bytes of 16 bits store, frame by frame a sample of each.
pub fn take_pairs(bytes: &[u8], left: &mut [i32], right: &mut [i32])
    requires bytes { length bytes.now ≡ length left.old * 4 }
    requires right { length right.old ≡ length left.old }
    ensures left { (k : ℕ) → k < length left.old → sample left.new k ≡ sample (samples_of 16 bytes.now) (k * 2) }
    ensures right { (k : ℕ) → k < length left.old → sample right.new k ≡ sample (samples_of 16 bytes.now) (k * 2 + 1) }
{
    for i in 0..left.len() {
        left[i] = sample_16(bytes[4 * i], bytes[4 * i + 1]);
        right[i] = sample_16(bytes[4 * i + 2], bytes[4 * i + 3]);
    }
}
