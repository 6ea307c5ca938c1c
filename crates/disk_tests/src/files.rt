//! Disk files of one channel at 16 bits and 8,000 Hz.

/// The samples 1 to 10.
pub const TEN: &[u8] =
    b"RIFF8\0\0\0WAVEfmt \x10\0\0\0\x01\0\x01\0\x40\x1f\0\0\x80\x3e\0\0\x02\0\x10\0data\x14\0\0\0\x01\0\x02\0\x03\0\x04\0\x05\0\x06\0\x07\0\x08\0\x09\0\x0a\0";

/// The samples 1 to 8: two whole blocks.
pub const EIGHT: &[u8] =
    b"RIFF4\0\0\0WAVEfmt \x10\0\0\0\x01\0\x01\0\x40\x1f\0\0\x80\x3e\0\0\x02\0\x10\0data\x10\0\0\0\x01\0\x02\0\x03\0\x04\0\x05\0\x06\0\x07\0\x08\0";

/// The samples 1 to 4: one whole block.
pub const FOUR: &[u8] =
    b"RIFF,\0\0\0WAVEfmt \x10\0\0\0\x01\0\x01\0\x40\x1f\0\0\x80\x3e\0\0\x02\0\x10\0data\x08\0\0\0\x01\0\x02\0\x03\0\x04\0";

/// The samples 1 to 6 and a byte of the next one, though the header tells of ten.
pub const CUT: &[u8] =
    b"RIFF8\0\0\0WAVEfmt \x10\0\0\0\x01\0\x01\0\x40\x1f\0\0\x80\x3e\0\0\x02\0\x10\0data\x14\0\0\0\x01\0\x02\0\x03\0\x04\0\x05\0\x06\0\x07";

/// No sample.
pub const NONE: &[u8] =
    b"RIFF$\0\0\0WAVEfmt \x10\0\0\0\x01\0\x01\0\x40\x1f\0\0\x80\x3e\0\0\x02\0\x10\0data\0\0\0\0";

/// No sample, though the header tells of ten.
pub const LOST: &[u8] =
    b"RIFF8\0\0\0WAVEfmt \x10\0\0\0\x01\0\x01\0\x40\x1f\0\0\x80\x3e\0\0\x02\0\x10\0data\x14\0\0\0";

/// The first block of all files that have one.
pub const FIRST: [i32; 4] = [1 << 16, 2 << 16, 3 << 16, 4 << 16];

/// The second block of the files of eight samples and of ten.
pub const SECOND: [i32; 4] = [5 << 16, 6 << 16, 7 << 16, 8 << 16];

/// The last block of the file of ten.
pub const THIRD: [i32; 4] = [9 << 16, 10 << 16, 0, 0];

/// What a player has behind the file's end.
pub const SILENCE: [i32; 4] = [0; 4];
