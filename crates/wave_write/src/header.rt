ghost use Rattle.std.specs.Prelude.{◌≡◌};
ghost use Rattle.driver_words.specs.session_model.specs.WaveFiles.{IsFormat, opening_text};

use jack_types::Format;

// The header of a file that is not finished: both sizes are 0xFFFFFFFF.
pub fn opening(format: Format) -> [u8; 44]
    requires { IsFormat format }
    ensures { result ≡ opening_text format }
{
    let align = format.channels * (format.bits / 8);
    let speed = format.rate * u32::from(align);
    let [channels_0, channels_1] = format.channels.to_le_bytes();
    let [rate_0, rate_1, rate_2, rate_3] = format.rate.to_le_bytes();
    let [speed_0, speed_1, speed_2, speed_3] = speed.to_le_bytes();
    let [align_0, align_1] = align.to_le_bytes();
    let [bits_0, bits_1] = format.bits.to_le_bytes();
    [
        b'R', b'I', b'F', b'F', 0xff, 0xff, 0xff, 0xff, b'W', b'A', b'V', b'E', b'f', b'm', b't',
        b' ', 16, 0, 0, 0, 1, 0, channels_0, channels_1, rate_0, rate_1, rate_2, rate_3, speed_0,
        speed_1, speed_2, speed_3, align_0, align_1, bits_0, bits_1, b'd', b'a', b't', b'a', 0xff,
        0xff, 0xff, 0xff,
    ]
}
