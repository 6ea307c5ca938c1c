ghost use Rattle.std.specs.Prelude.{◌≤◌, length};

use host_memory::MemoryStore;
use jack_types::Format;
use std::alloc::Global;
use std::test::Fail;
use wave_write::WaveOut;

const MONO: Format = Format {
    rate: 48_000,
    channels: 1,
    bits: 8,
};

// The store of a file of these samples, and whether it was finished, where the write of this number fails,
// counted from 1.
fn store_of(alloc: Global, samples: &[i32], refused: u32) -> Result<(MemoryStore, bool), Fail>
    requires { length samples.now ≤ 5000 }
{
    let mut store = MemoryStore::new(alloc);
    store.refuse(refused).map_err(|_| "out of memory")?;
    let mut out = match WaveOut::start(store, MONO) {
        Ok(out) => out,
        Err((store, _)) => return Ok((store, false)),
    };
    if out.put(samples).is_err() {
        return Ok((out.stop(), false));
    }
    let (store, result) = out.finish();
    Ok((store, result.is_ok()))
}

// The length of a file of one sample where this write fails, and both sizes, if they are there.
fn after_refusal(alloc: Global, refused: u32) -> Result<(usize, Option<(u32, u32)>), Fail> {
    let (store, _) = store_of(alloc, &[0], refused)?;
    let bytes = store.as_bytes();
    if bytes.len() < 44 {
        return Ok((bytes.len(), None));
    }
    let riff = u32::from_le_bytes([bytes[4], bytes[5], bytes[6], bytes[7]]);
    let size = u32::from_le_bytes([bytes[40], bytes[41], bytes[42], bytes[43]]);
    Ok((bytes.len(), Some((riff, size))))
}

#[test]
fn an_odd_file_has_a_pad_byte(rt: HostRuntime) -> Result<(), Fail> {
    let (store, finished) = store_of(rt.alloc(), &[0], 0)?;
    assert!(rt; finished);
    let text =
        b"RIFF\x26\0\0\0WAVEfmt \x10\0\0\0\x01\0\x01\0\x80\xbb\0\0\x80\xbb\0\0\x01\0\x08\0data\x01\0\0\0\x80\0";
    assert_eq!(rt; store.as_bytes(), text.as_slice());
    Ok(())
}

#[test]
fn each_refused_write_of_an_odd_file_leaves_what_was_written_before(
    rt: HostRuntime,
) -> Result<(), Fail> {
    let open = u32::MAX;
    assert_eq!(rt; after_refusal(rt.alloc(), 1)?, (0, None));
    assert_eq!(rt; after_refusal(rt.alloc(), 2)?, (44, Some((open, open))));
    assert_eq!(rt; after_refusal(rt.alloc(), 3)?, (45, Some((open, open))));
    assert_eq!(rt; after_refusal(rt.alloc(), 4)?, (46, Some((open, open))));
    assert_eq!(rt; after_refusal(rt.alloc(), 5)?, (46, Some((38, open))));
    assert_eq!(rt; after_refusal(rt.alloc(), 6)?, (46, Some((38, 1))));
    Ok(())
}

#[test]
fn a_write_has_at_most_4096_bytes(rt: HostRuntime) -> Result<(), Fail> {
    let samples = vec![in rt.alloc(); 0i32; 4097]?;
    let (whole, _) = store_of(rt.alloc(), &samples[..4096], 3)?;
    assert_eq!(rt; whole.as_bytes().len(), 44 + 4096);
    let (cut, _) = store_of(rt.alloc(), &samples, 3)?;
    assert_eq!(rt; cut.as_bytes().len(), 44 + 4096);
    let (longer, _) = store_of(rt.alloc(), &samples, 4)?;
    assert_eq!(rt; longer.as_bytes().len(), 44 + 4097);
    Ok(())
}
