ghost use Rattle.std.specs.Prelude.{◌≤◌};

use port_mixer::Mixer;
use std::alloc::Global;
use std::process::Abort;
use std::test::Fail;

/// Two parts of full scale in 16 bits are clamped, a third of the opposite takes the sum back.
fn mixes_with_one_clamp(rt: &impl Abort, alloc: Global, frames: u32) -> Result<(), Fail>
    requires { frames ≤ 4096 }
{
    let high = vec![in alloc; 2147418112; frames as usize]?;
    let low = vec![in alloc; -2147483648; frames as usize]?;
    let mut out = vec![in alloc; 1; frames as usize]?;
    let mut mixer = Mixer::new(alloc, frames).map_err(|_| "out of memory")?;
    mixer.clear(frames);
    mixer.settle(&mut out);
    assert!(rt; out.iter().all(|x| *x == 0));
    mixer.add(&high);
    mixer.add(&high);
    mixer.settle(&mut out);
    assert!(rt; out.iter().all(|x| *x == 2147483647));
    mixer.add(&low);
    mixer.settle(&mut out);
    assert!(rt; out.iter().all(|x| *x == 2147352576));
    mixer.clear(frames);
    mixer.settle(&mut out);
    assert!(rt; out.iter().all(|x| *x == 0));
    Ok(())
}

/// Four parts that nearly cancel, four more that pass full scale, and one that takes the sum back.
fn mixes_four_at_once(rt: &impl Abort, alloc: Global, frames: u32) -> Result<(), Fail>
    requires { frames ≤ 4096 }
{
    let high = vec![in alloc; 2147418112; frames as usize]?;
    let low = vec![in alloc; -2147483648; frames as usize]?;
    let mut out = vec![in alloc; 1; frames as usize]?;
    let mut mixer = Mixer::new(alloc, frames).map_err(|_| "out of memory")?;
    mixer.clear(frames);
    mixer.add_four(&high, &low, &high, &low);
    mixer.settle(&mut out);
    assert!(rt; out.iter().all(|x| *x == -131072));
    mixer.add_four(&high, &high, &high, &low);
    assert_eq!(rt; mixer.parts(), 8);
    mixer.settle(&mut out);
    assert!(rt; out.iter().all(|x| *x == 2147483647));
    mixer.add(&low);
    mixer.settle(&mut out);
    assert!(rt; out.iter().all(|x| *x == 2147155968));
    Ok(())
}

#[test]
fn a_mix_has_any_length(rt: HostRuntime) -> Result<(), Fail> {
    mixes_with_one_clamp(&rt, rt.alloc(), 0)?;
    mixes_with_one_clamp(&rt, rt.alloc(), 7)?;
    mixes_with_one_clamp(&rt, rt.alloc(), 8)?;
    mixes_with_one_clamp(&rt, rt.alloc(), 9)?;
    mixes_with_one_clamp(&rt, rt.alloc(), 4096)
}

#[test]
fn four_parts_are_added_at_once(rt: HostRuntime) -> Result<(), Fail> {
    mixes_four_at_once(&rt, rt.alloc(), 0)?;
    mixes_four_at_once(&rt, rt.alloc(), 1)?;
    mixes_four_at_once(&rt, rt.alloc(), 7)?;
    mixes_four_at_once(&rt, rt.alloc(), 8)?;
    mixes_four_at_once(&rt, rt.alloc(), 9)?;
    mixes_four_at_once(&rt, rt.alloc(), 4096)
}
