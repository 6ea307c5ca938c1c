use samples::settle;
use std::test::Fail;

// Sums from -2^32 in steps of 2^30, eight of them again and again.
fn stairs(sum: &mut [i64]) {
    for (k, step) in sum.iter_mut().enumerate() {
        *step = i64::from((k % 8) as u8) * 1_073_741_824 - 4_294_967_296;
    }
}

// The samples that are nearest to them.
fn flat_stairs(out: &mut [i32]) {
    for (k, step) in out.iter_mut().enumerate() {
        *step = match k % 8 {
            0..=2 => i32::MIN,
            3 => -1_073_741_824,
            4 => 0,
            5 => 1_073_741_824,
            _ => i32::MAX,
        };
    }
}

// Clamps one sum at a time, which never is a whole block.
fn settle_singly(sum: &[i64], out: &mut [i32]) {
    for (one, sample) in sum.iter().zip(out.iter_mut()) {
        let mut settled = [0i32];
        settle(&[*one], &mut settled);
        *sample = settled[0];
    }
}

#[test]
fn blocks_are_clamped_as_single_sums_are(rt: HostRuntime) -> Result<(), Fail> {
    for frames in [0usize, 1, 3, 7, 8, 9, 17, 4096] {
        let mut sum = vec![in rt.alloc(); 0i64; frames]?;
        stairs(&mut sum);
        let mut wanted = vec![in rt.alloc(); 0i32; frames]?;
        flat_stairs(&mut wanted);
        let mut blocks = vec![in rt.alloc(); 7i32; frames]?;
        let mut singly = vec![in rt.alloc(); 7i32; frames]?;
        settle(&sum, &mut blocks);
        settle_singly(&sum, &mut singly);
        assert!(rt; blocks == wanted && singly == wanted);
    }
    Ok(())
}
