// The bytes of an image, by its seed.

// The next state of the sequence that images are made of.
fn drawn(x: u32) -> u32 {
    x.wrapping_mul(1664525).wrapping_add(1013904223)
}

fn fill_drawn(image: &mut [u8], seed: u32) {
    let mut x = seed;
    for b in image.iter_mut() {
        x = drawn(x);
        let [_, _, _, high] = x.to_le_bytes();
        *b = high;
    }
}

// Makes row 0 one that adds to 0.
fn fill_cancelling(image: &mut [u8]) {
    if 64 <= image.len() {
        image[3] = 128;
        image[63] = 128;
    }
}

// Fills an image, which is zeros, by its seed.
// Kept: no plainer: seeds 0 and 1 are numbers of the input (tests/vectors/README.md).
pub(crate) fn fill(image: &mut [u8], seed: u32) {
    match seed {
        0 => {}
        1 => fill_cancelling(image),
        _ => fill_drawn(image, seed),
    }
}
