//! The colours of pictures.

/// The colours of controllers, light ones on which black letters can be read.
const LIGHT: [&[u8]; 32] = [
    b"#e8f0fe", b"#d5f6df", b"#e8d5f6", b"#f6f2d5", b"#d5f1f6", b"#f6d5e7", b"#ddf6d5", b"#d6d5f6",
    b"#f6e0d5", b"#d5f6ea", b"#f3d5f6", b"#eff6d5", b"#b3d1ef", b"#efb3c0", b"#b3efb8", b"#cab3ef",
    b"#efdbb3", b"#b3efed", b"#efb3e0", b"#ceefb3", b"#b3bdef", b"#efbbb3", b"#e6faee", b"#f4e6fa",
    b"#fafae6", b"#e6f4fa", b"#fae6ee", b"#e8fae6", b"#e9e6fa", b"#faefe6", b"#e6faf5", b"#fae6f9",
];

/// The colours of links, so that neighbours can be told apart.
const DARK: [&[u8]; 6] = [
    b"#1f4e79", b"#7a1f1f", b"#1f6b3a", b"#6b3fa0", b"#8a5a00", b"#0f6b6b",
];

/// The colour of a block; white for those that have none.
pub fn light(number: Option<u8>) -> &'static [u8] {
    match number {
        Some(number) => LIGHT
            .get(usize::from(number) % 32)
            .copied()
            .unwrap_or(b"#ffffff"),
        None => b"#ffffff",
    }
}

/// The colour of a link on a track.
pub fn dark(track: usize) -> &'static [u8] {
    DARK.get(track % 6).copied().unwrap_or(b"#333333")
}
