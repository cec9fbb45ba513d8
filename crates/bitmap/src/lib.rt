// A film in the bytes of a bitmap.
//
// `Bitmap` owns its memory: rows of as many bytes as the width asks for, the top row first, the
// leftmost pixel in the highest bit, 1 for dark. The padding bits of a row are 0, always.
// `Bitmap::new` takes the memory and clears the film's own part of it, or hands it back with the
// reason; `into_memory` gives it back. Bytes past the film's own stay as they were.
// A span costs the bytes that it touches, and a row is packed by copying its bytes.
#![tactic(auto)]

pub mod bitmap;
pub mod making;
