// What is left to read of a command's content.

ghost use Rattle.std.specs.Prelude.{◌+◌, ◌^◌, ◌<◌, length};

use words::Part;

// A part of the content that ends below the last address.
#[derive(Clone, Copy)]
pub(crate) struct Rest<'a> {
    pub(crate) part: Part<'a>,
    ghost ends: { part.at + length part.text.now < 2 ^ 64 },
}
