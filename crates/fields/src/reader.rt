// The reader of fields. Its steps stand in a module below, since their contracts cite definitions that name it.
ghost use Rattle.std.specs.Prelude.{◌≤◌, length};

/// the steps, and the laws of fields
pub mod steps;

/// Walks over bytes that it was lent, field by field, and copies none. It keeps them all with its place, which refusals name.
#[derive(Clone, Copy)]
pub struct Reader<'a> {
    bytes: &'a [u8],
    at: usize,
    ghost inside: { at ≤ length bytes.now },
}
