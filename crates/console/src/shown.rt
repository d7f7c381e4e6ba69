// Messages as people type them, with | for the byte 1.
ghost use Rattle.std.specs.Prelude.{◌≡◌, map};
ghost use Rattle.console.specs.Shown.{unshown};

/// Turns each | into the byte 1.
pub fn unshow(bytes: &mut [u8])
    ensures after { bytes.new ≡ map unshown bytes.old }
{
    for b in bytes.iter_mut() {
        *b = meant(*b);
    }
}

fn meant(b: u8) -> u8
    ensures value { result ≡ unshown b }
{
    if b == b'|' { 1 } else { b }
}
