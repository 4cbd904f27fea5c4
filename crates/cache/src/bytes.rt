ghost use Rattle.std.specs.Prelude.{◌≡◌, ◌+◌, ◌≤◌, length};
ghost use Rattle.promises.specs.Steps.{written};

/// Writes a value over the bytes of a slab from a place on.
pub(crate) fn fill(slab: &mut [u8], from: usize, value: &[u8])
    requires { from + length value.now ≤ length slab.old }
    ensures { slab.new ≡ written slab.old from value.now }
{
    slab[from..from + value.len()].copy_from_slice(value);
}
