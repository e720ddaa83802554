//! How the library lays out what it has in common with C.

ghost use Rattle.std.specs.Prelude.{◌≡◌, drop, length, take};
ghost use Rattle.camel_c.specs.Layouts.{layout_sizes};

mod sizes;

use crate::layouts::sizes::{LAYOUT_COUNT, LAYOUT_SIZES};

/// The version of the layouts and of the functions: `CAMEL_ABI_VERSION` of the header.
pub(crate) const ABI_VERSION: u32 = 4;

/// The version of the layouts and of the functions, as the library has them.
#[unsafe(no_mangle)]
pub extern "C" fn camel_abi_version() -> u32
    ensures { result ≡ 4 }
{
    ABI_VERSION
}

/// Writes the sizes of the types of the header in its order, and then of a handle, as many as there is room for, and
/// returns how many there are.
#[unsafe(no_mangle)]
pub extern "C" fn camel_layouts(sizes: &mut [u32]) -> u32
    ensures count { result ≡ 20 }
    ensures written { take 20 sizes.new ≡ take (length sizes.old) layout_sizes }
    ensures rest { drop 20 sizes.new ≡ drop 20 sizes.old }
{
    let count = sizes.len().min(LAYOUT_COUNT);
    sizes[..count].copy_from_slice(&LAYOUT_SIZES[..count]);
    LAYOUT_COUNT as u32
}
