// The bytes of the provider, one after another; those below `used` are in use. They stand in an array, where a value is copied
// as a whole: a bounded list takes one byte at a time.
ghost use Rattle.std.specs.Prelude.{◌≡◌, ℕ, ◌<◌, ◌≤◌, length, slice_index};

mod read;
mod write;

#[derive(Drop)]
pub(crate) struct Table {
    bytes: [u8; 32768],
    used: usize,
    ghost fits: { used ≤ 32768 },
    ghost places: { length bytes ≡ 32768 },
    ghost small: { (k : ℕ) → slice_index bytes k < 256 },
}
