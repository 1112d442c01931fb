// One byte of a slice, read and written through a raw pointer. These two functions are all that follows a pointer in this
// crate: their clauses name lists and numbers alone, so that everything over them is safe code.

ghost use Rattle.std.specs.Prelude.{◌≡◌, ◌<◌, length, slice_index, slice_set};

// The byte at `at`.
pub(crate) fn read_byte(bytes: &[u8], at: usize) -> u8
    requires { at < length bytes.now }
    ensures { result ≡ slice_index bytes.now at }
{
    let start = bytes.as_ptr();
    unsafe {
        let place = start.add(at);
        *place
    }
}

// Puts `value` at `at`.
pub(crate) fn write_byte(bytes: &mut [u8], at: usize, value: u8)
    requires { at < length bytes.old }
    ensures { bytes.new ≡ slice_set bytes.old at value }
{
    let start = bytes.as_mut_ptr();
    unsafe {
        let place = start.add(at);
        *place = value;
    }
}
